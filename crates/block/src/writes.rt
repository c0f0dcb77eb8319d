// Writes of blocks: a block of noughts, and one cell of a row with its checksum.
ghost use Rattle.std.specs.Prelude.{◌≡◌, ℕ, ◌+◌, ◌-◌, ◌<◌, ◌≤◌, Bool, true, List, ◌∷◌, length, replicate, slice_index, slice_set};
ghost use Rattle.block.specs.Cell.{first_cell, limit};
ghost use Rattle.block.specs.Block.{size_for, sum_of, all_small, block_cells};

use crate::head::Head;
use crate::limits::Shelf;
use crate::sums::{MODULUS, checksum};

// Every cell of the part becomes a value.
pub fn fill_cells(part: &mut [u32], value: u32)
    ensures { part.new ≡ replicate (length part.old) value }
{
    part.fill(value);
}

// All cells but the first of a block of noughts that has all of the part.
pub fn write_behind_first(part: &mut [u32], first: u32, owner: u32)
    requires { 3 ≤ length part.old }
    ensures { part.new ≡ slice_index part.old 0 ∷ owner ∷ sum_of first owner (replicate (length part.old - 3) 0) ∷ replicate (length part.old - 3) 0 }
{
    part[1] = owner;
    // noughts add nothing
    part[2] = checksum(first, owner, &[]);
    fill_cells(&mut part[Shelf::HEAD..], 0);
}

// A block of noughts that has all of the part; its first cell is written last.
// Not a method of a struct that keeps the lengths: callers would make one for one write, and show the same.
pub fn write_block(part: &mut [u32], in_use: bool, owner: u32)
    requires long { 3 ≤ length part.old }
    requires short { length part.old ≤ 100000 }
    ensures { part.new ≡ block_cells in_use owner (replicate (length part.old - 3) 0) }
{
    let length = (part.len() - Shelf::HEAD) as u32;
    let first = u32::from(Head { length, in_use });
    write_behind_first(part, first, owner);
    part[0] = first;
}

// Sets a cell of the row of the block that has all of the part, and then renews the checksum by the
// difference that the cell makes.
pub fn set_row_cell(part: &mut [u32], cell: usize, to: u32)
    requires inside { 3 + cell < length part.old }
    requires short { length part.old ≤ 100000 }
    requires small { slice_index part.old (3 + cell) < limit }
    ensures { (u : Bool) (w : ℕ) (r : List ℕ) → part.old ≡ block_cells u w r → part.new ≡ block_cells u w (slice_set r cell to) }
{
    let was = part[Shelf::HEAD + cell] as u64;
    let difference = (cell as u64 + 5) * (to as u64 + MODULUS - was);
    part[Shelf::HEAD + cell] = to;
    part[2] = ((part[2] as u64 + difference) % MODULUS) as u32;
}
