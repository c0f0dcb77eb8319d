// Writes of free cells.
ghost use Rattle.std.specs.Prelude.{◌≡◌, ◌+◌, ◌-◌, ◌≤◌, true, ◌++◌, length};
ghost use Rattle.block.specs.Block.{block_cells};
ghost use Rattle.requests.specs.Free.{noughts, free_cells};

use block::{Head, Shelf, fill_cells, write_behind_first, write_block};

// All of the part becomes free, left to right: dead cells if they are too few for a head, else one block.
// The bound is a clause and no type: a type of short parts would ask callers to wrap what they lend.
pub fn write_free(part: &mut [u32])
    requires { length part.old ≤ 100000 }
    ensures { part.new ≡ free_cells (length part.old) }
{
    if part.len() < Shelf::HEAD {
        fill_cells(part, Shelf::DEAD);
    } else {
        write_block(part, false, 0);
    }
}

// A block of noughts in use at the front of the part, and the rest free: left to right, but that the new
// block's first cell is written last, so that nobody new is found before the block is whole.
pub fn write_taken(part: &mut [u32], owner: u32, long: usize)
    requires fits { 3 + long ≤ length part.old }
    requires short { length part.old ≤ 100000 }
    ensures { part.new ≡ block_cells true owner (noughts long) ++ free_cells (length part.old - (3 + long)) }
{
    let first = u32::from(Head {
        length: long as u32,
        in_use: true,
    });
    let middle = Shelf::HEAD + long;
    write_behind_first(&mut part[..middle], first, owner);
    write_free(&mut part[middle..]);
    part[0] = first;
}
