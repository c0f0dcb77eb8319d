// What the first cell of a head tells.
ghost use Rattle.std.specs.Prelude.{◌≡◌, ◌<◌};
ghost use Rattle.block.specs.Block.{size_for};
ghost use Rattle.block.specs.Cell.{dead, first_cell, row_length, is_used};

use crate::limits::Shelf;

// The length of the row that a first cell tells; of a cell that is none, what the same bits would tell.
pub fn row_length(cell: u32) -> usize
    ensures value { result ≡ row_length cell }
    ensures bound { result < 1073741824 }
{
    (cell.saturating_sub(Shelf::MARK) / 2) as usize
}

// How many cells the block has of which this is the first.
pub fn block_size(cell: u32) -> usize
    ensures value { result ≡ size_for (row_length cell) }
    ensures bound { result < 1073741827 }
{
    Shelf::HEAD + row_length(cell)
}

// Whether a first cell tells of a block in use; of a cell that is none, what the same bit would tell.
pub fn is_used(cell: u32) -> bool
    ensures { result ≡ is_used cell }
{
    cell % 2 == 1
}

// How long the row is, and whether the block is in use.
#[derive(Clone, Copy, PartialEq, Eq, Debug)]
pub struct Head {
    pub length: u32,
    pub in_use: bool,
    ghost live: { first_cell length in_use < dead },
}
