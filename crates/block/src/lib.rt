// A block is a head of three cells and a row: its first cell is the only one of 2^31 or more, so in any
// cells whatever two blocks that stand never overlap, and a block is told by its own cells alone.
// This crate reads heads, sums rows and tells where a block stands; all else is built on its laws.
#![tactic(auto)]

mod convert;
mod head;
mod laws;
mod limits;
mod stands;
mod sums;
mod writes;

pub use convert::NoHead;
pub use head::{Head, block_size, is_used, row_length};
pub use laws::{
    blocks_have_one_head, blocks_never_overlap, blocks_told_by_own_cells, blocks_told_by_parts,
    blocks_written_and_read,
};
pub use limits::Shelf;
pub use stands::{block_at, row_at};
pub use sums::{checksum, is_small};
pub use writes::{fill_cells, set_row_cell, write_behind_first, write_block};
