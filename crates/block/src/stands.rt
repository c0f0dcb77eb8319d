// Whether a block stands at a place, and its row.
ghost use Rattle.std.specs.Prelude.{◌≡◌, ◌+◌, ◌&&◌, ◌==◌, [], length, if◌then◌else◌, nat_le};
ghost use Rattle.block.specs.Block.{block, size, content, sum_of, all_small};

use crate::head::{Head, row_length};
use crate::limits::Shelf;
use crate::sums::{checksum, is_small};

// Whether a row is small and has that checksum. Never inlined: so `block_at` takes a few instructions where no head is.
#[inline(never)]
fn has_sum(row: &[u32], first: u32, owner: u32, sum: u32) -> bool
    ensures { result ≡ (all_small row.now && sum == sum_of first owner row.now) }
{
    is_small(row) && sum == checksum(first, owner, row)
}

// Whether a block stands at i. A row is summed only once all of it is known to be small, so that many
// heads which claim the same cells cost no more than the cells.
pub fn block_at(shelf: &[u32], i: usize) -> bool
    ensures { result ≡ block shelf.now i }
{
    // Not get(): this is asked of each cell, and get() takes 10 instructions more.
    let Some((_, [first, owner, sum, behind @ ..])) = shelf.split_at_checked(i) else {
        return false;
    };
    let Ok(head) = Head::try_from(*first) else {
        return false;
    };
    let Some((row, _)) = behind.split_at_checked(head.length as usize) else {
        return false;
    };
    *owner < Shelf::LIMIT && has_sum(row, *first, *owner, *sum)
}

// The row of the block at i, as a part of the shelf; a part of none where the block doesn't end on it.
pub fn row_at<'a>(shelf: &'a [u32], i: usize) -> &'a [u32]
    ensures { result.now ≡ (if nat_le (i + size shelf.now i) (length shelf.now) then content shelf.now i else []) }
{
    let Some([first, _, _, behind @ ..]) = shelf.get(i..) else {
        return &[];
    };
    behind.get(..row_length(*first)).unwrap_or(&[])
}
