// Finding on a shelf whose cells may be anything: along it once, with a mark for each block found.
// Whether an owner was found before is asked of a filter first; only where that says maybe are the marked blocks looked through.
ghost use Rattle.std.specs.Prelude.{◌≡◌, ◌-◌, ◌<◌, ◌≤◌, true, length, is_some, Decides, IfSome, MatchOption, nat_le, unwrap_or};
ghost use Rattle.std.specs.Iterator.{at_most};
ghost use Rattle.block.specs.Block.{block, used};
ghost use Rattle.recovery.specs.Search.{MarkedAs, NoneUsed, NextUsed, AllFound};

use bits::{Marks, OwnerFilter};
use block::{Head, Shelf, block_at, block_size};
use shelf::has_cell;

// cells that are compared at once
const CHUNK: usize = 64;

// Whether a block stands at i. Never inlined: with all of it in the loop over the cells, one that is no head's takes longer.
#[inline(never)]
fn stands_at(shelf: &[u32], i: usize) -> bool
    ensures { result ≡ block shelf.now i }
{
    block_at(shelf, i)
}

// Whether a block in use stands at i. Most cells are no head's, so the first cell is read before all else.
fn is_used_at(shelf: &[u32], i: usize) -> bool
    requires { i < length shelf.now }
    ensures { result ≡ used shelf.now i }
{
    Head::try_from(shelf[i]).is_ok_and(|head| head.in_use) && stands_at(shelf, i)
}

// The first place from i on at which a block in use stands. Never inlined: its loop stays short, whatever calls it.
#[inline(never)]
fn next_used(shelf: &[u32], i: usize) -> Option<usize>
    ensures some { IfSome result (λ p. (i ≤ p) × (p < length shelf.now) × (used shelf.now p ≡ true)) }
    ensures none { NoneUsed shelf.now i (unwrap_or result (length shelf.now)) }
{
    (i..shelf.len()).find(|place| is_used_at(shelf, *place))
}

// The places of the blocks in use along a shelf, whatever its cells are. Blocks that stand never overlap, so it goes on behind each.
#[derive(Drop)]
struct UsedBlocks<'a> {
    shelf: &'a [u32],
    at: usize,
}

impl Iterator for UsedBlocks<'_> {
    type Item = usize;

    ghost next_gives = { λ s r t. NextUsed s.shelf.now s.at r t.shelf.now t.at };

    ghost remaining = { λ s. at_most (length s.shelf.now - s.at) };

    fn next(&mut self) -> Option<usize> {
        let place = next_used(self.shelf, self.at)?;
        self.at = place + block_size(self.shelf[place]);
        Some(place)
    }
}

// Whether a block marked from i on and before j is this owner's. Cells of which none is that number are passed over at once.
// Two functions of the shelf and its marks: a struct would hold the marks by `&mut`, and be taken apart to count them.
fn is_marked_as(shelf: &[u32], marks: &Marks, owner: u32, i: usize, j: usize) -> bool
    requires order { i ≤ j }
    requires within { j < length shelf.now }
    ensures { Decides result (MarkedAs marks.now.words shelf.now owner i j) }
{
    has_cell(&shelf[i + 1..j + 1], owner)
        && (i..j).any(|p| shelf[p + 1] == owner && marks.is_marked(p))
}

// Whether a block marked before `end` is this owner's, chunk by chunk. Never inlined: it has all registers then.
#[inline(never)]
fn is_found(shelf: &[u32], marks: &Marks, owner: u32, end: usize) -> bool
    requires { end < length shelf.now }
    ensures { Decides result (MarkedAs marks.now.words shelf.now owner 0 end) }
{
    (0..end).step_by(CHUNK).any(|from| {
        let to = end.min(from + CHUNK);
        is_marked_as(shelf, marks, owner, from, to)
    })
}

// Marks all that is found on a shelf and says how many there are; a shelf of more than 100,000 cells is refused.
// The marks are lent, so that the filter and they together are all the stack that it takes.
pub fn find_all(shelf: &[u32], marks: &mut Marks) -> Option<usize>
    ensures test { is_some result ≡ nat_le (length shelf.now) 100000 }
    ensures all { MatchOption result (marks.new.words ≡ marks.old.words) (λ n. AllFound shelf.now marks.new.words n) }
{
    if shelf.len() > Shelf::MOST {
        return None;
    }
    marks.clear();
    let mut owners = OwnerFilter::new();
    for place in (UsedBlocks { shelf, at: 0 }) {
        let owner = shelf[place + 1];
        if !owners.may_have(owner) || !is_found(shelf, marks, owner, place) {
            marks.mark(place);
            owners.add(owner);
        }
    }
    Some(marks.count())
}
