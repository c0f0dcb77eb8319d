// What stands at a place, read from the cells there.
ghost use Rattle.std.specs.Prelude.{◌≡◌, ◌<◌, length, IfSome};
ghost use Rattle.block.specs.Block.{at};
ghost use Rattle.shelf.specs.Walk.{next};
ghost use Rattle.shelf.specs.Sound.{idle};
ghost use Rattle.shelf.specs.Standing.{said, end_of};

use crate::walk::Item;
use block::{Shelf, block_size, is_used, row_length};

// The cell at a place, nought past the end.
pub fn cell_at(shelf: &[u32], i: usize) -> u32
    ensures { result ≡ at shelf.now i }
{
    shelf.get(i).copied().unwrap_or(0)
}

// The place behind what stands at i.
pub fn next_place(shelf: &[u32], i: usize) -> usize
    requires { i < length shelf.now }
    ensures { result ≡ next shelf.now i }
{
    let cell = shelf[i];
    if cell == Shelf::DEAD {
        i + 1
    } else {
        i + block_size(cell)
    }
}

// What stands at a place, none past the end.
pub fn item_at(shelf: &[u32], place: usize) -> Option<Item>
    ensures value { result ≡ said shelf.now place }
    ensures end { IfSome result (λ item. end_of item ≡ next shelf.now place) }
{
    let cell = *shelf.get(place)?;
    if cell == Shelf::DEAD {
        return Some(Item::Dead { place });
    }
    let length = row_length(cell);
    if !is_used(cell) {
        return Some(Item::Free { place, length });
    }
    Some(Item::InUse {
        place,
        owner: cell_at(shelf, place + 1),
        length,
    })
}

// Whether something free stands at i: a dead cell or a block that isn't in use.
pub fn is_idle(shelf: &[u32], i: usize) -> bool
    ensures { result ≡ idle shelf.now i }
{
    item_at(shelf, i).is_some_and(|item| item.is_idle())
}
