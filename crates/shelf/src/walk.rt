// A walk along a shelf: a struct that borrows the cells and knows where it is.
ghost use Rattle.std.specs.Prelude.{◌≡◌, ◌-◌, length};
ghost use Rattle.std.specs.Iterator.{at_most};
ghost use Rattle.shelf.specs.Standing.{Steps, is_idle, is_of, has_room_for, place_of, end_of};

use crate::cells::item_at;
use block::Shelf;

// What stands at a place of the walk.
#[derive(Clone, Copy, PartialEq, Eq, Debug)]
pub enum Item {
    Dead {
        place: usize,
    },
    Free {
        place: usize,
        length: usize,
    },
    InUse {
        place: usize,
        owner: u32,
        length: usize,
    },
}

impl Item {
    // Where it stands.
    pub fn place(self) -> usize
        ensures { result ≡ place_of self }
    {
        match self {
            Item::Dead { place } | Item::Free { place, .. } | Item::InUse { place, .. } => place,
        }
    }

    // The place behind it. Any item has one, so it saturates; for what stands on a shelf it never has to.
    pub fn end(self) -> usize
        ensures { result ≡ end_of self }
    {
        match self {
            Item::Dead { place } => place.saturating_add(1),
            Item::Free { place, length } | Item::InUse { place, length, .. } => {
                place.saturating_add(length.saturating_add(Shelf::HEAD))
            }
        }
    }

    // Whether it is free: a dead cell or a block that isn't in use.
    pub fn is_idle(self) -> bool
        ensures { result ≡ is_idle self }
    {
        !matches!(self, Item::InUse { .. })
    }

    // Whether it is a block in use of somebody's.
    pub fn is_of(self, owner: u64) -> bool
        ensures { result ≡ is_of owner self }
    {
        match self {
            Item::InUse { owner: theirs, .. } => theirs as u64 == owner,
            _ => false,
        }
    }

    // Whether it is a free block with so long a row or a longer one.
    pub fn has_room_for(self, length: usize) -> bool
        ensures { result ≡ has_room_for length self }
    {
        match self {
            Item::Free { length: free, .. } => length <= free,
            _ => false,
        }
    }
}

// The cells, and the place that it is at.
#[derive(Drop)]
pub struct Walk<'a> {
    shelf: &'a [u32],
    at: usize,
}

impl<'a> Walk<'a> {
    // A walk from the first cell on.
    pub fn new(shelf: &'a [u32]) -> Walk<'a>
        ensures shelf { result.shelf.now ≡ shelf.now }
        ensures at { result.at ≡ 0 }
    {
        Walk { shelf, at: 0 }
    }

    // A walk from a place on.
    pub fn starting_at(shelf: &'a [u32], at: usize) -> Walk<'a>
        ensures shelf { result.shelf.now ≡ shelf.now }
        ensures at { result.at ≡ at }
    {
        Walk { shelf, at }
    }
}

impl<'a> Iterator for Walk<'a> {
    type Item = Item;

    ghost next_gives = { Steps };

    ghost remaining = { λ walk. at_most (length walk.shelf.now - walk.at) };

    // What stands here, and on to the next place; none at the end.
    fn next(&mut self) -> Option<Item> {
        let item = item_at(self.shelf, self.at)?;
        self.at = item.end();
        Some(item)
    }
}
