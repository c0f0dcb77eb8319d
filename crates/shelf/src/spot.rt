// A place of a walk, and what soundness asks of it.
ghost use Rattle.std.specs.Prelude.{◌≡◌, Some};
ghost use Rattle.shelf.specs.Walk.{next};
ghost use Rattle.shelf.specs.Sound.{good_at, tidy_at, met_before, sound_at};
ghost use Rattle.shelf.specs.Standing.{said, place_of, end_of};
ghost use Rattle.shelf.specs.Meeting.{Knows, Notes};

use crate::cells::{cell_at, is_idle};
use crate::lookup::find_block;
use crate::scan::has_cell;
use crate::walk::Item;
use bits::OwnerFilter;
use block::{Shelf, block_at};

// A shelf, and what stands on it at a place.
#[derive(Clone, Copy)]
pub struct Spot<'a> {
    pub shelf: &'a [u32],
    pub item: Item,
    ghost stands: { Some item ≡ said shelf.now (place_of item) },
    ghost ends: { end_of item ≡ next shelf.now (place_of item) },
}

impl<'a> Spot<'a> {
    // Whether a dead cell or a block stands here.
    fn is_good(&self) -> bool
        ensures { result ≡ good_at self.now.shelf.now (place_of self.now.item) }
    {
        matches!(self.item, Item::Dead { .. }) || block_at(self.shelf, self.item.place())
    }

    // Whether it may stand before what is behind it.
    fn is_tidy(&self) -> bool
        ensures { result ≡ tidy_at self.now.shelf.now (place_of self.now.item) }
    {
        let behind = self.item.end();
        match self.item {
            Item::Dead { .. } => {
                !is_idle(self.shelf, behind)
                    || (cell_at(self.shelf, behind) == Shelf::DEAD
                        && !is_idle(self.shelf, behind + 1))
            }
            Item::Free { .. } => !is_idle(self.shelf, behind),
            Item::InUse { .. } => true,
        }
    }

    // Whether a block stands before it in use of the same owner as one in use here. A filter of owners answers
    // most questions after an earlier block, a look for a cell of that number nearly all others, and only where
    // neither can does a look along the shelf run.
    fn is_met_before(&self, owners: &OwnerFilter) -> bool
        requires { Knows self.now.shelf.now (place_of self.now.item) owners.now.words }
        ensures { result ≡ met_before self.now.shelf.now (place_of self.now.item) }
    {
        let Item::InUse { place, owner, .. } = self.item else {
            return false;
        };
        owners.may_have(owner)
            && has_cell(&self.shelf[..=place], owner)
            && find_block(self.shelf, owner as u64).is_some_and(|first| first < place)
    }

    // Whether nothing is at fault here.
    pub fn is_sound(&self, owners: &OwnerFilter) -> bool
        requires { Knows self.now.shelf.now (place_of self.now.item) owners.now.words }
        ensures { result ≡ sound_at self.now.shelf.now (place_of self.now.item) }
    {
        self.is_good() && self.is_tidy() && !self.is_met_before(owners)
    }

    // Adds the owner of a block in use.
    pub fn note_owner(&self, owners: &mut OwnerFilter)
        ensures { Notes self.now.shelf.now (place_of self.now.item) owners.old.words owners.new.words }
    {
        if let Item::InUse { owner, .. } = self.item {
            owners.add(owner);
        }
    }
}
