// A plain list of who holds what, beside a shelf: what a request should answer is told from it alone.
use block::{Shelf, row_at};
use dispatch::Request;
use random::Random;
use requests::{Done, Refusal};
use shelf::{Item, Walk};
use std::alloc::{AllocError, Global};
use std::iter;

// What somebody holds, and where.
#[derive(PartialEq, Eq, Drop)]
pub struct Holding {
    pub owner: u64,
    pub place: usize,
    pub row: Vec<u32>,
}

impl Holding {
    // The place behind it.
    pub fn end(&self) -> usize {
        self.place
            .wrapping_add(Shelf::HEAD)
            .wrapping_add(self.row.len())
    }

    // Whether it shares a cell with another.
    fn overlaps(&self, other: &Holding) -> bool {
        other.place < self.end() && self.place < other.end()
    }

    // Whether it shares no cell with any holding elsewhere.
    pub fn is_apart(&self, others: &[Holding]) -> bool {
        others
            .iter()
            .all(|other| other.place == self.place || !self.overlaps(other))
    }
}

// An owner or a cell's new number may not be past the limit.
fn below_limit(number: u64) -> Result<(), Refusal> {
    if number >= Shelf::LIMIT as u64 {
        return Err(Refusal::TooLarge);
    }
    Ok(())
}

// All that is held on a shelf of so many cells.
#[derive(Drop)]
pub struct List {
    // Not a map: holders are drawn by index, and of what stands on a shelf somebody may have two.
    pub holdings: Vec<Holding>,
    cells: usize,
}

impl List {
    pub fn new(heap: Global, cells: usize) -> List {
        List {
            holdings: Vec::new(heap),
            cells,
        }
    }

    // The blocks in use that stand along a shelf.
    pub fn standing(heap: Global, shelf: &[u32]) -> Result<List, AllocError> {
        let mut list = List::new(heap, shelf.len());
        for item in Walk::new(shelf) {
            if let Item::InUse { place, owner, .. } = item {
                let row = Vec::from_slice(heap, row_at(shelf, place))?;
                let owner = u64::from(owner);
                list.holdings.push(Holding { owner, place, row })?;
            }
        }
        Ok(list)
    }

    // Any of the holdings.
    pub fn draw(&self, random: &mut Random) -> Option<&Holding> {
        self.holdings.get(random.place(self.holdings.len()))
    }

    // Somebody's holding.
    pub fn held_by(&self, owner: u64) -> Option<&Holding> {
        self.holdings.iter().find(|holding| holding.owner == owner)
    }

    // Whether somebody has just this holding.
    pub fn has(&self, holding: &Holding) -> bool {
        self.held_by(holding.owner)
            .is_some_and(|listed| *listed == *holding)
    }

    // Where the first holding begins from a place on, or the shelf's end.
    fn next_begin(&self, from: usize) -> usize {
        self.holdings
            .iter()
            .map(|holding| holding.place)
            .filter(|place| *place >= from)
            .min()
            .unwrap_or(self.cells)
    }

    // Whether a row of so many cells fits with its head between a place and the next holding.
    fn fits(&self, from: usize, long: u64) -> bool {
        let gap = self.next_begin(from).saturating_sub(from) as u64;
        gap >= long.saturating_add(Shelf::HEAD as u64)
    }

    // The first place with room: the shelf's first cell or the end of a holding.
    fn room_for(&self, long: u64) -> Option<usize> {
        let ends = self.holdings.iter().map(|holding| holding.end());
        iter::once(0)
            .chain(ends)
            .filter(|from| self.fits(*from, long))
            .min()
    }

    // The holding of somebody who should have one.
    fn holder(&self, whose: u64) -> Result<&Holding, Refusal> {
        below_limit(whose)?;
        self.held_by(whose).ok_or(Refusal::HoldsNone)
    }

    fn answer_to_take(&self, whose: u64, long: u64) -> Result<Done, Refusal> {
        below_limit(whose)?;
        if self.held_by(whose).is_some() {
            return Err(Refusal::HoldsOne);
        }
        if long > Shelf::MOST as u64 {
            return Err(Refusal::OutOfRange);
        }
        Ok(self.room_for(long).map_or(Done::NoRoom, |_| Done::Taken))
    }

    fn answer_to_give(&self, whose: u64) -> Result<Done, Refusal> {
        self.holder(whose)?;
        Ok(Done::Given)
    }

    fn answer_to_set(&self, whose: u64, cell: u64, to: u64) -> Result<Done, Refusal> {
        below_limit(to)?;
        if cell >= self.holder(whose)?.row.len() as u64 {
            return Err(Refusal::OutOfRange);
        }
        Ok(Done::Set)
    }

    // What a request should answer where the shelf is sound.
    // Not closures: the same request is asked of the shelf and of the list.
    pub fn answer_to(&self, request: Request) -> Result<Done, Refusal> {
        match request {
            Request::Take { whose, long } => self.answer_to_take(whose, long),
            Request::Give { whose } => self.answer_to_give(whose),
            Request::Set { whose, cell, to } => self.answer_to_set(whose, cell, to),
            Request::Mend => Ok(Done::Saved),
        }
    }

    // A new holding of noughts where the first room is.
    fn add(&mut self, whose: u64, long: u64) -> Result<(), AllocError> {
        if let Some(place) = self.room_for(long) {
            let row = vec![in *self.holdings.allocator(); 0; long as usize]?;
            self.holdings.push(Holding {
                owner: whose,
                place,
                row,
            })?;
        }
        Ok(())
    }

    fn remove(&mut self, whose: u64) {
        let index = self
            .holdings
            .iter()
            .position(|holding| holding.owner == whose);
        if let Some(index) = index {
            let _ = self.holdings.swap_remove(index);
        }
    }

    // Sets a cell of somebody's row.
    fn set(&mut self, whose: u64, cell: u64, to: u64) {
        let holding = self
            .holdings
            .iter_mut()
            .find(|holding| holding.owner == whose);
        if let Some(x) = holding.and_then(|holding| holding.row.get_mut(cell as usize)) {
            *x = (to % Shelf::MARK as u64) as u32;
        }
    }

    // Makes the list what it is after a request that was carried out.
    pub fn note_done(&mut self, request: Request) -> Result<(), AllocError> {
        match request {
            Request::Take { whose, long } => self.add(whose, long)?,
            Request::Give { whose } => self.remove(whose),
            Request::Set { whose, cell, to } => self.set(whose, cell, to),
            Request::Mend => {}
        }
        Ok(())
    }
}
