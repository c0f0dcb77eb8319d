// Random requests, and whether a shelf answers each as the list says.
use crate::counts::{Counts, count};
use crate::trial::Trial;
use anyhow::anyhow;
use block::Shelf;
use dispatch::{Request, carry_out};
use random::Random;
use requests::{Book, Done, Refusal, view};
use shelf::find_block;

// owners who take most
const OWNERS: u64 = 24;

// Somebody of the few, or a number at the limit or far past it.
fn random_owner(random: &mut Random) -> u64 {
    let limit = Shelf::LIMIT as u64;
    match random.below(16) {
        0 => limit.wrapping_sub(2).wrapping_add(random.below(4)),
        1 => random.next(),
        _ => random.below(OWNERS),
    }
}

// What a cell is set to: any number, or one at the limit.
fn random_value(random: &mut Random) -> u64 {
    let limit = Shelf::LIMIT as u64;
    match random.below(16) {
        0 => limit.wrapping_sub(2).wrapping_add(random.below(4)),
        1 => random.next(),
        2..=4 => random.below(4),
        _ => random.below(limit),
    }
}

// A counter for each case, so a match.
fn count_answer(counts: &mut Counts, answer: Result<Done, Refusal>) {
    count(&mut counts.requests);
    match answer {
        Ok(Done::NoRoom) => count(&mut counts.no_room),
        Ok(_) => {}
        Err(_) => count(&mut counts.refused),
    }
}

impl Trial<'_> {
    // Somebody who holds a block, or now and then anybody.
    fn random_holder(&mut self) -> u64 {
        match self.list.draw(&mut self.random) {
            Some(holding) if self.random.below(8) != 0 => holding.owner,
            _ => random_owner(&mut self.random),
        }
    }

    // A length of a row: mostly a small part of the shelf, or all of it about, or too long.
    fn random_length(&mut self) -> u64 {
        let cells = self.shelf.len() as u64;
        match self.random.below(32) {
            0 => self.random.next(),
            1 => (Shelf::MOST as u64).wrapping_add(self.random.below(3)),
            2..=4 => self.random.below(cells.wrapping_add(4)),
            5..=8 => 0,
            _ => self.random.below((cells / 8).wrapping_add(3)),
        }
    }

    // A cell of somebody's row, or one a little or far past it.
    fn random_cell(&mut self, whose: u64) -> u64 {
        let held = self.list.held_by(whose);
        let length = held.map_or(0, |holding| holding.row.len() as u64);
        match self.random.below(32) {
            0 => self.random.next(),
            1 => length,
            _ => self.random.below(length),
        }
    }

    fn random_request(&mut self) -> Request {
        match self.random.below(8) {
            0..=3 => Request::Take {
                whose: random_owner(&mut self.random),
                long: self.random_length(),
            },
            4 => Request::Give {
                whose: self.random_holder(),
            },
            _ => {
                let whose = self.random_holder();
                Request::Set {
                    whose,
                    cell: self.random_cell(whose),
                    to: random_value(&mut self.random),
                }
            }
        }
    }

    // Whether somebody holds what the list says, where it says.
    fn is_as_listed(&self, owner: u64) -> bool {
        let shelf = self.shelf.as_slice();
        let place = find_block(shelf, owner);
        let row = view(shelf, owner);
        match self.list.held_by(owner) {
            Some(holding) => place == Some(holding.place) && row == holding.row.as_slice(),
            None => place.is_none() && row.is_empty(),
        }
    }

    fn all_as_listed(&self) -> bool {
        let mut holdings = self.list.holdings.iter();
        holdings.all(|holding| self.is_as_listed(holding.owner))
    }

    // One request: its answer and the holding of whoever asked are held against the list.
    fn ask_one(&mut self) -> anyhow::Result<()> {
        let request = self.random_request();
        let expected = self.list.answer_to(request);
        let mut book = Book {
            cells: self.shelf.as_mut_slice(),
        };
        let answer = carry_out(&mut book, request);
        count_answer(self.counts, answer);
        if answer != expected {
            return Err(anyhow!("a request answers otherwise than the list"));
        }
        if answer.is_ok_and(|done| done != Done::NoRoom) {
            self.list.note_done(request)?;
        }
        let (Request::Take { whose, .. } | Request::Give { whose } | Request::Set { whose, .. }) =
            request
        else {
            return Ok(());
        };
        if !self.is_as_listed(whose) {
            return Err(anyhow!("after a request its owner holds otherwise than listed"));
        }
        Ok(())
    }

    // Some requests, and then all holdings.
    pub fn ask_some(&mut self, how_many: u64) -> anyhow::Result<()> {
        for _ in 0..how_many {
            self.ask_one()?;
        }
        if !self.all_as_listed() {
            return Err(anyhow!("after some requests somebody holds otherwise than listed"));
        }
        Ok(())
    }
}
