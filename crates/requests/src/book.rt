// A book of a shelf: it holds the cells, and is lent to thin entries, one for each request.
// Thin on purpose: the store is asked through a book that is lent, and all else is in functions over slices.
ghost use Rattle.std.specs.Prelude.{◌≡◌};
ghost use Rattle.requests.specs.Answers.{number};
ghost use Rattle.requests.specs.Entry.{take_refusal, TakeSays, give_refusal, GiveSays, set_refusal, SetSays, viewed, rows};
ghost use Rattle.requests.specs.Plans.{take_plan, taken, give_plan, given, set_plan, set_to, answer, after, take_answer, where_room};
ghost use Rattle.requests.specs.declared.done.Done.TheVariants.{Given as gave, Set as was_set};

use crate::done::Done;
use crate::entries::{give_back, set_cell, take_block, view};
use crate::refusal::Refusal;

// The cells of a shelf, for as long as requests are made of it.
#[derive(Drop)]
pub struct Book<'a> {
    pub cells: &'a mut [u32],
}

impl Book<'_> {
    // A block for somebody who has none.
    pub fn take(&mut self, whose: u64, long: u64) -> Result<Done, Refusal>
        ensures answer { result ≡ take_answer (take_plan self.old.cells.now whose long) }
        ensures cells { self.new.cells.now ≡ after (where_room taken) (take_plan self.old.cells.now whose long) self.old.cells.now }
        ensures refusal { number result ≡ take_refusal self.old.cells.now whose long }
        ensures says { TakeSays (take_refusal self.old.cells.now whose long) self.old.cells.now whose long result self.new.cells.now }
        ensures lender { self.new.cells.ghost_name ≡ self.old.cells.ghost_name }
    {
        take_block(self.cells, whose, long)
    }

    // What somebody holds, free again.
    pub fn give(&mut self, whose: u64) -> Result<Done, Refusal>
        ensures answer { result ≡ answer gave (give_plan self.old.cells.now whose) }
        ensures cells { self.new.cells.now ≡ after given (give_plan self.old.cells.now whose) self.old.cells.now }
        ensures refusal { number result ≡ give_refusal self.old.cells.now whose }
        ensures says { GiveSays (give_refusal self.old.cells.now whose) self.old.cells.now whose result self.new.cells.now }
        ensures lender { self.new.cells.ghost_name ≡ self.old.cells.ghost_name }
    {
        give_back(self.cells, whose)
    }

    // A cell of somebody's row.
    pub fn set(&mut self, whose: u64, cell: u64, to: u64) -> Result<Done, Refusal>
        ensures answer { result ≡ answer was_set (set_plan self.old.cells.now whose cell to) }
        ensures cells { self.new.cells.now ≡ after (λ p a. set_to p whose a) (set_plan self.old.cells.now whose cell to) self.old.cells.now }
        ensures refusal { number result ≡ set_refusal self.old.cells.now whose cell to }
        ensures says { SetSays (set_refusal self.old.cells.now whose cell to) self.old.cells.now whose cell to result self.new.cells.now }
        ensures lender { self.new.cells.ghost_name ≡ self.old.cells.ghost_name }
    {
        set_cell(self.cells, whose, cell, to)
    }

    // What somebody holds, as a part of the shelf.
    pub fn row(&self, whose: u64) -> &[u32]
        ensures { result.now ≡ rows (viewed self.now.cells.now whose) }
    {
        view(self.cells, whose)
    }
}
