// Runs of plans: each writes the cells that its plan says, and decides nothing. No cell outside the stretch
// that is lent on is written.
ghost use Rattle.std.specs.Prelude.{◌≡◌, ℕ, ◌+◌, ◌-◌, ◌<◌, ◌≤◌, true, List, length, take, drop, slice_set};
ghost use borrow.Rule.Slice.PartMut.{put_mid};
ghost use Rattle.block.specs.Cell.{limit};
ghost use Rattle.block.specs.Block.{block_cells};
ghost use Rattle.requests.specs.Plans.{taken, given, FitsTaking, FitsGiving, FitsSetting};

use crate::free::{write_free, write_taken};
use crate::plans::{Giving, Setting, Taking};
use block::set_row_cell;

// No trait of plans: nothing takes any plan, and each entry runs its own in one line.
// That a plan fits stands in the clauses: it's about the plan and the shelf that it's run on, and a plan holds no shelf.

impl Taking {
    // Writes the new block and, behind it, what is over.
    pub fn run(self, shelf: &mut [u32])
        requires { FitsTaking self shelf.old }
        ensures { shelf.new ≡ taken self shelf.old }
    {
        let end = self.place + self.size;
        write_taken(&mut shelf[self.place..end], self.owner, self.long);
    }
}

impl Giving {
    // The block's first cell is written first, so that it is in use no more, and then the free stretch.
    pub fn run(self, shelf: &mut [u32])
        requires { FitsGiving self shelf.old }
        ensures { shelf.new ≡ given self shelf.old }
    {
        let Giving { place, from, end } = self;
        shelf[place] = 0;
        write_free(&mut shelf[from..end]);
    }
}

impl Setting {
    // Writes the cell of the row, and then the checksum.
    pub fn run(self, shelf: &mut [u32])
        requires { FitsSetting self shelf.old }
        ensures { (w : ℕ) (r : List ℕ) → take self.size (drop self.place shelf.old) ≡ block_cells true w r → shelf.new ≡ put_mid self.place self.size shelf.old (block_cells true w (slice_set r self.cell self.to)) }
    {
        let end = self.place + self.size;
        set_row_cell(&mut shelf[self.place..end], self.cell, self.to);
    }
}
