// Mending: what is found stays where it stands, and all between becomes free, written left to right.
// The blocks that are found are marked first; then each stretch between two of them is lent on to be freed.
ghost use Rattle.std.specs.Prelude.{◌≡◌, ℕ, ◌<◌, ◌≤◌, true, false, length, IfSome, unwrap_or};
ghost use Rattle.bits.specs.Marks.{marked};
ghost use Rattle.recovery.specs.Found.{found};
ghost use Rattle.recovery.specs.Mend.{mended, mend_refusal, mend_answer, mend_cells, MendSays};
ghost use Rattle.recovery.specs.Promise.{KeptByMending};

use crate::find::find_all;
use bits::Marks;
use block::{Shelf, block_size};
use requests::{Done, Refusal, write_free};

// The first marked place from `from` on and before `end`. Never inlined: beside a write, its loop carries along what the
// write counts.
#[inline(never)]
fn next_marked(marks: &Marks, from: usize, end: usize) -> Option<usize>
    ensures some { IfSome result (λ p. (from ≤ p) × (p < end) × (marked marks.now.words p ≡ true)) }
    ensures none { (p : ℕ) → from ≤ p → p < unwrap_or result end → marked marks.now.words p ≡ false }
{
    (from..end).find(|place| marks.is_marked(*place))
}

// Makes all cells free that lie in no marked block.
fn free_between(shelf: &mut [u32], marks: &Marks)
    requires short { length shelf.old ≤ 100000 }
    requires places { (p : ℕ) → marked marks.now.words p ≡ found shelf.old p }
    ensures { shelf.new ≡ mended shelf.old }
{
    let end = shelf.len();
    let mut gap = 0;
    // Not a filter over all places: that tests those inside blocks too, and takes 3 times as long with 10 blocks.
    // No iterator that jumps: where it goes on is read from the shelf, which is written in between.
    while let Some(place) = next_marked(marks, gap, end) {
        // blocks often stand side by side, with nothing between them to write
        if gap < place {
            write_free(&mut shelf[gap..place]);
        }
        gap = place + block_size(shelf[place]);
    }
    write_free(&mut shelf[gap..end]);
}

// Mends a shelf, whatever its cells are; one of fewer than 3 or more than 100,000 cells is refused.
pub fn mend(shelf: &mut [u32]) -> Result<Done, Refusal>
    ensures answer { result ≡ mend_answer (mend_refusal shelf.old) }
    ensures cells { shelf.new ≡ mend_cells (mend_refusal shelf.old) shelf.old }
    ensures says { MendSays (mend_refusal shelf.old) shelf.old result shelf.new }
    ensures kept { mend_refusal shelf.old ≡ 0 → KeptByMending shelf.old shelf.new }
{
    if shelf.len() < Shelf::HEAD {
        return Err(Refusal::Unusable);
    }
    let mut marks = Marks::new();
    find_all(shelf, &mut marks).ok_or(Refusal::Unusable)?;
    free_between(shelf, &marks);
    Ok(Done::Saved)
}
