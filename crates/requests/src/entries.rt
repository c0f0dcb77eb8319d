// The requests, over a shelf that is lent: each is a plan, and then its run.
ghost use Rattle.std.specs.Prelude.{◌≡◌};
ghost use Rattle.requests.specs.Answers.{number};
ghost use Rattle.requests.specs.Entry.{take_refusal, TakeSays, give_refusal, GiveSays, set_refusal, SetSays, viewed, rows};
ghost use Rattle.requests.specs.Plans.{take_plan, taken, give_plan, given, set_plan, set_to, answer, after, take_answer, where_room};
ghost use Rattle.requests.specs.declared.done.Done.TheVariants.{Given as gave, Set as was_set};

use crate::done::Done;
use crate::planning::{is_usable, plan_give, plan_set, plan_take};
use crate::refusal::Refusal;
use block::row_at;
use shelf::find_block;

// A block for somebody who has none: a row of so many noughts, where the first free block begins that is long
// enough; what is over stands behind it, free.
pub fn take_block(shelf: &mut [u32], whose: u64, long: u64) -> Result<Done, Refusal>
    ensures answer { result ≡ take_answer (take_plan shelf.old whose long) }
    ensures cells { shelf.new ≡ after (where_room taken) (take_plan shelf.old whose long) shelf.old }
    ensures refusal { number result ≡ take_refusal shelf.old whose long }
    ensures says { TakeSays (take_refusal shelf.old whose long) shelf.old whose long result shelf.new }
{
    let Some(taking) = plan_take(shelf, whose, long)? else {
        return Ok(Done::NoRoom);
    };
    taking.run(shelf);
    Ok(Done::Taken)
}

// What somebody holds, free again, and one with what is free beside it.
pub fn give_back(shelf: &mut [u32], whose: u64) -> Result<Done, Refusal>
    ensures answer { result ≡ answer gave (give_plan shelf.old whose) }
    ensures cells { shelf.new ≡ after given (give_plan shelf.old whose) shelf.old }
    ensures refusal { number result ≡ give_refusal shelf.old whose }
    ensures says { GiveSays (give_refusal shelf.old whose) shelf.old whose result shelf.new }
{
    plan_give(shelf, whose)?.run(shelf);
    Ok(Done::Given)
}

// A cell of somebody's row, set to a number below the limit.
pub fn set_cell(shelf: &mut [u32], whose: u64, cell: u64, to: u64) -> Result<Done, Refusal>
    ensures answer { result ≡ answer was_set (set_plan shelf.old whose cell to) }
    ensures cells { shelf.new ≡ after (λ p a. set_to p whose a) (set_plan shelf.old whose cell to) shelf.old }
    ensures refusal { number result ≡ set_refusal shelf.old whose cell to }
    ensures says { SetSays (set_refusal shelf.old whose cell to) shelf.old whose cell to result shelf.new }
{
    plan_set(shelf, whose, cell, to)?.run(shelf);
    Ok(Done::Set)
}

// What somebody holds, as a part of the shelf; a part of none where they hold none or the shelf can't be used.
pub fn view<'a>(shelf: &'a [u32], whose: u64) -> &'a [u32]
    ensures { result.now ≡ rows (viewed shelf.now whose) }
{
    if !is_usable(shelf) {
        return &[];
    }
    // Not map_or(): nothing is known then of the part that it hands back.
    let Some(place) = find_block(shelf, whose) else {
        return &[];
    };
    row_at(shelf, place)
}
