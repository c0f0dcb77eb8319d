// What somebody is shown: their row, or that they hold none.
ghost use Rattle.std.specs.Prelude.{◌≡◌};
ghost use Rattle.dispatch.specs.Showing.{Shows};

use block::row_at;
use requests::{Refusal, admit};
use shelf::find_block;

// What somebody holds, as a part of the shelf, or none.
pub fn show<'a>(shelf: &'a [u32], whose: u64) -> Result<Option<&'a [u32]>, Refusal>
    ensures { Shows shelf.now whose result }
{
    admit(shelf, whose)?;
    Ok(find_block(shelf, whose).map(|place| row_at(shelf, place)))
}
