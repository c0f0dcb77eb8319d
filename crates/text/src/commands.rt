// What a line asks for.
ghost use Rattle.std.specs.Prelude.{◌≡◌};
ghost use Rattle.std.specs.Option.{option_and_then};
ghost use Rattle.text.specs.Cut.{words as WordsOf};
ghost use Rattle.text.specs.Reading.{numbers_of, command_of, line_of};
ghost use Rattle.text.specs.Said.{ReadsBack};

use crate::numbers::numbers;
use crate::words::Words;
use dispatch::Request;

#[derive(Clone, Copy, PartialEq, Eq, Debug)]
pub enum Command {
    // A new shelf of so many cells.
    Shelf(u64),
    // A request of the shelf: a block taken, given back, a cell set, or the shelf mended.
    Ask(Request),
    // Writes what somebody holds.
    Show(u64),
    // The cell at a place becomes a value.
    Hit { place: u64, value: u64 },
    // Writes all cells.
    Cells,
    // Writes all blocks in use.
    List,
}

// A line that has words, and asks for nothing.
#[derive(Clone, Copy, PartialEq, Eq, Debug)]
pub struct Unreadable;

// What a keyword asks for with the words behind it.
fn command_of(keyword: &[u8], words: Words) -> Option<Command>
    ensures { result ≡ option_and_then (command_of keyword.now) (numbers_of (WordsOf words.entry.rest.now)) }
{
    match keyword {
        b"cells" => numbers::<0>(words).and(Some(Command::Cells)),
        b"list" => numbers::<0>(words).and(Some(Command::List)),
        b"mend" => numbers::<0>(words).and(Some(Command::Ask(Request::Mend))),
        b"shelf" => {
            let [cells] = numbers::<1>(words)?;
            Some(Command::Shelf(cells))
        }
        b"give" => {
            let [whose] = numbers::<1>(words)?;
            Some(Command::Ask(Request::Give { whose }))
        }
        b"show" => {
            let [whose] = numbers::<1>(words)?;
            Some(Command::Show(whose))
        }
        b"take" => {
            let [whose, long] = numbers::<2>(words)?;
            Some(Command::Ask(Request::Take { whose, long }))
        }
        b"hit" => {
            let [place, value] = numbers::<2>(words)?;
            Some(Command::Hit { place, value })
        }
        b"set" => {
            let [whose, cell, to] = numbers::<3>(words)?;
            Some(Command::Ask(Request::Set { whose, cell, to }))
        }
        _ => None,
    }
}

// What a line asks for, whatever bytes it has; nothing, where no word stands on it.
pub fn parse(line: &[u8]) -> Result<Option<Command>, Unreadable>
    ensures value { result ≡ line_of line.now }
    ensures back { ReadsBack line.now result }
{
    let mut words = Words::of(line);
    let Some(keyword) = words.next() else {
        return Ok(None);
    };
    let command = command_of(keyword, words).ok_or(Unreadable)?;
    Ok(Some(command))
}
