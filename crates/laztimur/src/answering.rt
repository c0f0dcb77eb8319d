// What a line does to a shelf, and what it answers.
ghost use Rattle.std.specs.Prelude.{◌≡◌, ◌&&◌, length, replicate, is_ok, IfOk, if◌then◌else◌, slice_set};
ghost use Rattle.recovery.specs.Mend.{mended};
ghost use Rattle.dispatch.specs.Asking.{done_of, cells_after as asked_cells};
ghost use Rattle.text.specs.Reading.{line_of};
ghost use Rattle.laztimur.specs.Answering.{is_size, can_hit, renewed, hit_done, refused_for, written_of, told, where_sound, cells_after, answer_of, cells_after_line, answer_to_line};

use block::Shelf;
use dispatch::{Request, carry_out};
use recovery::mend;
use requests::{Book, Done, Refusal};
use shelf::first_unsound;
use std::alloc::AllocError;
use text::{Command, Refused, Unreadable};

#[derive(Clone, Copy, PartialEq, Eq, Debug)]
pub enum Answer {
    Nothing,
    // All cells of the shelf.
    All,
    // All blocks in use along the shelf, which is sound.
    AllInUse,
    // What somebody holds, if they may be shown it.
    Held(u64),
    // No free block is long enough.
    NoRoom,
}

// What is written of a refusal that is about a place.
pub fn refused(why: Refusal, place: u64) -> Refused
    ensures { result ≡ refused_for why place }
{
    Refused {
        number: u64::from(why),
        place,
    }
}

// Nothing is written of what was done, and of what was not, why.
fn done_at(place: u64, done: Result<(), Refusal>) -> Result<Answer, Refused>
    ensures { result ≡ written_of done place }
{
    done.map(|()| Answer::Nothing)
        .map_err(|why| refused(why, place))
}

// A new shelf, mended; the old one stays where none may have so many cells, or so few.
pub fn renew(shelf: &mut Vec<u32>, cells: u64) -> Result<Result<(), Refusal>, AllocError>
    ensures answer { IfOk result (λ done. done ≡ renewed cells) }
    ensures after { shelf.new.items ≡ (if is_ok result && is_size cells then mended (replicate cells 0) else shelf.old.items) }
{
    if cells < Shelf::HEAD as u64 || cells > Shelf::MOST as u64 {
        return Ok(Err(Refusal::Unusable));
    }
    let mut fresh = vec![in *shelf.allocator(); 0; cells as usize]?;
    let _ = mend(&mut fresh);
    *shelf = fresh;
    Ok(Ok(()))
}

// A cell becomes a value, where the place is on the shelf and the value fits a cell.
pub fn hit(shelf: &mut [u32], place: u64, value: u64) -> Result<(), Refusal>
    ensures answer { result ≡ hit_done shelf.old place value }
    ensures after { shelf.new ≡ (if is_ok result then slice_set shelf.old place value else shelf.old) }
{
    if place >= shelf.len() as u64 || value > u64::from(u32::MAX) {
        return Err(Refusal::Unreadable);
    }
    shelf[place as usize] = value as u32;
    Ok(())
}

// Carries out a request in a book that is opened on the shelf.
fn carried(shelf: &mut [u32], request: Request) -> Result<Done, Refusal>
    ensures answer { result ≡ done_of shelf.old request }
    ensures after { shelf.new ≡ asked_cells shelf.old request }
{
    let mut book = Book { cells: shelf };
    carry_out(&mut book, request)
}

// What is written of the answer to a request.
fn ask(shelf: &mut [u32], request: Request) -> Result<Answer, Refused>
    ensures answer { result ≡ told shelf.old request (done_of shelf.old request) }
    ensures after { shelf.new ≡ asked_cells shelf.old request }
{
    match carried(shelf, request) {
        Ok(Done::NoRoom) => Ok(Answer::NoRoom),
        Ok(_) => Ok(Answer::Nothing),
        Err(why) => Err(refused(why, request.refused_at(shelf, why))),
    }
}

// The blocks in use of a sound shelf.
fn all_in_use(shelf: &[u32]) -> Result<Answer, Refused>
    ensures { result ≡ where_sound shelf.now Answer.AllInUse }
{
    match first_unsound(shelf) {
        Some(place) => Err(refused(Refusal::Unusable, place as u64)),
        None => Ok(Answer::AllInUse),
    }
}

// Not closures: what a line asks for is a value, and what it does is told of that value.
fn obey(
    shelf: &mut Vec<u32>,
    line: u64,
    command: Command,
) -> Result<Result<Answer, Refused>, AllocError>
    ensures answer { IfOk result (λ a. a ≡ answer_of shelf.old.items line command) }
    ensures after { shelf.new.items ≡ (if is_ok result then cells_after shelf.old.items command else shelf.old.items) }
{
    let answer = match command {
        Command::Shelf(cells) => done_at(cells, renew(shelf, cells)?),
        Command::Hit { place, value } => done_at(line, hit(shelf, place, value)),
        Command::Ask(request) => ask(shelf, request),
        Command::Show(whose) => Ok(Answer::Held(whose)),
        Command::Cells => Ok(Answer::All),
        Command::List => all_in_use(shelf.as_slice()),
    };
    Ok(answer)
}

// Carries out what a line asks for: an answer, or why it is refused. Only for want of memory there is neither.
pub fn answer_to(
    shelf: &mut Vec<u32>,
    line: u64,
    bytes: &[u8],
) -> Result<Result<Answer, Refused>, AllocError>
    ensures answer { IfOk result (λ a. a ≡ answer_to_line shelf.old.items line (line_of bytes.now)) }
    ensures after { shelf.new.items ≡ (if is_ok result then cells_after_line shelf.old.items (line_of bytes.now) else shelf.old.items) }
{
    match text::parse(bytes) {
        Ok(None) => Ok(Ok(Answer::Nothing)),
        Ok(Some(command)) => obey(shelf, line, command),
        Err(Unreadable) => Ok(Err(refused(Refusal::Unreadable, line))),
    }
}
