// A request as a value, and the one call that carries it out.
ghost use Rattle.std.specs.Prelude.{◌≡◌, true};
ghost use Rattle.requests.specs.Answers.{number};
ghost use Rattle.requests.specs.Entry.{usable};
ghost use Rattle.dispatch.specs.Asking.{done_of, cells_after, refusal_of, Says};
ghost use Rattle.dispatch.specs.Ledger.{Follows, WholeRuns};

use recovery::mend;
use requests::{Book, Done, Refusal};

// What can be asked of a shelf.
#[derive(Clone, Copy, PartialEq, Eq, Debug)]
pub enum Request {
    Take { whose: u64, long: u64 },
    Give { whose: u64 },
    Set { whose: u64, cell: u64, to: u64 },
    Mend,
}

// The entry that a request goes to; apart from `carry_out`, so that one proof says what follows of all four.
// Not closures: a request is read from a line and compared before it is carried out.
fn ask_entry(book: &mut Book, request: Request) -> Result<Done, Refusal>
    ensures answer { result ≡ done_of book.old.cells.now request }
    ensures cells { book.new.cells.now ≡ cells_after book.old.cells.now request }
    ensures refusal { number result ≡ refusal_of book.old.cells.now request }
    ensures says { Says book.old.cells.now request result book.new.cells.now }
    ensures lender { book.new.cells.ghost_name ≡ book.old.cells.ghost_name }
{
    match request {
        Request::Take { whose, long } => book.take(whose, long),
        Request::Give { whose } => book.give(whose),
        Request::Set { whose, cell, to } => book.set(whose, cell, to),
        Request::Mend => mend(book.cells),
    }
}

// Carries out a request on the shelf of a book. What everybody holds afterwards is what a plain list of who
// holds what says, and it is refused just where the list says so.
pub fn carry_out(book: &mut Book, request: Request) -> Result<Done, Refusal>
    ensures answer { result ≡ done_of book.old.cells.now request }
    ensures cells { book.new.cells.now ≡ cells_after book.old.cells.now request }
    ensures refusal { number result ≡ refusal_of book.old.cells.now request }
    ensures says { Says book.old.cells.now request result book.new.cells.now }
    ensures follows { usable book.old.cells.now ≡ true → Follows book.old.cells.now request result book.new.cells.now }
    ensures lender { book.new.cells.ghost_name ≡ book.old.cells.ghost_name }
{
    ask_entry(book, request)
}

// Whatever is asked, one after the other, the shelf can still be used, everybody holds what the list says,
// and each refusal is the list's.
pub fn whole_runs_follow()
    ensures { WholeRuns }
{}
