// The place that a refusal is about.
ghost use Rattle.std.specs.Prelude.{◌≡◌};
ghost use Rattle.shelf.specs.Walk.{find};
ghost use Rattle.requests.specs.Answers.{number_of};
ghost use Rattle.dispatch.specs.Places.{shelf_place, fault_place, owner_of, large_of, asked_for, refusal_place_of};

use crate::asking::Request;
use block::Shelf;
use requests::Refusal;
use shelf::{find_block, first_unsound};

// Places are numbers, nought where a request has none: so they are defined, for any request and any number.
// Each question matches on the request, which is a value that was read from a line.
impl Request {
    // Whose request it is.
    fn owner(self) -> u64
        ensures { result ≡ owner_of self }
    {
        match self {
            Request::Take { whose, .. } | Request::Give { whose } | Request::Set { whose, .. } =>
                whose,
            Request::Mend => 0,
        }
    }

    // The number of it that is too large, the owner first.
    fn large(self) -> u64
        ensures { result ≡ large_of self }
    {
        match self {
            Request::Set { whose, to, .. } if whose < Shelf::LIMIT as u64 => to,
            _ => self.owner(),
        }
    }

    // What is wrong with the shelf; mending asks only for a length.
    fn fault(self, shelf: &[u32]) -> u64
        ensures { result ≡ fault_place shelf.now self }
    {
        match self {
            Request::Mend => shelf.len() as u64,
            _ => fault_of(shelf),
        }
    }

    // The length or the cell that is asked for.
    fn asked(self) -> u64
        ensures { result ≡ asked_for self }
    {
        match self {
            Request::Take { long, .. } => long,
            Request::Set { cell, .. } => cell,
            Request::Give { .. } | Request::Mend => 0,
        }
    }

    // The place that a refusal of it is about.
    pub fn refused_at(self, shelf: &[u32], refusal: Refusal) -> u64
        ensures { result ≡ refusal_place_of shelf.now self (number_of refusal) }
    {
        match refusal {
            Refusal::Unusable => self.fault(shelf),
            Refusal::TooLarge => self.large(),
            Refusal::HoldsOne => block_of(shelf, self.owner()),
            Refusal::OutOfRange => self.asked(),
            Refusal::HoldsNone | Refusal::Unreadable => self.owner(),
        }
    }
}

// Why a shelf can't be used: its length, or the first place at fault.
pub fn fault_of(shelf: &[u32]) -> u64
    ensures { result ≡ shelf_place shelf.now }
{
    if shelf.len() > Shelf::MOST {
        return shelf.len() as u64;
    }
    first_unsound(shelf).map_or(0, |place| place as u64)
}

// Where somebody's block stands, or the shelf's end.
fn block_of(shelf: &[u32], owner: u64) -> u64
    ensures { result ≡ find shelf.now owner }
{
    find_block(shelf, owner).unwrap_or(shelf.len()) as u64
}

// The place that a refusal by a number is about; where no refusal has the number, whose request it is.
// It stays beside `refused_at` for whoever has a number: any number may be asked for.
pub fn refusal_place(shelf: &[u32], request: Request, number: u64) -> u64
    ensures { result ≡ refusal_place_of shelf.now request number }
{
    if number == 0 {
        return 0;
    }
    let refusal = Refusal::try_from(number).unwrap_or(Refusal::Unreadable);
    request.refused_at(shelf, refusal)
}
