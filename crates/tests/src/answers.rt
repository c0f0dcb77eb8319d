// What requests and mending answer, for the tests of all layers.
use requests::{Done, Refusal};

pub type Answer = Result<Done, Refusal>;

pub const TAKEN: Answer = Ok(Done::Taken);

pub const NO_ROOM: Answer = Ok(Done::NoRoom);

pub const GIVEN: Answer = Ok(Done::Given);

pub const SET: Answer = Ok(Done::Set);

pub const SAVED: Answer = Ok(Done::Saved);

// The number by which a request was refused, nought where it was not: the list is one of numbers.
pub fn refusal(answer: Answer) -> u64 {
    answer.err().map_or(0, u64::from)
}
