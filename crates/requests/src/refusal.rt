// Why something is turned away, by the numbers of one list.
ghost use Rattle.std.specs.Prelude.{◌≡◌};
ghost use Rattle.requests.specs.Answers.{number_of, Numbers};

#[derive(Clone, Copy, PartialEq, Eq, Debug)]
pub enum Refusal {
    // 1: the shelf isn't sound, or its length is wrong.
    Unusable,
    // 2: an owner or a cell's new number is past the limit.
    TooLarge,
    // 3: a block is held already.
    HoldsOne,
    // 4: no row is so long, or the row has no such cell.
    OutOfRange,
    // 5: no block is held.
    HoldsNone,
    // 6: a line that can't be read, or a hit that can't be made; no request answers it.
    Unreadable,
}

// A number that is no refusal's.
#[derive(Clone, Copy, PartialEq, Eq, Debug)]
pub struct UnknownRefusal(pub u64);

impl From<Refusal> for u64 {
    ghost from_gives = { λ refusal number. number ≡ number_of refusal };

    fn from(refusal: Refusal) -> u64 {
        match refusal {
            Refusal::Unusable => 1,
            Refusal::TooLarge => 2,
            Refusal::HoldsOne => 3,
            Refusal::OutOfRange => 4,
            Refusal::HoldsNone => 5,
            Refusal::Unreadable => 6,
        }
    }
}

impl TryFrom<u64> for Refusal {
    type Error = UnknownRefusal;

    ghost try_from_gives = { Numbers };

    fn try_from(number: u64) -> Result<Refusal, UnknownRefusal> {
        match number {
            1 => Ok(Refusal::Unusable),
            2 => Ok(Refusal::TooLarge),
            3 => Ok(Refusal::HoldsOne),
            4 => Ok(Refusal::OutOfRange),
            5 => Ok(Refusal::HoldsNone),
            6 => Ok(Refusal::Unreadable),
            _ => Err(UnknownRefusal(number)),
        }
    }
}
