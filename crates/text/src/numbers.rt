// The numbers that words spell.
ghost use Rattle.std.specs.Prelude.{◌≡◌};
ghost use Rattle.text.specs.Cut.{words as WordsOf};
ghost use Rattle.text.specs.Reading.{exactly, numbers_of};
ghost use Rattle.text.specs.Spelling.{spelled, with_digit};

use crate::words::Words;

// The value that one more digit makes of a value.
fn with_digit(value: u64, byte: u8) -> Option<u64>
    ensures { result ≡ with_digit value byte }
{
    let digit = char::from(byte).to_digit(10)?;
    value.checked_mul(10)?.checked_add(u64::from(digit))
}

// What a word spells: no sign, at least one digit.
pub fn number(word: &[u8]) -> Option<u64>
    ensures { result ≡ spelled word.now }
{
    if word.is_empty() {
        return None;
    }
    word.iter()
        .try_fold(0, |value, byte| with_digit(value, *byte))
}

// The numbers that words spell, where there are exactly so many.
pub fn numbers<const N: usize>(mut words: Words) -> Option<[u64; N]>
    ensures { result ≡ exactly N (numbers_of (WordsOf words.entry.rest.now)) }
{
    let mut numbers = [0; N];
    for place in &mut numbers {
        *place = number(words.next()?)?;
    }
    words.next().is_none().then_some(numbers)
}
