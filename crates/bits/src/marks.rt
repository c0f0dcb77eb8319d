// Marks for the places of a shelf, one bit each.
ghost use Rattle.std.specs.Prelude.{◌≡◌, ℕ, ◌<◌, ◌≤◌, false};
ghost use Rattle.bits.specs.Marks.{marked, count, MarksPlace};

use crate::words::{bit_at, set_bit};

// words, of 64 places each
const WORDS: usize = 1563;

// Which of the places 0 to 100,031 are marked: an array of a fixed size, since mending may not allocate.
// What it shares with OwnerFilter are two functions over slices of any length; a type Bits<WORDS> below both would
// only put a step more into every clause that names their words.
#[derive(Drop)]
pub struct Marks {
    words: [u64; WORDS],
}

impl Marks {
    // how many places there are
    pub const PLACES: usize = 64 * WORDS;

    // No marks.
    pub fn new() -> Marks
        ensures none { (place : ℕ) → marked result.words place ≡ false }
        ensures counts { count result.words ≡ 0 }
    {
        Marks { words: [0; WORDS] }
    }

    // Takes all marks away.
    pub fn clear(&mut self)
        ensures none { (place : ℕ) → marked self.new.words place ≡ false }
        ensures counts { count self.new.words ≡ 0 }
    {
        self.words = [0; WORDS];
    }

    // Marks a place; past the last nothing changes.
    pub fn mark(&mut self, place: usize)
        ensures within { place < Self.PLACES → MarksPlace place self.old.words self.new.words }
        ensures past { Self.PLACES ≤ place → self.new.words ≡ self.old.words }
    {
        set_bit(&mut self.words, place);
    }

    // Whether a place is marked.
    pub fn is_marked(&self, place: usize) -> bool
        ensures { result ≡ marked self.now.words place }
    {
        bit_at(&self.words, place)
    }

    // How many places are marked.
    pub fn count(&self) -> usize
        ensures value { result ≡ count self.now.words }
        ensures bound { result ≤ Self.PLACES }
    {
        self.words
            .iter()
            .map(|word| word.count_ones() as usize)
            .sum()
    }
}
