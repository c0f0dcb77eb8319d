// A bit of a row of words by its place, read and set.
ghost use Rattle.std.specs.Prelude.{◌≡◌, ◌*◌, ◌<◌, ◌≤◌, length};
ghost use Rattle.bits.specs.Marks.{marked, MarksPlace};

// Whether a place is marked; past the last word none is.
pub fn bit_at(words: &[u64], place: usize) -> bool
    ensures { result ≡ marked words.now place }
{
    words
        .get(place / 64)
        .is_some_and(|word| word >> (place % 64) & 1 == 1)
}

// Marks a place; past the last word nothing changes.
pub fn set_bit(words: &mut [u64], place: usize)
    ensures within { place < 64 * length words.old → MarksPlace place words.old words.new }
    ensures past { 64 * length words.old ≤ place → words.new ≡ words.old }
{
    // Not get_mut(): its contract says nothing of what the slice holds afterwards.
    let word = place / 64;
    if word < words.len() {
        words[word] |= 1 << (place % 64);
    }
}
