// A filter of owners: it says at once of nearly everyone who was not added that they weren't.
// Each owner has four bits, chosen by a hash. Of 33,333 owners about 20 are taken for one that was added.
ghost use Rattle.std.specs.Prelude.{◌≡◌, ℕ, ◌*◌, ◌<◌, false};
ghost use Rattle.bits.specs.Filter.{hash, slot, may_have, Adds};

use crate::words::{bit_at, set_bit};

// words, of 64 bits each
const WORDS: usize = 8192;

// Who may have been added: an array of a fixed size, since requests and mending may not allocate.
#[derive(Drop)]
pub struct OwnerFilter {
    words: [u64; WORDS],
}

// bits for each owner
const PROBES: u64 = 4;

// the factor of the square's root
const ROOT: u64 = 0x9e37_79b9_7f4a_7c15;

// the factor of the owner and of the first bit
const FACTOR: u64 = 0x94d0_49bb_1331_11eb;

// what is added to the factor for each next bit
const STEP: u64 = 0xbf58_476d_1ce4_e5b9;

// A hash of an owner. A product alone would send owners at equal steps to bits at equal steps; the square breaks that.
fn hash_of(owner: u32) -> u64
    ensures { result ≡ hash owner }
{
    let wide = owner as u64;
    let root = wide.wrapping_mul(ROOT) >> 32;
    root.wrapping_mul(root)
        .wrapping_add(wide.wrapping_mul(FACTOR))
}

// The place of an owner's k-th bit: the upper 19 bits of a product.
fn slot_of(owner: u32, k: u64) -> usize
    ensures value { result ≡ slot owner k }
    ensures bound { result < 64 * WORDS }
{
    let factor = FACTOR.wrapping_add(k.wrapping_mul(STEP));
    (hash_of(owner).wrapping_mul(factor) >> 45) as usize
}

impl OwnerFilter {
    // Nobody was added.
    pub fn new() -> OwnerFilter
        ensures { (owner : ℕ) → may_have result.words owner ≡ false }
    {
        OwnerFilter { words: [0; WORDS] }
    }

    // Adds an owner.
    pub fn add(&mut self, owner: u32)
        ensures { Adds owner self.old.words self.new.words }
    {
        for k in 0..PROBES {
            set_bit(&mut self.words, slot_of(owner, k));
        }
    }

    // Whether an owner may have been added: of one who was, always true.
    pub fn may_have(&self, owner: u32) -> bool
        ensures { result ≡ may_have self.now.words owner }
    {
        (0..PROBES).all(|k| bit_at(&self.words, slot_of(owner, k)))
    }
}
