// What is found on a shelf after damage, whatever its cells became: the first block in use of each owner.
// Blocks that stand never overlap, so every block of which no cell was hit is found, unless damage made another
// of the same owner before it, and what is found and was not there has a damaged cell. Mending leaves a sound
// shelf with just what is found, each block where it stood.
#![tactic(auto)]

mod find;
mod hits;
mod laws;
mod mending;

pub use find::find_all;
pub use hits::{limit_is_prime, one_hit_seen};
pub use laws::{
    adds_only_damaged, can_be_mended, found_blocks_apart, found_is_first, nothing_new, saves_all,
    saves_used, used_is_found, used_or_damaged,
};
pub use mending::mend;
