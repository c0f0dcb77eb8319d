// Going along a shelf: whether it is sound, where it is at fault, who holds what, and where there is room.
// A sound shelf is blocks and dead cells one behind the other up to its end, tidy, and nobody has two.
#![tactic(auto)]

mod cells;
mod laws;
mod lookup;
mod scan;
mod soundness;
mod spot;
mod walk;

pub use cells::{is_idle, next_place};
pub use laws::{
    faults_are_unsound, heads_are_places, nobody_has_two, sound_by_pieces, sound_shares_no_cell,
    three_dead_unsound,
};
pub use lookup::{find_block, find_room};
pub use scan::has_cell;
pub use soundness::{first_unsound, is_sound};
pub use walk::{Item, Walk};
