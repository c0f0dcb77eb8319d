// One call for any request, the place that a refusal is about, and what somebody is shown.
#![tactic(auto)]

mod asking;
mod places;
mod showing;

pub use asking::{Request, carry_out, whole_runs_follow};
pub use places::refusal_place;
pub use showing::show;
