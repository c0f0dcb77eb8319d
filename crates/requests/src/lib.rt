// Requests: a block taken, given back, a cell set, and what somebody holds handed back as a part of the shelf.
// Each is a plan, which only reads and decides the refusal, and a run of that plan, which writes.
#![tactic(auto)]

mod book;
mod done;
mod entries;
mod free;
mod laws;
mod planning;
mod plans;
mod refusal;
mod running;

pub use book::Book;
pub use done::Done;
pub use entries::{give_back, set_cell, take_block, view};
pub use free::write_free;
pub use laws::{giving_undoes_taking, refusals_are_numbered};
pub use planning::{admit, is_usable, plan_give, plan_set, plan_take};
pub use plans::{Giving, Setting, Taking};
pub use refusal::{Refusal, UnknownRefusal};
