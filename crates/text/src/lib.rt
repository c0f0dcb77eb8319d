// Lines of text: what a line asks for, and what is written in answer.
#![tactic(auto)]

mod answers;
mod commands;
mod numbers;
mod words;

pub use answers::{Listed, Refused, Spaced};
pub use commands::{Command, Unreadable, parse};
