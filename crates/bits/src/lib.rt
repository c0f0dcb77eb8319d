// Bits of words: marks by place, which are counted, and a filter that tells at once that an owner was never added.
// Both stand on the stack in arrays of a fixed size, so nothing here allocates.
#![tactic(auto)]

mod marks;
mod owners;
mod words;

pub use marks::Marks;
pub use owners::OwnerFilter;
