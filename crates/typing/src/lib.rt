// Typing with kept types: `ty_of` and its branches, and `check_keyed_call`; and the walk over a row's records by a step.
#![tactic(auto)]

mod records;
mod typing;

pub use records::check_records;
pub use typing::{ask_each, check_keyed_call, ty_of};
