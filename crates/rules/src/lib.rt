// The rules of the type pass are definitions: specs/. Of code there are the types, and how many lines are marked.
#![tactic(auto)]

mod table;
mod ty;

pub use table::marked;
pub use ty::{REFUSED, Ty};
