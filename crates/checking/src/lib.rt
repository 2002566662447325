// `check_entry` and `check`, without `check_underflow`.
#![tactic(auto)]

mod entry;
mod items;
mod records;

pub use entry::check_entry;
pub use items::{before_entries, check};
