// `narrow_wrapping` over loaded lines: wrapping values that reach narrow slots.
#![tactic(auto)]

mod entry;
mod marks;
mod reach;

pub use entry::narrow_wrapping;
