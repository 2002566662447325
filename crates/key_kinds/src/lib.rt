// `check_key_kinds` over loaded lines: one kind of key for each Map or Registry.
#![tactic(auto)]

mod check;
mod keyed;
mod marks;

pub use check::check_key_kinds;
