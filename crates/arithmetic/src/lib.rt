// `check_arithmetic` over loaded lines: sums that may overflow unchecked.
#![tactic(auto)]

mod check;
mod limits;
mod lines;
mod sums;

pub use check::check_arithmetic;
