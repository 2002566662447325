// Narrow slots, bool, u8, u16 and u32: their largest numbers, and literals above them.
#![tactic(auto)]

mod literal;
mod slot;

pub use literal::exceeds;
pub use slot::{narrow_field, narrow_max, narrow_values};
