// The records of a sheet: their words, fields and parts.
#![tactic(auto)]

mod field_rules;
mod kinds;
mod ops;
mod sorts;
mod tables;
mod tells;
mod words;

pub use field_rules::Rule;
pub use kinds::{Kind, kind_for};
pub use ops::{AssignOp, BinOp, UnaryOp};
pub use sorts::Sort;
pub use tables::{always, fields, part_sort, rule, starts_with_span};
pub use tells::Tells;
pub use words::place_of_bin;
