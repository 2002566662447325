// Declared types and lookups by name, over loaded lines.
#![tactic(auto)]

mod event;
mod lines;
mod model;
mod ty;

pub use event::event_named;
pub use lines::{body_line, clauses_line};
pub use model::{field_named, fields_named, has_param, is_named, last_named};
pub use ty::{
    compatible, declared_arg, is_keyed, is_zero_literal, numeric, one_word, ty_of_decl, zero_digit,
};
