// The sheet reader: from the bytes of a sheet to loaded lines, or a refusal from 1 to 11.
#![tactic(auto)]

pub mod limits;
mod line;
mod lines;
mod loaded_sheet;
mod loader;
mod open;
mod records;
mod refusal;
mod scan;
mod scratch;

pub use lines::{
    body_count, call_arg_count, clause_count, default_count, emit_arg_count, end, field_count,
    from_count, genesis_count, is_kind, item_count, kind, name, nspan, op, param_count, span,
    target_count, type_arg_count, word,
};
pub use loaded_sheet::LoadedSheet;
pub use loader::load;
pub use records::Records;
pub use refusal::Refused;
pub use scratch::{CELLS_PER_LINE, line_count, skip};
