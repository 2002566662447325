// `emit` statements, and who receives funds or issues an asset.
#![tactic(auto)]

mod emit;
mod recipient;

pub use emit::check_emit;
pub use recipient::refuse_name_recipient;
