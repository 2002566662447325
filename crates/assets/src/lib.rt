// `asset_calls_consumed` over loaded lines: no asset that is made is dropped.
#![tactic(auto)]

mod consumed;
mod made;

pub use consumed::{asset_calls_consumed, body_assets, clauses_assets};
