// What is in force where a type is asked, and the judging of types. Nothing here asks a type.
#![tactic(auto)]

mod call;
mod env;
mod judge;
mod later;

pub use call::{expect_keyed_op, moves_amount, ty_of_call, ty_of_dot, wants};
pub use env::{Env, Scope};
pub use judge::{Sides, judge_amount, judge_binary, judge_unary};
