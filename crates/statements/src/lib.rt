// Types of statements, conditions and defaults.
#![tactic(auto)]

mod assign;
mod check;

pub use check::{check_default, check_stmt_types, expect_predicate};
