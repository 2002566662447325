// Fields, parameters, clauses, and statements of genesis.
ghost use Rattle.std.specs.Prelude.{suc};
ghost use Rattle.rules.specs.Asking.{if_some};
ghost use Rattle.rules.specs.Check.{check_default, check_entry_param, check_event_param, check_field, check_genesis, clause_predicate};
ghost use Rattle.rules.specs.Standing.{clause_at, field_at, Here, param_at, stmt_at, type_at};
ghost use Rattle.grammar.specs.Grammar.{Param, Ty};
ghost use Rattle.refusals.specs.Answers.{Answers};
ghost use Rattle.refusals.specs.Refusal.{done_of};
ghost use Rattle.env.specs.Force.{env_of};
ghost use Rattle.typing.specs.Asks.{Does, KindIn};
ghost use Rattle.statements.specs.Checked.{StmtIn};
ghost use Rattle.checking.specs.Walk.{ClauseIn, declared_rule};
ghost use Rattle.grammar.specs.Kinds as kinds;

use assets::asset_calls_consumed;
use declarations::{event_field_type, guardian_bound, refuse_word64_as_digest, storable};
use env::Scope;
use grammar::Kind;
use refusals::Refusal;
use sheet::{LoadedSheet, default_count};
use statements::{check_default, check_stmt_types, expect_predicate};

// What a field declares: its type may be stored, and its name tells no digest.
#[tactic(auto, using(crate::proofs::Recording::record_needs), unfolding(crate::specs::Walk::declared_rule, rules::proofs::Binding::and_then, refusals::specs::Refusal::done_of))]
fn field_declared(sheet: &LoadedSheet<'_>, i: usize) -> Result<(), Refusal>
    requires { Here sheet.now.lines.now Ty (suc i) }
    ensures { Answers (declared_rule (param_at sheet.now.bytes.now i).name (type_at sheet.now.bytes.now (suc i))) (done_of sheet.now.bytes.now result) }
{
    storable(sheet, i + 1)?;
    refuse_word64_as_digest(sheet, i)
}

// The default of the field at line i, where it has one.
#[tactic(auto, using(crate::proofs::Recording::record_needs), unfolding(rules::proofs::Binding::and_then, refusals::specs::Refusal::done_of, rules::specs::Asking::if_some, rules::specs::Kept::kept))]
fn field_default(scope: &Scope<'_>, table: &mut [u8], i: usize) -> Result<(), Refusal>
    requires { KindIn kinds.field scope.now.sheet.lines.now table.old i }
    ensures { let s = scope.now.sheet.bytes.now in Does s (if_some (field_at s i).default (check_default (env_of s table.old scope.now.env) (field_at s i))) table.old result table.new }
{
    if default_count(scope.sheet.lines, i) == 0 {
        return Ok(());
    }
    check_default(scope, table, i)
}

#[tactic(auto, using(crate::proofs::Recording::record_needs), unfolding(rules::proofs::Binding::and_then, refusals::specs::Refusal::done_of, rules::specs::Asking::if_some, rules::specs::Kept::kept))]
pub fn check_field(scope: &Scope<'_>, table: &mut [u8], i: usize) -> Result<(), Refusal>
    requires { KindIn kinds.field scope.now.sheet.lines.now table.old i }
    ensures { let s = scope.now.sheet.bytes.now in Does s (check_field (env_of s table.old scope.now.env) (field_at s i)) table.old result table.new }
{
    field_declared(&scope.sheet, i)?;
    field_default(scope, table, i)
}

// A parameter of an event.
#[tactic(auto, using(crate::proofs::Recording::record_needs), unfolding(rules::specs::Check::check_event_param, rules::proofs::Binding::and_then, refusals::specs::Refusal::done_of))]
pub fn check_event_param(sheet: &LoadedSheet<'_>, i: usize) -> Result<(), Refusal>
    requires { Here sheet.now.lines.now Param i }
    ensures { Answers (check_event_param (param_at sheet.now.bytes.now i)) (done_of sheet.now.bytes.now result) }
{
    event_field_type(sheet, i + 1)?;
    refuse_word64_as_digest(sheet, i)
}

// A parameter of an entry.
#[tactic(auto, using(crate::proofs::Recording::record_needs), unfolding(rules::specs::Check::check_entry_param, rules::proofs::Binding::and_then, refusals::specs::Refusal::done_of))]
pub fn check_entry_param(sheet: &LoadedSheet<'_>, i: usize) -> Result<(), Refusal>
    requires { Here sheet.now.lines.now Param i }
    ensures { Answers (check_entry_param (param_at sheet.now.bytes.now i)) (done_of sheet.now.bytes.now result) }
{
    guardian_bound(sheet, i + 1)?;
    refuse_word64_as_digest(sheet, i)
}

// The condition of `limits` and `denies`; other clauses have none.
#[tactic(auto, using(crate::proofs::Recording::record_needs), unfolding(rules::proofs::Binding::and_then, refusals::specs::Refusal::done_of, rules::specs::Asking::if_some, rules::specs::Kept::kept))]
pub fn clause_predicate(scope: &Scope<'_>, table: &mut [u8], i: usize) -> Result<(), Refusal>
    requires { ClauseIn scope.now.sheet.lines.now table.old i }
    ensures { let s = scope.now.sheet.bytes.now in Does s (clause_predicate (env_of s table.old scope.now.env) (clause_at s i)) table.old result table.new }
{
    if scope.sheet.is(i, Kind::Limits) | scope.sheet.is(i, Kind::Denies) {
        return expect_predicate(scope, table, i + 1);
    }
    Ok(())
}

// A statement of genesis: `let`, `guard` and `emit` are not typed there.
#[tactic(auto, using(crate::proofs::Recording::record_needs), unfolding(rules::specs::Check::check_genesis, rules::proofs::Binding::and_then, refusals::specs::Refusal::done_of))]
pub fn check_genesis(scope: &Scope<'_>, table: &mut [u8], i: usize) -> Result<(), Refusal>
    requires { StmtIn scope.now.sheet.lines.now table.old i }
    ensures { let s = scope.now.sheet.bytes.now in Does s (check_genesis (env_of s table.old scope.now.env) (stmt_at s i)) table.old result table.new }
{
    check_stmt_types(scope, table, i)?;
    asset_calls_consumed(&scope.sheet, i)
}
