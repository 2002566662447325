// `check_entry`.
ghost use Rattle.std.specs.Prelude.{◌≡◌};
ghost use Rattle.rules.specs.Asking.{for_each};
ghost use Rattle.rules.specs.Check.{check_body, check_entry, clause_predicate};
ghost use Rattle.rules.specs.Standing.{entry_at, Here, model_in, stmts_at};
ghost use Rattle.grammar.specs.Grammar.{Stmt};
ghost use Rattle.sheet.specs.Scratch.{kind_at};
ghost use Rattle.statements.specs.Checked.{StmtOf};
ghost use Rattle.refusals.specs.Answers.{Answers};
ghost use Rattle.lookups.specs.Lines.{KindAt};
ghost use Rattle.refusals.specs.Refusal.{done_of};
ghost use Rattle.env.specs.Force.{env_of};
ghost use Rattle.typing.specs.Asks.{Does, KindIn};
ghost use Rattle.checking.specs.Walk.{BodyAt, BodyStmt, entry_env, EntryIn, EntryScope, RoomTyped, StmtDoes, types_rule, uses_rule};
ghost use Rattle.grammar.specs.Kinds as kinds;

use crate::records::clause_predicate;
use arithmetic::check_arithmetic;
use assets::{body_assets, clauses_assets};
use emits::{check_emit, refuse_name_recipient};
use env::Scope;
use grammar::Kind;
use lookups::{body_line, clauses_line};
use refusals::{Refusal, expect};
use rules::Ty;
use sheet::{LoadedSheet, body_count, clause_count, param_count};
use statements::{check_stmt_types, expect_predicate};
use typing::{check_records, ty_of};
use wrapping::narrow_wrapping;

// The `let` at line i, before it is bound.
#[tactic(auto, using(crate::proofs::Bodies::stmt_needs), unfolding(rules::proofs::Binding::and_then, refusals::specs::Refusal::done_of, env::specs::Answers::typed_of))]
fn check_let(scope: &Scope<'_>, table: &mut [u8], i: usize) -> Result<(), Refusal>
    requires let_at { StmtOf kinds.let' scope.now.sheet.lines.now table.old i }
    requires is_next { scope.now.env.next ≡ i }
    ensures { StmtDoes scope.now.sheet.bytes.now scope.now.sheet.lines.now (env_of scope.now.sheet.bytes.now table.old scope.now.env) i table.old result table.new }
{
    let ty = ty_of(scope, table, i + 1)?;
    expect(ty != Ty::Collection, Refusal::CollectionLocal(i + 1))
}

#[tactic(auto, using(crate::proofs::Bodies::stmt_needs), unfolding(rules::proofs::Binding::and_then, refusals::specs::Refusal::done_of, env::specs::Answers::typed_of))]
fn check_do(scope: &Scope<'_>, table: &mut [u8], i: usize) -> Result<(), Refusal>
    requires typed { RoomTyped scope.now.sheet.bytes.now scope.now.sheet.lines.now scope.now.env table.old }
    requires stmt_at { Here scope.now.sheet.lines.now Stmt i }
    requires is_do { kind_at scope.now.sheet.lines.now i ≡ kinds.do' }
    ensures { StmtDoes scope.now.sheet.bytes.now scope.now.sheet.lines.now (env_of scope.now.sheet.bytes.now table.old scope.now.env) i table.old result table.new }
{
    check_stmt_types(scope, table, i)?;
    refuse_name_recipient(scope, table, i + 1)
}

// The statement at line i of an entry.
#[tactic(auto, using(crate::proofs::Bodies::stmt_needs), unfolding(rules::proofs::Binding::and_then, refusals::specs::Refusal::done_of, env::specs::Answers::typed_of))]
fn check_stmt(scope: &Scope<'_>, table: &mut [u8], i: usize) -> Result<(), Refusal>
    requires { BodyStmt scope.now.sheet.bytes.now scope.now.sheet.lines.now scope.now.env table.old i }
    ensures { StmtDoes scope.now.sheet.bytes.now scope.now.sheet.lines.now (env_of scope.now.sheet.bytes.now table.old scope.now.env) i table.old result table.new }
{
    if scope.sheet.is(i, Kind::Guard) {
        return expect_predicate(scope, table, i + 1);
    }
    if scope.sheet.is(i, Kind::Let) {
        return check_let(scope, table, i);
    }
    if scope.sheet.is(i, Kind::Emit) {
        return check_emit(scope, table, i);
    }
    if scope.sheet.is(i, Kind::Assign) {
        return check_stmt_types(scope, table, i);
    }
    check_do(scope, table, i)
}

// `left` statements, the first of them directly behind those that are bound. By a count, since the scope itself tells the next line.
fn check_body(scope: &Scope<'_>, table: &mut [u8], left: usize) -> Result<(), Refusal>
    requires { BodyAt scope.now.sheet.bytes.now scope.now.sheet.lines.now scope.now.env table.old left }
    ensures { let s = scope.now.sheet.bytes.now in Does s (check_body (env_of s table.old scope.now.env) (stmts_at s left scope.now.env.next)) table.old result table.new }
{
    let mut bound = *scope;
    for _ in 0..left {
        check_stmt(&bound, table, bound.env.next)?;
        bound = bound.bind_next();
    }
    Ok(())
}

// The conditions of the entry's clauses.
fn entry_clauses(scope: &Scope<'_>, table: &mut [u8], i: usize) -> Result<(), Refusal>
    requires { EntryScope scope.now.sheet.lines.now scope.now.env table.old i }
    ensures { let s = scope.now.sheet.bytes.now in Does s (for_each (entry_at s i).clauses (clause_predicate (entry_env (model_in s) (entry_at s i)))) table.old result table.new }
{
    let lines = scope.sheet.lines;
    check_records(
        &scope.sheet,
        table,
        clauses_line(lines, i),
        clause_count(lines, i),
        |table, clause| clause_predicate(scope, table, clause),
    )
}

// The entry's statements.
#[tactic(auto, using(crate::proofs::Entries::body_needs))]
fn entry_body(scope: &Scope<'_>, table: &mut [u8], i: usize) -> Result<(), Refusal>
    requires { EntryScope scope.now.sheet.lines.now scope.now.env table.old i }
    ensures { let s = scope.now.sheet.bytes.now in Does s (check_body (entry_env (model_in s) (entry_at s i)) (entry_at s i).body) table.old result table.new }
{
    let lines = scope.sheet.lines;
    let before = scope.before(body_line(lines, i));
    check_body(&before, table, body_count(lines, i))
}

// What is typed of the entry at line i.
#[tactic(auto, using(crate::proofs::Entries::entry_needs), unfolding(crate::specs::Walk::types_rule, rules::proofs::Binding::and_then, refusals::specs::Refusal::done_of))]
fn entry_types(sheet: &LoadedSheet<'_>, table: &mut [u8], i: usize) -> Result<(), Refusal>
    requires { KindIn kinds.entry sheet.now.lines.now table.old i }
    ensures { Does sheet.now.bytes.now (types_rule (model_in sheet.now.bytes.now) (entry_at sheet.now.bytes.now i)) table.old result table.new }
{
    let scope = Scope::new(sheet, i + 1, param_count(sheet.lines, i));
    entry_clauses(&scope, table, i)?;
    entry_body(&scope, table, i)
}

// What is checked of it without types.
#[tactic(auto, using(crate::proofs::Entries::entry_needs), unfolding(crate::specs::Walk::uses_rule, rules::proofs::Binding::and_then, refusals::specs::Refusal::done_of))]
fn entry_uses(sheet: &LoadedSheet<'_>, i: usize) -> Result<(), Refusal>
    requires { KindAt kinds.entry sheet.now.lines.now i }
    ensures { Answers (uses_rule (entry_at sheet.now.bytes.now i)) (done_of sheet.now.bytes.now result) }
{
    clauses_assets(
        sheet,
        clauses_line(sheet.lines, i),
        clause_count(sheet.lines, i),
    )?;
    body_assets(sheet, body_line(sheet.lines, i), body_count(sheet.lines, i))?;
    check_arithmetic(sheet, i)
}

// The entry at line i.
#[tactic(auto, using(crate::proofs::Steps::kept_then), unfolding(rules::specs::Check::check_entry, crate::specs::Walk::types_rule, crate::specs::Walk::uses_rule, crate::specs::Walk::entry_env, rules::proofs::Binding::and_then, refusals::specs::Refusal::done_of))]
pub fn check_entry(sheet: &LoadedSheet<'_>, table: &mut [u8], i: usize) -> Result<(), Refusal>
    requires { EntryIn sheet.now.lines.now table.old i }
    ensures { Does sheet.now.bytes.now (check_entry (model_in sheet.now.bytes.now) (entry_at sheet.now.bytes.now i)) table.old result table.new }
{
    narrow_wrapping(sheet, i)?;
    entry_types(sheet, table, i)?;
    entry_uses(sheet, i)
}
