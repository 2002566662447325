// Slots that a wrapping value may not reach: narrow fields, narrow values of maps, and narrow parameters of events.
ghost use Rattle.std.specs.Prelude.{◌&&◌, ◌≡◌, ◌<◌, is_some, suc};
ghost use Rattle.grammar.specs.Grammar.{Expr, Stmt};
ghost use Rattle.sheet.specs.Scratch.{kind_at, name_at, line_count, emit_arg_count, param_count};
ghost use Rattle.rules.specs.Assets.{narrow_set, narrow_stmt, wraps as wraps_of};
ghost use Rattle.rules.specs.Ast.{list};
ghost use Rattle.rules.specs.Standing.{expr_at, exprs_at, Here, model_in, params_at};
ghost use Rattle.refusals.specs.Answers.{Answers};
ghost use Rattle.refusals.specs.Refusal.{done_of};
ghost use Rattle.lookups.specs.Lines.{KindAt};
ghost use Rattle.wrapping.specs.Names.{names_in};
ghost use Rattle.wrapping.specs.Reach.{JudgesStmt, reaches_each, sets_at};
ghost use Rattle.grammar.specs.Kinds as kinds;

use crate::marks::Wrapped;
use grammar::Kind;
use lookups::event_named;
use narrow::{narrow_field, narrow_max, narrow_values};
use refusals::{Refusal, expect};
use sheet::{LoadedSheet, call_arg_count, emit_arg_count, param_count};
use text::is_word;

// Whether the value at line i wraps and its slot is narrow, that is, has a largest number.
fn reaches(wrapped: &Wrapped<'_>, narrow: Option<u64>, i: usize) -> bool
    requires { Here wrapped.now.sheet.lines.now Expr i }
    ensures { result ≡ (is_some narrow && wraps_of (names_in wrapped.now) (expr_at wrapped.now.sheet.bytes.now i)) }
{
    if narrow.is_none() {
        return false;
    }
    wrapped.wraps(i)
}

// The assignment at line i.
fn narrow_assign(wrapped: &Wrapped<'_>, i: usize) -> Result<(), Refusal>
    requires stmt_at { Here wrapped.now.sheet.lines.now Stmt i }
    requires is_assign { kind_at wrapped.now.sheet.lines.now i ≡ kinds.assign }
    ensures { JudgesStmt wrapped.now i result }
{
    let sheet = &wrapped.sheet;
    let target = i + 1;
    if !sheet.is(target, Kind::Id) {
        return Ok(());
    }
    let value = sheet.end(target);
    let narrow = narrow_field(sheet, sheet.name(target));
    expect(
        !reaches(wrapped, narrow, value),
        Refusal::ReachesField { target, value },
    )
}

// Whether line i is a call NAME.set(..) that has a second argument. `is_keyed_call` of `key_kinds` asks for the same shape with other words: what both
// share are three tests of a kind.
fn sets(sheet: &LoadedSheet<'_>, i: usize) -> bool
    requires { i < line_count sheet.now.lines.now }
    ensures { result ≡ sets_at sheet.now.bytes.now sheet.now.lines.now i }
{
    if !sheet.is(i, Kind::Call) {
        return false;
    }
    let callee = i + 1;
    if !sheet.is(callee, Kind::Dot) {
        return false;
    }
    let is_set = is_word(sheet.name(callee), b"set");
    is_set & (sheet.is(callee + 1, Kind::Id) & (1 < call_arg_count(sheet.lines, i)))
}

// The call or other expression at line i, which is a statement.
fn narrow_set(wrapped: &Wrapped<'_>, i: usize) -> Result<(), Refusal>
    requires { Here wrapped.now.sheet.lines.now Expr i }
    ensures { let s = wrapped.now.sheet.bytes.now in Answers (narrow_set (model_in s) (names_in wrapped.now) (expr_at s i)) (done_of s result) }
{
    let sheet = &wrapped.sheet;
    if !sets(sheet, i) {
        return Ok(());
    }
    let map = i + 2;
    let callee = i + 1;
    let key = sheet.end(callee);
    let value = sheet.end(key);
    let narrow = narrow_values(sheet, sheet.name(map));
    expect(
        !reaches(wrapped, narrow, value),
        Refusal::ReachesValues { map, value },
    )
}

// The arguments of the `emit` at line i, side by side with the parameters of the event at line event.
fn narrow_args(wrapped: &Wrapped<'_>, i: usize, event: usize) -> Result<(), Refusal>
    requires stmt_at { Here wrapped.now.sheet.lines.now Stmt i }
    requires is_emit { kind_at wrapped.now.sheet.lines.now i ≡ kinds.emit }
    requires event_at { KindAt kinds.event wrapped.now.sheet.lines.now event }
    ensures { let s = wrapped.now.sheet.bytes.now in Answers (reaches_each (names_in wrapped.now) (name_at s wrapped.now.sheet.lines.now i) (list (exprs_at s (emit_arg_count wrapped.now.sheet.lines.now i) (suc i))) (params_at s (param_count wrapped.now.sheet.lines.now event) (suc event))) (done_of s result) }
{
    let sheet = &wrapped.sheet;
    let args = sheet.records(i + 1, emit_arg_count(sheet.lines, i));
    let params = sheet.records(event + 1, param_count(sheet.lines, event));
    for (arg, param) in args.zip(params) {
        let narrow = narrow_max(sheet.name(param + 1));
        if reaches(wrapped, narrow, arg) {
            return Err(Refusal::ReachesEvent {
                emit: i,
                value: arg,
            });
        }
    }
    Ok(())
}

// The `emit` at line i.
fn narrow_emit(wrapped: &Wrapped<'_>, i: usize) -> Result<(), Refusal>
    requires stmt_at { Here wrapped.now.sheet.lines.now Stmt i }
    requires is_emit { kind_at wrapped.now.sheet.lines.now i ≡ kinds.emit }
    ensures { JudgesStmt wrapped.now i result }
{
    match event_named(&wrapped.sheet, wrapped.sheet.name(i)) {
        Some(event) => narrow_args(wrapped, i, event),
        None => Ok(()),
    }
}

// The statement at line i, behind the bound ones.
pub fn narrow_stmt(wrapped: &Wrapped<'_>, i: usize) -> Result<(), Refusal>
    requires { Here wrapped.now.sheet.lines.now Stmt i }
    ensures { JudgesStmt wrapped.now i result }
{
    let sheet = &wrapped.sheet;
    if sheet.is(i, Kind::Emit) {
        return narrow_emit(wrapped, i);
    }
    if sheet.is(i, Kind::Assign) {
        return narrow_assign(wrapped, i);
    }
    if sheet.is(i, Kind::Do) {
        return narrow_set(wrapped, i + 1);
    }
    Ok(())
}
