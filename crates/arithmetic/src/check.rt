// Sums that may overflow.
ghost use Rattle.grammar.specs.Grammar.{Stmt};
ghost use Rattle.rules.specs.Arithmetic.{check_arithmetic, check_sum};
ghost use Rattle.rules.specs.Check.{param_types};
ghost use Rattle.rules.specs.Standing.{Here, entry_at, stmt_at};
ghost use Rattle.refusals.specs.Answers.{Answers};
ghost use Rattle.lookups.specs.Lines.{KindAt};
ghost use Rattle.refusals.specs.Refusal.{done_of};
ghost use Rattle.grammar.specs.Kinds as kinds;

use crate::limits::limits_bound;
use crate::sums::{adds_unbounded, is_param};
use grammar::Kind;
use lookups::body_line;
use refusals::{Refusal, expect};
use sheet::{LoadedSheet, body_count};

// The statement at line stmt of an entry.
fn check_sum(sheet: &LoadedSheet<'_>, entry: usize, stmt: usize) -> Result<(), Refusal>
    requires entry_at { KindAt kinds.entry sheet.now.lines.now entry }
    requires stmt_at { Here sheet.now.lines.now Stmt stmt }
    ensures { Answers (check_sum (entry_at sheet.now.bytes.now entry) (param_types (entry_at sheet.now.bytes.now entry).params) (stmt_at sheet.now.bytes.now stmt)) (done_of sheet.now.bytes.now result) }
{
    if !sheet.is(stmt, Kind::Assign) {
        return Ok(());
    }
    let target = stmt + 1;
    if !sheet.is(target, Kind::Id) {
        return Ok(());
    }
    if !adds_unbounded(
        sheet,
        entry,
        sheet.assign_op(stmt),
        target,
        sheet.end(target),
    ) {
        return Ok(());
    }
    let x = sheet.name(target);
    if is_param(sheet, entry, x) {
        return Ok(());
    }
    expect(limits_bound(sheet, entry, x), Refusal::Overflow(stmt))
}

// The entry at line i: each sum that its statements add up in a field.
pub fn check_arithmetic(sheet: &LoadedSheet<'_>, i: usize) -> Result<(), Refusal>
    requires { KindAt kinds.entry sheet.now.lines.now i }
    ensures { Answers (check_arithmetic (entry_at sheet.now.bytes.now i) (param_types (entry_at sheet.now.bytes.now i).params)) (done_of sheet.now.bytes.now result) }
{
    sheet
        .records(body_line(sheet.lines, i), body_count(sheet.lines, i))
        .try_for_each(|at| check_sum(sheet, i, at))
}
