// Statements and clauses, in which an asset may be made only where it is consumed.
ghost use Rattle.grammar.specs.Grammar.{Clause, Expr, Stmt};
ghost use Rattle.rules.specs.Asking.{for_each};
ghost use Rattle.rules.specs.Assets.{asset_calls_consumed, consumed_asset_call};
ghost use Rattle.rules.specs.Ast.{do', list};
ghost use Rattle.rules.specs.Check.{clause_assets};
ghost use Rattle.rules.specs.Standing.{Here, Row, clause_at, clauses_at, expr_at, exprs_at, stmt_at, stmts_at};
ghost use Rattle.refusals.specs.Answers.{Answers};
ghost use Rattle.refusals.specs.Refusal.{done_of};

use crate::made::{no_asset_call, no_asset_calls};
use grammar::Kind;
use refusals::Refusal;
use sheet::{LoadedSheet, call_arg_count, emit_arg_count, from_count, target_count};

// The expression at line i is bound or passed: it may itself make an asset.
fn consumed_asset_call(sheet: &LoadedSheet<'_>, i: usize) -> Result<(), Refusal>
    requires { Here sheet.now.lines.now Expr i }
    ensures { Answers (consumed_asset_call (expr_at sheet.now.bytes.now i)) (done_of sheet.now.bytes.now result) }
{
    if !sheet.is(i, Kind::Call) {
        return no_asset_call(sheet, i);
    }
    no_asset_call(sheet, i + 1)?;
    no_asset_calls(sheet, sheet.end(i + 1), call_arg_count(sheet.lines, i))
}

// Each of count expressions, the first at line from.
fn consumed_asset_calls(sheet: &LoadedSheet<'_>, from: usize, count: usize) -> Result<(), Refusal>
    requires { Row sheet.now.lines.now Expr count from }
    ensures { Answers (for_each (list (exprs_at sheet.now.bytes.now count from)) consumed_asset_call) (done_of sheet.now.bytes.now result) }
{
    sheet
        .records(from, count)
        .try_for_each(|at| consumed_asset_call(sheet, at))
}

// The expression at line i is a statement.
fn do_consumed(sheet: &LoadedSheet<'_>, i: usize) -> Result<(), Refusal>
    requires { Here sheet.now.lines.now Expr i }
    ensures { Answers (asset_calls_consumed (do' (expr_at sheet.now.bytes.now i))) (done_of sheet.now.bytes.now result) }
{
    if !sheet.is(i, Kind::Call) {
        return no_asset_call(sheet, i);
    }
    no_asset_call(sheet, i + 1)?;
    consumed_asset_calls(sheet, sheet.end(i + 1), call_arg_count(sheet.lines, i))
}

pub fn asset_calls_consumed(sheet: &LoadedSheet<'_>, i: usize) -> Result<(), Refusal>
    requires { Here sheet.now.lines.now Stmt i }
    ensures { Answers (asset_calls_consumed (stmt_at sheet.now.bytes.now i)) (done_of sheet.now.bytes.now result) }
{
    if sheet.is(i, Kind::Let) {
        return consumed_asset_call(sheet, i + 1);
    }
    if sheet.is(i, Kind::Emit) {
        return no_asset_calls(sheet, i + 1, emit_arg_count(sheet.lines, i));
    }
    if sheet.is(i, Kind::Assign) {
        return no_asset_calls(sheet, i + 1, 2);
    }
    if sheet.is(i, Kind::Do) {
        return do_consumed(sheet, i + 1);
    }
    no_asset_call(sheet, i + 1)
}

// An `after` has at most a target and a `from`.
fn clause_assets(sheet: &LoadedSheet<'_>, i: usize) -> Result<(), Refusal>
    requires { Here sheet.now.lines.now Clause i }
    ensures { Answers (clause_assets (clause_at sheet.now.bytes.now i)) (done_of sheet.now.bytes.now result) }
{
    if sheet.is(i, Kind::Limits) | sheet.is(i, Kind::Denies) {
        return no_asset_call(sheet, i + 1);
    }
    if sheet.is(i, Kind::After) {
        return no_asset_calls(
            sheet,
            i + 1,
            target_count(sheet.lines, i) + from_count(sheet.lines, i),
        );
    }
    Ok(())
}

pub fn clauses_assets(sheet: &LoadedSheet<'_>, from: usize, count: usize) -> Result<(), Refusal>
    requires { Row sheet.now.lines.now Clause count from }
    ensures { Answers (for_each (clauses_at sheet.now.bytes.now count from) clause_assets) (done_of sheet.now.bytes.now result) }
{
    sheet
        .records(from, count)
        .try_for_each(|at| clause_assets(sheet, at))
}

pub fn body_assets(sheet: &LoadedSheet<'_>, from: usize, count: usize) -> Result<(), Refusal>
    requires { Row sheet.now.lines.now Stmt count from }
    ensures { Answers (for_each (stmts_at sheet.now.bytes.now count from) asset_calls_consumed) (done_of sheet.now.bytes.now result) }
{
    sheet
        .records(from, count)
        .try_for_each(|at| asset_calls_consumed(sheet, at))
}
