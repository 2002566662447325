// The terms of a sum, and which of them are bounded. Here and in limits.rt the entry's line stands beside the sheet: in a struct of both, each promise
// would say `entry.now.sheet.bytes.now` and `entry.now.line` for two short names.
ghost use Rattle.std.specs.Prelude.{◌&&◌, not, ◌≡◌, is_some};
ghost use Rattle.grammar.specs.Grammar.{Expr};
ghost use Rattle.rules.specs.Arithmetic.{any, asset_params, is_mints, same_target, sum_terms, without};
ghost use Rattle.rules.specs.Arithmetic.{bounded as bounded_of};
ghost use Rattle.rules.specs.Standing.{Here, entry_at, expr_at};
ghost use Rattle.rules.specs.Text.{among};
ghost use Rattle.lookups.specs.Lines.{KindAt};
ghost use Rattle.arithmetic.specs.Tests.{adds_unbounded, amount_bounded, names, others};
ghost use Rattle.rules.specs.Operators.{assign_meant};
ghost use Rattle.grammar.specs.Kinds as kinds;

use crate::lines::{acknowledged, any_term, is_op};
use grammar::{AssignOp, BinOp, Kind};
use lookups::{clauses_line, has_param, last_named};
use sheet::{LoadedSheet, clause_count, param_count};
use text::is_word;

// Whether an entry has a parameter of the name x. By the search that tells a parameter's type, whose law is there.
pub fn is_param(sheet: &LoadedSheet<'_>, entry: usize, x: &[u8]) -> bool
    requires { KindAt kinds.entry sheet.now.lines.now entry }
    ensures { result ≡ among x.now (names (entry_at sheet.now.bytes.now entry).params) }
{
    last_named(
        sheet,
        Kind::Param,
        x,
        entry + 1,
        param_count(sheet.lines, entry),
    )
    .is_some()
}

// Whether an entry has a Q_Asset parameter of the name x.
fn is_asset_param(sheet: &LoadedSheet<'_>, entry: usize, x: &[u8]) -> bool
    requires { KindAt kinds.entry sheet.now.lines.now entry }
    ensures { result ≡ among x.now (asset_params (entry_at sheet.now.bytes.now entry).params) }
{
    has_param(sheet, entry, x, b"Q_Asset")
}

// Whether an entry has a `mints` clause.
fn has_mints(sheet: &LoadedSheet<'_>, entry: usize) -> bool
    requires { KindAt kinds.entry sheet.now.lines.now entry }
    ensures { result ≡ any is_mints (entry_at sheet.now.bytes.now entry).clauses }
{
    let first = clauses_line(sheet.lines, entry);
    sheet
        .records(first, clause_count(sheet.lines, entry))
        .any(|at| sheet.is(at, Kind::Mints))
}

// Whether `x.amount` is bounded in an entry.
fn amount_bounded(sheet: &LoadedSheet<'_>, entry: usize, x: &[u8]) -> bool
    requires { KindAt kinds.entry sheet.now.lines.now entry }
    ensures { result ≡ amount_bounded (entry_at sheet.now.bytes.now entry) x.now }
{
    if is_asset_param(sheet, entry, x) {
        return true;
    }
    if !is_param(sheet, entry, x) {
        return false;
    }
    has_mints(sheet, entry)
}

// Whether the term at line i is bounded in an entry.
fn bounded(sheet: &LoadedSheet<'_>, entry: usize, i: usize) -> bool
    requires entry_at { KindAt kinds.entry sheet.now.lines.now entry }
    requires expr_at { Here sheet.now.lines.now Expr i }
    ensures { result ≡ bounded_of (entry_at sheet.now.bytes.now entry) (expr_at sheet.now.bytes.now i) }
{
    if sheet.is(i, Kind::Int) {
        return true;
    }
    if !sheet.is(i, Kind::Dot) {
        return false;
    }
    if !is_word(sheet.name(i), b"amount") {
        return false;
    }
    if !sheet.is(i + 1, Kind::Id) {
        return false;
    }
    amount_bounded(sheet, entry, sheet.name(i + 1))
}

// Whether the lines a and b are the same bare name.
fn same_target(sheet: &LoadedSheet<'_>, a: usize, b: usize) -> bool
    requires left_at { Here sheet.now.lines.now Expr a }
    requires right_at { Here sheet.now.lines.now Expr b }
    ensures { result ≡ same_target (expr_at sheet.now.bytes.now a) (expr_at sheet.now.bytes.now b) }
{
    if !sheet.is(a, Kind::Id) {
        return false;
    }
    if !sheet.is(b, Kind::Id) {
        return false;
    }
    is_word(sheet.name(a), sheet.name(b))
}

// Whether the target is a term of the sum at line value.
fn has_target(sheet: &LoadedSheet<'_>, target: usize, value: usize) -> bool
    requires target_at { Here sheet.now.lines.now Expr target }
    requires value_at { Here sheet.now.lines.now Expr value }
    ensures { result ≡ is_some (without (expr_at sheet.now.bytes.now target) (sum_terms (expr_at sheet.now.bytes.now value))) }
{
    any_term(sheet, BinOp::Add, value, |at| {
        same_target(sheet, target, at)
    })
}

// Whether a term of the sum at line value is unbounded; where own, the first that is the target is left out.
fn has_unbounded(
    sheet: &LoadedSheet<'_>,
    entry: usize,
    target: usize,
    value: usize,
    own: bool,
) -> bool
    requires entry_at { KindAt kinds.entry sheet.now.lines.now entry }
    requires target_at { Here sheet.now.lines.now Expr target }
    requires value_at { Here sheet.now.lines.now Expr value }
    ensures { result ≡ any (λ t. not (bounded_of (entry_at sheet.now.bytes.now entry) t)) (others own (expr_at sheet.now.bytes.now target) (sum_terms (expr_at sheet.now.bytes.now value))) }
{
    let stop = sheet.end(value);
    let mut at = value;
    let mut due = own;
    // The loop of `any_term`, whose test could not change `due` on the way.
    while at < stop {
        if is_op(sheet, at, BinOp::Add) {
            at += 1;
            continue;
        }
        if due & same_target(sheet, target, at) {
            due = false;
            at = sheet.end(at);
            continue;
        }
        if !bounded(sheet, entry, at) {
            return true;
        }
        at = sheet.end(at);
    }
    false
}

// Whether an assignment with this operator adds something unbounded to its target.
pub fn adds_unbounded(
    sheet: &LoadedSheet<'_>,
    entry: usize,
    op: AssignOp,
    target: usize,
    value: usize,
) -> bool
    requires entry_at { KindAt kinds.entry sheet.now.lines.now entry }
    requires target_at { Here sheet.now.lines.now Expr target }
    requires value_at { Here sheet.now.lines.now Expr value }
    ensures { result ≡ adds_unbounded (entry_at sheet.now.bytes.now entry) (assign_meant op) (expr_at sheet.now.bytes.now target) (expr_at sheet.now.bytes.now value) }
{
    if acknowledged(sheet, value) {
        return false;
    }
    match op {
        AssignOp::Set => {
            is_op(sheet, value, BinOp::Add)
                && has_target(sheet, target, value)
                && has_unbounded(sheet, entry, target, value, true)
        }
        AssignOp::Add => has_unbounded(sheet, entry, target, value, false),
        AssignOp::Sub => false,
    }
}
