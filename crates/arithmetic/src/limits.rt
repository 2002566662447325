// `limits_bound`: whether a `limits` clause caps a name from above.
ghost use Rattle.std.specs.Prelude.{◌≡◌};
ghost use Rattle.grammar.specs.Grammar.{Clause, Expr};
ghost use Rattle.rules.specs.Arithmetic.{caps_from_above, limits_bound, limits_cap, upper_bounds};
ghost use Rattle.rules.specs.Arithmetic.{mentions as mentions_of, subtracts as subtracts_of};
ghost use Rattle.rules.specs.Standing.{Here, clause_at, entry_at, expr_at};
ghost use Rattle.lookups.specs.Lines.{KindAt};
ghost use Rattle.arithmetic.specs.Tests.{compares as compares_of};
ghost use Rattle.grammar.specs.Kinds as kinds;

use crate::lines::{acknowledged, any_term, is_op};
use grammar::{BinOp, Kind};
use lookups::{clauses_line, is_named};
use sheet::{LoadedSheet, clause_count};

// Whether the name x stands in the expression at line i, outside of `checked` and `wrapping`.
fn mentions(sheet: &LoadedSheet<'_>, i: usize, x: &[u8]) -> bool
    requires { Here sheet.now.lines.now Expr i }
    ensures { result ≡ mentions_of (expr_at sheet.now.bytes.now i) x.now }
{
    let stop = sheet.end(i);
    let mut at = i;
    // A `while`: an iterator would have this loop in its `next`, as at `any_term`.
    while at < stop {
        if acknowledged(sheet, at) {
            at = sheet.end(at);
            continue;
        }
        if is_named(sheet, Kind::Id, x, at) {
            return true;
        }
        at += 1;
    }
    false
}

// Whether line i takes away what mentions x from what doesn't.
fn subtracts(sheet: &LoadedSheet<'_>, i: usize, x: &[u8]) -> bool
    requires { Here sheet.now.lines.now Expr i }
    ensures { result ≡ subtracts_of (expr_at sheet.now.bytes.now i) x.now }
{
    if !is_op(sheet, i, BinOp::Sub) {
        return false;
    }
    if !mentions(sheet, sheet.end(i + 1), x) {
        return false;
    }
    !mentions(sheet, i + 1, x)
}

fn upper_bounds(sheet: &LoadedSheet<'_>, small: usize, large: usize, x: &[u8]) -> bool
    requires small_at { Here sheet.now.lines.now Expr small }
    requires large_at { Here sheet.now.lines.now Expr large }
    ensures { result ≡ upper_bounds (expr_at sheet.now.bytes.now small) (expr_at sheet.now.bytes.now large) x.now }
{
    if mentions(sheet, small, x) {
        return !mentions(sheet, large, x);
    }
    subtracts(sheet, large, x)
}

// Whether line i is a comparison that caps x.
fn compares(sheet: &LoadedSheet<'_>, i: usize, x: &[u8]) -> bool
    requires { Here sheet.now.lines.now Expr i }
    ensures { result ≡ compares_of (expr_at sheet.now.bytes.now i) x.now }
{
    if !sheet.is(i, Kind::Bin) {
        return false;
    }
    let right = sheet.end(i + 1);
    match sheet.bin_op(i) {
        BinOp::Le | BinOp::Lt => upper_bounds(sheet, i + 1, right, x),
        BinOp::Ge | BinOp::Gt => upper_bounds(sheet, right, i + 1, x),
        _ => false,
    }
}

fn caps_from_above(sheet: &LoadedSheet<'_>, i: usize, x: &[u8]) -> bool
    requires { Here sheet.now.lines.now Expr i }
    ensures { result ≡ caps_from_above (expr_at sheet.now.bytes.now i) x.now }
{
    any_term(sheet, BinOp::And, i, |at| compares(sheet, at, x))
}

// Whether the clause at line i is a `limits` that caps x.
fn limits_cap(sheet: &LoadedSheet<'_>, i: usize, x: &[u8]) -> bool
    requires { Here sheet.now.lines.now Clause i }
    ensures { result ≡ limits_cap x.now (clause_at sheet.now.bytes.now i) }
{
    if !sheet.is(i, Kind::Limits) {
        return false;
    }
    caps_from_above(sheet, i + 1, x)
}

pub fn limits_bound(sheet: &LoadedSheet<'_>, entry: usize, x: &[u8]) -> bool
    requires { KindAt kinds.entry sheet.now.lines.now entry }
    ensures { result ≡ limits_bound (entry_at sheet.now.bytes.now entry) x.now }
{
    let first = clauses_line(sheet.lines, entry);
    sheet
        .records(first, clause_count(sheet.lines, entry))
        .any(|at| limits_cap(sheet, at, x))
}
