// Lines by their kind and operator.
ghost use Rattle.std.specs.Prelude.{◌≡◌};
ghost use Rattle.grammar.specs.Grammar.{Expr};
ghost use Rattle.rules.specs.Arithmetic.{acknowledged as acknowledged_of};
ghost use Rattle.rules.specs.Standing.{Here, expr_at};
ghost use Rattle.rules.specs.Arithmetic.{any};
ghost use Rattle.rules.specs.Operators.{bin_meant};
ghost use Rattle.arithmetic.specs.Tests.{has_op, Tells, terms};

use grammar::{BinOp, Kind};
use sheet::LoadedSheet;

// Whether line i is a `bin` with this operator. By numbers, of which the laws of the operators speak.
pub fn is_op(sheet: &LoadedSheet<'_>, i: usize, o: BinOp) -> bool
    ensures { result ≡ has_op sheet.now.lines.now o i }
{
    sheet.is(i, Kind::Bin) & (sheet.bin_op(i).number() == o.number())
}

// `acknowledged`: the expression at line i is a `checked` or a `wrapping`.
pub fn acknowledged(sheet: &LoadedSheet<'_>, i: usize) -> bool
    requires { Here sheet.now.lines.now Expr i }
    ensures { result ≡ acknowledged_of (expr_at sheet.now.bytes.now i) }
{
    sheet.is(i, Kind::Checked) | sheet.is(i, Kind::Wrapping)
}

// Whether the test passes one of the terms that an operator joins in the expression at line i.
pub fn any_term<F: Fn(usize) -> bool>(sheet: &LoadedSheet<'_>, op: BinOp, i: usize, test: F) -> bool
    requires expr_at { Here sheet.now.lines.now Expr i }
    requires callable { (at : _) → Here sheet.now.lines.now Expr at → F.pre test at }
    ensures { (p : _) → Tells sheet.now.bytes.now (F.post test) p → result ≡ any p (terms (bin_meant op) (expr_at sheet.now.bytes.now i)) }
{
    let stop = sheet.end(i);
    let mut at = i;
    // A turn goes into the two sides of the operator, or past a term. An iterator over the terms has this loop in its `next`, and beside it
    // a count of what is left and the fact that it stands there: 40 lines more, to save the loop of `has_unbounded`.
    while at < stop {
        if is_op(sheet, at, op) {
            at += 1;
            continue;
        }
        if test(at) {
            return true;
        }
        at = sheet.end(at);
    }
    false
}
