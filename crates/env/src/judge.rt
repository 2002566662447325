// The judging of types that were asked.
ghost use Rattle.std.specs.Prelude.{◌&&◌, ◌||◌, not, [], ◌∷◌, ◌≡◌};
ghost use Rattle.rules.specs.Types.{eq_ty, is_ty, is_zero_literal};
ghost use Rattle.rules.specs.declared.ty.Ty.TheVariants.{Address, Asset, Int, Name, Unknown};
ghost use Rattle.rules.specs.Standing.{expr_at, Here};
ghost use Rattle.rules.specs.Typing.{is_name_param, judge_binary, judge_unary};
ghost use Rattle.rules.specs.Typing.{arithmetic as arithmetic_of, equality as equality_of, logical as logical_of, ordering as ordering_of};
ghost use Rattle.rules.specs.Operators.{bin_meant, unary_meant};
ghost use Rattle.env.specs.Answers.{both_of, Judged, Judged2, JudgedIn, JudgesAmount, JudgesKey, Operands};
ghost use Rattle.grammar.specs.Grammar as grammar;
ghost use Rattle.env.specs.Force.{env_of};

use crate::env::Scope;
use grammar::{BinOp, Tells, UnaryOp};
use lookups::{compatible, is_zero_literal, numeric};
use refusals::{Refusal, expect};
use rules::Ty;
use sheet::LoadedSheet;

// Both sides of a `bin`: their lines and their types.
#[derive(Clone, Copy)]
pub struct Sides {
    pub left: usize,
    pub right: usize,
    pub l: Ty,
    pub r: Ty,
}

impl Sides {
    pub fn new<T: Tells<Ty>, U: Tells<Ty>>(left: usize, right: usize, l: T, r: U) -> Sides
        ensures { result ≡ record { left = left; right = right; l = T.meaning l; r = U.meaning r } }
    {
        Sides {
            left,
            right,
            l: l.told(),
            r: r.told(),
        }
    }
}

// Whether the type is the wanted one, or Unknown.
fn or_unknown(ty: Ty, want: Ty) -> bool
    ensures { result ≡ (eq_ty ty want || eq_ty ty Unknown) }
{
    (ty == want) | (ty == Ty::Unknown)
}

fn unary(op: UnaryOp, inner: usize, ty: Ty) -> Result<Ty, Refusal>
    ensures { Judged (λ s. judge_unary (unary_meant op) (expr_at s inner)) ty result }
{
    match op {
        UnaryOp::Not => { expect(or_unknown(ty, Ty::Bool), Refusal::Not(inner)).and(Ok(Ty::Bool)) }
        UnaryOp::Neg => expect(or_unknown(ty, Ty::Int), Refusal::Neg(inner)).and(Ok(Ty::Int)),
    }
}

// Judges the type of the operand by the operator.
pub fn judge_unary<O: Tells<UnaryOp>, T: Tells<Ty>>(
    op: O,
    inner: usize,
    ty: T,
) -> Result<Ty, Refusal>
    ensures { Judged (λ s. judge_unary (unary_meant (O.meaning op)) (expr_at s inner)) (T.meaning ty) result }
{
    unary(op.told(), inner, ty.told())
}

// What two tests come to, with why each refuses and the type where both hold.
fn both(l: bool, r: bool, left: Refusal, right: Refusal, ty: Ty) -> Result<Ty, Refusal>
    ensures { result ≡ both_of l r left right ty }
{
    if !l {
        return Err(left);
    }
    if !r {
        return Err(right);
    }
    Ok(ty)
}

// These three differ in a test, a refusal and a type; each is one rule of types.rs.
fn logical(sides: Sides) -> Result<Ty, Refusal>
    ensures { Judged2 logical_of sides result }
{
    both(
        or_unknown(sides.l, Ty::Bool),
        or_unknown(sides.r, Ty::Bool),
        Refusal::Logical(sides.left),
        Refusal::Logical(sides.right),
        Ty::Bool,
    )
}

fn arithmetic(sides: Sides) -> Result<Ty, Refusal>
    ensures { Judged2 arithmetic_of sides result }
{
    both(
        numeric(sides.l),
        numeric(sides.r),
        Refusal::Arithmetic(sides.left),
        Refusal::Arithmetic(sides.right),
        Ty::Int,
    )
}

fn ordering(sides: Sides) -> Result<Ty, Refusal>
    ensures { Judged2 ordering_of sides result }
{
    both(
        numeric(sides.l),
        numeric(sides.r),
        Refusal::Ordering(sides.left),
        Refusal::Ordering(sides.right),
        Ty::Bool,
    )
}

// Whether a type is an address, and the other side the zero that means none.
fn absent(sheet: &LoadedSheet<'_>, ty: Ty, other: usize) -> bool
    requires { Here sheet.now.lines.now grammar.Expr other }
    ensures { result ≡ (eq_ty ty Address && is_zero_literal (expr_at sheet.now.bytes.now other)) }
{
    (ty == Ty::Address) & is_zero_literal(sheet, other)
}

#[tactic(auto, using(crate::proofs::Judging::laws_judging))]
fn equality(sheet: &LoadedSheet<'_>, sides: Sides) -> Result<Ty, Refusal>
    requires { Operands sheet.now.lines.now sides.left sides.right }
    ensures { JudgedIn sheet.now.bytes.now equality_of sides result }
{
    let Sides { left, right, l, r } = sides;
    if (l == Ty::Name) | (r == Ty::Name) {
        return Err(Refusal::NamesCompared(left));
    }
    let fits = compatible(l, r) | absent(sheet, l, right) | absent(sheet, r, left);
    expect(fits, Refusal::Compared { right, l, r }).and(Ok(Ty::Bool))
}

#[tactic(auto, using(crate::proofs::Judging::in_sheet), unfolding(rules::specs::Operators::bin_meant, rules::specs::Typing::judge_binary))]
fn binary(sheet: &LoadedSheet<'_>, op: BinOp, sides: Sides) -> Result<Ty, Refusal>
    requires { Operands sheet.now.lines.now sides.left sides.right }
    ensures { JudgedIn sheet.now.bytes.now (judge_binary (bin_meant op)) sides result }
{
    match op {
        BinOp::Or | BinOp::And => logical(sides),
        BinOp::Eq | BinOp::Ne => equality(sheet, sides),
        BinOp::Lt | BinOp::Gt | BinOp::Le | BinOp::Ge => ordering(sides),
        BinOp::Add | BinOp::Sub | BinOp::Mul | BinOp::Div | BinOp::Rem | BinOp::Shr => {
            arithmetic(sides)
        }
    }
}

// Judges the types of both sides by the operator.
pub fn judge_binary<O: Tells<BinOp>>(
    sheet: &LoadedSheet<'_>,
    op: O,
    sides: Sides,
) -> Result<Ty, Refusal>
    requires { Operands sheet.now.lines.now sides.left sides.right }
    ensures { JudgedIn sheet.now.bytes.now (judge_binary (bin_meant (O.meaning op))) sides result }
{
    binary(sheet, op.told(), sides)
}

// Whether a value of the type may be moved as an amount.
#[tactic(auto, unfolding(rules::specs::Types::is_ty, rules::specs::Types::eq_ty, rules::specs::Asking::code))]
fn is_amount(ty: Ty) -> bool
    ensures { result ≡ is_ty ty (Int ∷ Asset ∷ Unknown ∷ []) }
{
    matches!(ty, Ty::Int | Ty::Asset | Ty::Unknown)
}

// Judges the amount that the method of the dot at line callee moves.
#[tactic(auto, using(crate::proofs::Judging::laws_judging))]
pub fn judge_amount<T: Tells<Ty>>(callee: usize, arg: usize, got: T) -> Result<(), Refusal>
    ensures { JudgesAmount callee arg (T.meaning got) result }
{
    expect(is_amount(got.told()), Refusal::Amount { callee, arg })
}

impl Scope<'_> {
    // Whether the argument, of the type got, is no Q_Name or a Q_Name parameter.
    #[tactic(auto, using(crate::proofs::Judging::laws_judging))]
    fn straight(&self, arg: usize, got: Ty) -> bool
        requires { Here self.now.sheet.lines.now grammar.Expr arg }
        ensures { result ≡ (not (eq_ty got Name) || is_name_param (env_of self.now.sheet.bytes.now [] self.now.env) (expr_at self.now.sheet.bytes.now arg)) }
    {
        if got != Ty::Name {
            return true;
        }
        self.is_name_param(arg)
    }

    // Judges a key or value of the Map or Registry at line field.
    #[tactic(auto, using(crate::proofs::Judging::laws_judging))]
    pub fn judge_key<T: Tells<Ty>, U: Tells<Ty>>(
        &self,
        field: usize,
        is_key: bool,
        arg: usize,
        want: T,
        got: U,
    ) -> Result<(), Refusal>
        requires { Here self.now.sheet.lines.now grammar.Expr arg }
        ensures { JudgesKey self.now.sheet.bytes.now self.now.env field is_key arg (T.meaning want) (U.meaning got) result }
    {
        let want = want.told();
        let got = got.told();
        if !self.straight(arg, got) {
            return Err(Refusal::NameNotParam { field, arg });
        }
        if (want == Ty::Name) & (got != Ty::Name) {
            return Err(Refusal::NameWanted { field, arg });
        }
        let why = Refusal::Holds {
            field,
            arg,
            want,
            got,
        };
        expect((is_key & (got == Ty::Name)) | compatible(want, got), why)
    }
}
