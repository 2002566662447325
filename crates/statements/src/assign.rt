// The judging of an assignment, when its target's and its value's types are known. A target is an expression or, where
// its default is assigned, a field.
ghost use Rattle.std.specs.Prelude.{[], ◌≡◌};
ghost use Rattle.rules.specs.Standing.{expr_at, Here, model_in};
ghost use Rattle.rules.specs.Statements.{from_deploy_params, is_address_field, is_set};
ghost use Rattle.grammar.specs.Grammar as grammar;
ghost use Rattle.env.specs.Force.{env_of};
ghost use Rattle.statements.specs.Assigned.{AssignAt, bare_at, becomes_address, FitsSlot, is_above, judge_narrow, JudgesAssign, narrow_at};
ghost use Rattle.rules.specs.Operators.{assign_meant};

use env::Scope;
use grammar::{AssignOp, Kind};
use lookups::{compatible, field_named, numeric};
use narrow::{exceeds, narrow_field};
use refusals::{Refusal, expect};
use rules::Ty;
use sheet::{LoadedSheet, is_kind};
use text::is_word;

// An assignment: its operator, the lines of its target and of its value, and their types.
#[derive(Clone, Copy)]
pub struct Assignment {
    pub op: AssignOp,
    pub target: usize,
    pub value: usize,
    pub slot: Ty,
    pub given: Ty,
}

#[tactic(auto, unfolding(rules::specs::Statements::is_set))]
fn is_set(op: AssignOp) -> bool
    ensures { result ≡ is_set (assign_meant op) }
{
    op == AssignOp::Set
}

// Whether the target is a bare name.
fn bare(lines: &[u16], target: usize) -> bool
    ensures { result ≡ bare_at lines.now target }
{
    is_kind(lines, target, Kind::Id) | is_kind(lines, target, Kind::Field)
}

// Whether the state field x is a Q_Address.
#[tactic(auto, using(crate::proofs::Tests::laws_tests))]
fn is_address_field(sheet: &LoadedSheet<'_>, x: &[u8]) -> bool
    ensures { result ≡ is_address_field (model_in sheet.now.bytes.now) x.now }
{
    match field_named(sheet, x) {
        Some(f) => is_word(sheet.name(f + 1), b"Q_Address"),
        None => false,
    }
}

// Whether a name becomes an address.
#[tactic(auto, using(crate::proofs::Tests::laws_tests))]
fn becomes_address(sheet: &LoadedSheet<'_>, a: Assignment) -> bool
    ensures { result ≡ becomes_address sheet.now.bytes.now sheet.now.lines.now a }
{
    if !bare(sheet.lines, a.target) {
        return false;
    }
    if is_set(a.op) & (a.given == Ty::Name) & (a.slot == Ty::Address) {
        return is_address_field(sheet, sheet.name(a.target));
    }
    false
}

// The largest number of the narrow field that the target is the bare name of.
#[tactic(auto, using(crate::proofs::Tests::laws_tests))]
fn narrow_at(sheet: &LoadedSheet<'_>, target: usize) -> Option<u64>
    ensures { result ≡ narrow_at sheet.now.bytes.now sheet.now.lines.now target }
{
    if !bare(sheet.lines, target) {
        return None;
    }
    narrow_field(sheet, sheet.name(target))
}

// Whether the value is a literal above max.
#[tactic(auto, using(crate::proofs::Tests::laws_tests))]
fn is_above(sheet: &LoadedSheet<'_>, value: usize, max: u64) -> bool
    ensures { result ≡ is_above sheet.now.bytes.now sheet.now.lines.now value max }
{
    if !sheet.is(value, Kind::Int) {
        return false;
    }
    exceeds(sheet.name(value), max)
}

// Refuses a wrapping value for a narrow field, and a literal above its largest number.
#[tactic(auto, using(crate::proofs::Tests::laws_tests))]
fn judge_narrow(sheet: &LoadedSheet<'_>, target: usize, value: usize) -> Result<(), Refusal>
    ensures { result ≡ judge_narrow sheet.now.bytes.now sheet.now.lines.now target value }
{
    let Some(max) = narrow_at(sheet, target) else {
        return Ok(());
    };
    if sheet.is(value, Kind::Wrapping) {
        return Err(Refusal::WrappingIntoNarrow { target, value });
    }
    expect(
        !is_above(sheet, value, max),
        Refusal::LiteralIntoNarrow { target, value, max },
    )
}

// Whether the value is a dot of `deploy_params`, in genesis.
#[tactic(auto, using(crate::proofs::Tests::laws_tests))]
fn from_deploy_params(scope: &Scope<'_>, value: usize) -> bool
    requires { Here scope.now.sheet.lines.now grammar.Expr value }
    ensures { result ≡ from_deploy_params (env_of scope.now.sheet.bytes.now [] scope.now.env) (expr_at scope.now.sheet.bytes.now value) }
{
    if !scope.env.genesis {
        return false;
    }
    if !scope.sheet.is(value, Kind::Dot) {
        return false;
    }
    if !scope.sheet.is(value + 1, Kind::Id) {
        return false;
    }
    is_word(scope.sheet.name(value + 1), b"deploy_params")
}

// Whether the value may be stored in the slot.
#[tactic(auto, using(crate::proofs::Tests::laws_tests))]
fn slot_fits(scope: &Scope<'_>, a: Assignment) -> bool
    requires { Here scope.now.sheet.lines.now grammar.Expr a.value }
    ensures { FitsSlot scope.now.sheet.bytes.now scope.now.env a result }
{
    if !is_set(a.op) {
        return numeric(a.slot) & numeric(a.given);
    }
    if compatible(a.slot, a.given) {
        return true;
    }
    if (a.slot == Ty::Collection) & (a.given == Ty::Unknown) {
        return from_deploy_params(scope, a.value);
    }
    false
}

#[tactic(auto, using(crate::proofs::Judged::laws_judged))]
pub fn judge_assign(scope: &Scope<'_>, a: Assignment) -> Result<(), Refusal>
    requires { AssignAt scope.now.sheet.lines.now a.target a.value }
    ensures { JudgesAssign scope.now.sheet.bytes.now scope.now.sheet.lines.now scope.now.env a result }
{
    let Assignment {
        target,
        value,
        slot,
        given,
        ..
    } = a;
    if slot == Ty::Asset {
        return Err(Refusal::AssetSlot(target));
    }
    if becomes_address(&scope.sheet, a) {
        return Err(Refusal::NameIntoAddress { target, value });
    }
    judge_narrow(&scope.sheet, target, value)?;
    expect(
        slot_fits(scope, a),
        Refusal::SlotMismatch { value, slot, given },
    )
}
