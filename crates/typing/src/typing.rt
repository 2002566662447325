// `ty_of` and its branches, and `check_keyed_call`, which call each other. The lines left and a phase fall.
ghost use Rattle.std.specs.Prelude.{◌≡◌};
ghost use Rattle.rules.specs.Standing.{expr_at, exprs_at, field_at};
ghost use Rattle.rules.specs.Typing.{ask_each, check_keyed_call, ty_of, typings};
ghost use Rattle.rules.specs.Typing.{typing as typing_of};
ghost use Rattle.env.specs.Force.{env_of};
ghost use Rattle.typing.specs.Asks.{AsksAgain, AsksAll, AsksAt, AsksCall, AsksKeys, AsksLeaf, AsksMethod, Asks};
ghost use Rattle.typing.specs.Asks.{amount_rule, args_at, callee_at, Does, keys_rule, answer_mark, method_at, type_args, type_keyed, Types, TypesLeaf};
ghost use Rattle.grammar.specs.Kinds as kinds;

use env::{
    Scope, Sides, expect_keyed_op, judge_amount, judge_binary, judge_unary, moves_amount,
    ty_of_call, ty_of_dot, wants,
};
use grammar::Kind;
use lookups::declared_arg;
use refusals::Refusal;
use rules::{REFUSED, Ty};
use sheet::call_arg_count;

// The type of a line that has no parts.
fn ty_of_leaf(scope: &Scope<'_>, table: &[u8], i: usize) -> Ty
    requires { AsksLeaf scope.now.sheet.lines.now table.now i }
    ensures { let s = scope.now.sheet.bytes.now in TypesLeaf s (typing_of (env_of s table.now scope.now.env) (expr_at s i)) table.now result }
{
    if scope.sheet.is(i, Kind::Id) {
        return scope.ty_of_ident(table, scope.sheet.name(i));
    }
    if scope.sheet.is(i, Kind::Date) {
        return Ty::Time;
    }
    if scope.sheet.is(i, Kind::Str) {
        return Ty::Str;
    }
    if scope.sheet.is(i, Kind::Caller)
        | scope.sheet.is(i, Kind::Native)
        | scope.sheet.is(i, Kind::Inasset)
    {
        Ty::Address
    } else {
        Ty::Int
    }
}

// The mark that an answer leaves.
fn mark(a: Result<Ty, Refusal>) -> u8
    ensures { result ≡ answer_mark a }
{
    match a {
        Ok(ty) => ty.mark(),
        Err(_) => REFUSED,
    }
}

// The type of line i. Every rule asks an expression's type through this function, and none but this and `ty_again`, its part for the exception, marks a line.
#[cycle(expression_types)]
#[tactic(auto, using(crate::proofs::Asking::laws_of))]
pub fn ty_of(scope: &Scope<'_>, table: &mut [u8], i: usize) -> Result<Ty, Refusal>
    requires { Asks scope.now.sheet.lines.now table.old i }
    ensures { let s = scope.now.sheet.bytes.now in Types s (ty_of (env_of s table.old scope.now.env) (expr_at s i)) table.old result table.new }
{
    if let Some(known) = Ty::of_mark(table[i]) {
        if scope.stale(i) {
            return ty_again(scope, table, i);
        }
        return Ok(known);
    }
    let a = typing(scope, table, i);
    table[i] = mark(a);
    a
}

// Types line i again, which keeps its first type, or is marked as refused.
#[cycle(expression_types)]
#[tactic(auto, using(crate::proofs::Asking::laws_again))]
fn ty_again(scope: &Scope<'_>, table: &mut [u8], i: usize) -> Result<Ty, Refusal>
    requires { AsksAgain scope.now.sheet.bytes.now scope.now.sheet.lines.now scope.now.env table.old i }
    ensures { let s = scope.now.sheet.bytes.now in Types s (ty_of (env_of s table.old scope.now.env) (expr_at s i)) table.old result table.new }
{
    match typing(scope, table, i) {
        Ok(ty) => Ok(ty),
        Err(r) => {
            table[i] = REFUSED;
            Err(r)
        }
    }
}

// `ty_of` without the asking itself: the type of line i by its kind.
#[cycle(expression_types)]
#[tactic(auto, using(crate::proofs::Asking::laws_kind))]
fn typing(scope: &Scope<'_>, table: &mut [u8], i: usize) -> Result<Ty, Refusal>
    requires { Asks scope.now.sheet.lines.now table.old i }
    ensures { let s = scope.now.sheet.bytes.now in Types s (typing_of (env_of s table.old scope.now.env) (expr_at s i)) table.old result table.new }
{
    if scope.sheet.is(i, Kind::Un) {
        return ty_of_unary(scope, table, i);
    }
    if scope.sheet.is(i, Kind::Bin) {
        return ty_of_binary(scope, table, i);
    }
    if scope.sheet.is(i, Kind::Dot) {
        return Ok(ty_of_dot(scope.sheet.name(i)));
    }
    if scope.sheet.is(i, Kind::Call) {
        return type_call(scope, table, i);
    }
    if scope.sheet.is(i, Kind::Checked) | scope.sheet.is(i, Kind::Wrapping) {
        return ty_of(scope, table, i + 1);
    }
    Ok(ty_of_leaf(scope, table, i))
}

#[cycle(expression_types)]
fn ty_of_unary(scope: &Scope<'_>, table: &mut [u8], i: usize) -> Result<Ty, Refusal>
    requires { AsksAt kinds.un scope.now.sheet.lines.now table.old i }
    ensures { let s = scope.now.sheet.bytes.now in Types s (typing_of (env_of s table.old scope.now.env) (expr_at s i)) table.old result table.new }
{
    let ty = ty_of(scope, table, i + 1)?;
    judge_unary(scope.sheet.unary_op(i), i + 1, ty)
}

// Both sides are typed before either is judged.
#[cycle(expression_types)]
fn ty_of_binary(scope: &Scope<'_>, table: &mut [u8], i: usize) -> Result<Ty, Refusal>
    requires { AsksAt kinds.bin scope.now.sheet.lines.now table.old i }
    ensures { let s = scope.now.sheet.bytes.now in Types s (typing_of (env_of s table.old scope.now.env) (expr_at s i)) table.old result table.new }
{
    let l = ty_of(scope, table, i + 1)?;
    let right = scope.sheet.end(i + 1);
    let r = ty_of(scope, table, right)?;
    let sides = Sides {
        left: i + 1,
        right,
        l,
        r,
    };
    judge_binary(&scope.sheet, scope.sheet.bin_op(i), sides)
}

// The type of a call: its receiver and its operation are judged first.
#[cycle(expression_types)]
#[tactic(auto, using(crate::proofs::Calls::laws_call))]
fn type_call(scope: &Scope<'_>, table: &mut [u8], i: usize) -> Result<Ty, Refusal>
    requires { AsksAt kinds.call scope.now.sheet.lines.now table.old i }
    ensures { let s = scope.now.sheet.bytes.now in Types s (typing_of (env_of s table.old scope.now.env) (expr_at s i)) table.old result table.new }
{
    let keyed = scope.keyed_of(i + 1);
    scope.expect_asset_receiver(i + 1)?;
    expect_keyed_op(&scope.sheet, i + 1, keyed)?;
    type_args(scope, table, i, keyed)
}

// ... then its arguments are typed. `keyed` is what `keyed_of` gave of the callee, handed on so that it is looked up once. What ties it to the
// call's line is a fact of the scope too (`AsksCall`), so a struct of both would hold the scope again.
#[cycle(expression_types)]
fn type_args(
    scope: &Scope<'_>,
    table: &mut [u8],
    i: usize,
    keyed: Option<usize>,
) -> Result<Ty, Refusal>
    requires { AsksCall scope.now.sheet.bytes.now scope.now.sheet.lines.now scope.now.env table.old i keyed }
    ensures { let s = scope.now.sheet.bytes.now in Types s (type_args (env_of s table.old scope.now.env) (callee_at s i) (args_at s scope.now.sheet.lines.now i)) table.old result table.new }
{
    let at = scope.sheet.end(i + 1);
    ask_each(scope, table, at, call_arg_count(scope.sheet.lines, i))?;
    type_keyed(scope, table, i, keyed)
}

// ... and its keyed use is checked
#[cycle(expression_types)]
fn type_keyed(
    scope: &Scope<'_>,
    table: &mut [u8],
    i: usize,
    keyed: Option<usize>,
) -> Result<Ty, Refusal>
    requires { AsksCall scope.now.sheet.bytes.now scope.now.sheet.lines.now scope.now.env table.old i keyed }
    ensures { let s = scope.now.sheet.bytes.now in Types s (type_keyed (env_of s table.old scope.now.env) (callee_at s i) (args_at s scope.now.sheet.lines.now i)) table.old result table.new }
{
    check_keyed_call(scope, table, i, keyed)?;
    Ok(ty_of_call(&scope.sheet, i + 1, keyed))
}

// Types `left` expressions, the first of which stands at line at.
#[cycle(expression_types)]
pub fn ask_each(scope: &Scope<'_>, table: &mut [u8], at: usize, left: usize) -> Result<(), Refusal>
    requires { AsksAll scope.now.sheet.lines.now table.old left at }
    ensures { let s = scope.now.sheet.bytes.now in Does s (ask_each (typings (env_of s table.old scope.now.env) (exprs_at s left at))) table.old result table.new }
{
    for arg in scope.sheet.records(at, left) {
        ty_of(scope, table, arg)?;
    }
    Ok(())
}

// `check_keyed_call` of the call at line i, whose callee uses `keyed`.
#[cycle(expression_types)]
#[tactic(auto, using(crate::proofs::Keys::laws_keyed_call))]
pub fn check_keyed_call(
    scope: &Scope<'_>,
    table: &mut [u8],
    i: usize,
    keyed: Option<usize>,
) -> Result<(), Refusal>
    requires { AsksCall scope.now.sheet.bytes.now scope.now.sheet.lines.now scope.now.env table.old i keyed }
    ensures { let s = scope.now.sheet.bytes.now in Does s (check_keyed_call (env_of s table.old scope.now.env) (callee_at s i) (typings (env_of s table.old scope.now.env) (args_at s scope.now.sheet.lines.now i))) table.old result table.new }
{
    let Some(field) = keyed else {
        return Ok(());
    };
    check_amount(scope, table, i)?;
    let method = scope.sheet.name(i + 1);
    let at = scope.sheet.end(i + 1);
    check_keys(
        scope,
        table,
        field,
        wants(method),
        at,
        call_arg_count(scope.sheet.lines, i),
    )
}

// The amount that `credit` and `debit` move.
#[cycle(expression_types)]
#[tactic(auto, using(crate::proofs::Keys::laws_amount))]
fn check_amount(scope: &Scope<'_>, table: &mut [u8], i: usize) -> Result<(), Refusal>
    requires { AsksMethod scope.now.sheet.lines.now table.old i }
    ensures { let s = scope.now.sheet.bytes.now in Does s (amount_rule (env_of s table.old scope.now.env) (method_at s scope.now.sheet.lines.now i) (args_at s scope.now.sheet.lines.now i)) table.old result table.new }
{
    if call_arg_count(scope.sheet.lines, i) < 2 {
        return Ok(());
    }
    if !moves_amount(scope.sheet.name(i + 1)) {
        return Ok(());
    }
    let arg = scope.sheet.end(scope.sheet.end(i + 1));
    let got = ty_of(scope, table, arg)?;
    judge_amount(i + 1, arg, got)
}

// `left` arguments, the first at line at, as far as the Map or Registry at line field declares what they must be: `wants` of them.
#[cycle(expression_types)]
fn check_keys(
    scope: &Scope<'_>,
    table: &mut [u8],
    field: usize,
    wants: usize,
    at: usize,
    left: usize,
) -> Result<(), Refusal>
    requires { AsksKeys scope.now.sheet.lines.now table.old field wants left at }
    ensures { let s = scope.now.sheet.bytes.now in Does s (keys_rule (env_of s table.old scope.now.env) (field_at s field) 0 wants (exprs_at s left at)) table.old result table.new }
{
    let args = scope.sheet.records(at, left);
    for (index, arg) in (0..wants).zip(args) {
        let got = ty_of(scope, table, arg)?;
        let want = declared_arg(&scope.sheet, field + 1, index);
        scope.judge_key(field, index == 0, arg, want, got)?;
    }
    Ok(())
}
