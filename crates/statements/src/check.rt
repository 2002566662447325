// `check_stmt_types`, `expect_predicate`, and the default of a field.
ghost use Rattle.std.specs.Prelude.{◌≡◌, suc};
ghost use Rattle.sheet.specs.Scratch.{end_at};
ghost use Rattle.rules.specs.Check.{check_default};
ghost use Rattle.rules.specs.Standing.{expr_at, field_at, stmt_at};
ghost use Rattle.rules.specs.Statements.{check_keyed_use, check_stmt_types, expect_predicate};
ghost use Rattle.rules.specs.Text.{is_one};
ghost use Rattle.env.specs.Force.{env_of};
ghost use Rattle.typing.specs.Asks.{Asks, Does};
ghost use Rattle.statements.specs.Checked.{DefaultIn, DoesAssign, no_defaults, StmtIn, StmtOf, ValueIn};
ghost use Rattle.grammar.specs.Kinds as kinds;

use crate::assign::{Assignment, judge_assign};
use env::Scope;
use grammar::{AssignOp, Kind};
use refusals::{Refusal, expect};
use rules::Ty;
use text::place_in;
use typing::{check_keyed_call, ty_of};

// The condition at line i is a boolean.
pub fn expect_predicate(scope: &Scope<'_>, table: &mut [u8], i: usize) -> Result<(), Refusal>
    requires { Asks scope.now.sheet.lines.now table.old i }
    ensures { let s = scope.now.sheet.bytes.now in Does s (expect_predicate (env_of s table.old scope.now.env) (expr_at s i)) table.old result table.new }
{
    let ty = ty_of(scope, table, i)?;
    expect(
        (ty == Ty::Bool) | (ty == Ty::Unknown),
        Refusal::Predicate(i),
    )
}

// Types the value, and judges its assignment to the target, whose type is slot.
fn check_value(
    scope: &Scope<'_>,
    table: &mut [u8],
    op: AssignOp,
    target: usize,
    value: usize,
    slot: Ty,
) -> Result<(), Refusal>
    requires { ValueIn scope.now.sheet.lines.now table.old target value }
    ensures { DoesAssign scope.now.sheet.bytes.now scope.now.sheet.lines.now scope.now.env op target value slot table.old result table.new }
{
    let given = ty_of(scope, table, value)?;
    let a = Assignment {
        op,
        target,
        value,
        slot,
        given,
    };
    judge_assign(scope, a)
}

// The target is typed before the value.
fn check_assign(scope: &Scope<'_>, table: &mut [u8], i: usize) -> Result<(), Refusal>
    requires { StmtOf kinds.assign scope.now.sheet.lines.now table.old i }
    ensures { let s = scope.now.sheet.bytes.now in Does s (check_stmt_types (env_of s table.old scope.now.env) (stmt_at s i)) table.old result table.new }
{
    let slot = ty_of(scope, table, i + 1)?;
    let value = scope.sheet.end(i + 1);
    check_value(scope, table, scope.sheet.assign_op(i), i + 1, value, slot)
}

// `check_keyed_call` of any expression.
fn check_keyed_use(scope: &Scope<'_>, table: &mut [u8], i: usize) -> Result<(), Refusal>
    requires { Asks scope.now.sheet.lines.now table.old i }
    ensures { let s = scope.now.sheet.bytes.now in Does s (check_keyed_use (env_of s table.old scope.now.env) (expr_at s i)) table.old result table.new }
{
    if !scope.sheet.is(i, Kind::Call) {
        return Ok(());
    }
    let keyed = scope.keyed_of(i + 1);
    check_keyed_call(scope, table, i, keyed)
}

fn check_do(scope: &Scope<'_>, table: &mut [u8], i: usize) -> Result<(), Refusal>
    requires { StmtOf kinds.do' scope.now.sheet.lines.now table.old i }
    ensures { let s = scope.now.sheet.bytes.now in Does s (check_stmt_types (env_of s table.old scope.now.env) (stmt_at s i)) table.old result table.new }
{
    ty_of(scope, table, i + 1)?;
    check_keyed_use(scope, table, i + 1)
}

// The statement at line i, where it assigns or is an expression.
pub fn check_stmt_types(scope: &Scope<'_>, table: &mut [u8], i: usize) -> Result<(), Refusal>
    requires { StmtIn scope.now.sheet.lines.now table.old i }
    ensures { let s = scope.now.sheet.bytes.now in Does s (check_stmt_types (env_of s table.old scope.now.env) (stmt_at s i)) table.old result table.new }
{
    if scope.sheet.is(i, Kind::Assign) {
        return check_assign(scope, table, i);
    }
    if scope.sheet.is(i, Kind::Do) {
        return check_do(scope, table, i);
    }
    Ok(())
}

// Whether a field of the type of this name takes no default.
fn no_default(ty: &[u8]) -> bool
    ensures { result ≡ is_one ty.now no_defaults }
{
    place_in(ty, b"Map Registry GuardianSet Q_Asset ").is_some()
}

// The default of the field at line field is assigned to the last field of its name.
pub fn check_default(scope: &Scope<'_>, table: &mut [u8], field: usize) -> Result<(), Refusal>
    requires { DefaultIn scope.now.sheet.lines.now table.old field }
    ensures { let s = scope.now.sheet.bytes.now in Does s (check_default (env_of s table.old scope.now.env) (field_at s field) (expr_at s (end_at scope.now.sheet.lines.now (suc field)))) table.old result table.new }
{
    let value = scope.sheet.end(field + 1);
    if no_default(scope.sheet.name(field + 1)) {
        return Err(Refusal::Default { field, value });
    }
    let slot = scope.ty_of_ident(table, scope.sheet.name(field));
    check_value(scope, table, AssignOp::Set, field, value, slot)
}
