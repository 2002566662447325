// `check_emit_fields`, behind the typing of all arguments.
ghost use Rattle.std.specs.Prelude.{suc};
ghost use Rattle.sheet.specs.Scratch.{name_at, emit_arg_count};
ghost use Rattle.rules.specs.Ast.{list};
ghost use Rattle.grammar.specs.Kinds as kinds;
ghost use Rattle.lookups.specs.Lines.{KindAt};
ghost use Rattle.rules.specs.Standing.{expr_at, exprs_at, param_at};
ghost use Rattle.rules.specs.Statements.{check_emit_field, check_emit_fields};
ghost use Rattle.env.specs.Force.{env_of};
ghost use Rattle.typing.specs.Asks.{Does, KindIn};
ghost use Rattle.emits.specs.Emit.{emit_rule, FieldIn, fields_at, Mismatches};

use env::Scope;
use lookups::{event_named, one_word, ty_of_decl};
use refusals::{Refusal, expect};
use rules::Ty;
use sheet::{emit_arg_count, param_count};
use typing::{ask_each, ty_of};

// `emit_mismatch`: an argument of the type got doesn't fit a parameter of the type want. `straight`: the argument is the bare
// name of a Q_Name parameter.
#[tactic(auto, using(crate::proofs::Emitted::laws_fields))]
fn mismatch(want: Ty, got: Ty, straight: bool) -> bool
    ensures { Mismatches want got straight result }
{
    if want == Ty::Name {
        return (got != Ty::Name) | !straight;
    }
    (got == Ty::Name)
        | (got == Ty::Collection)
        | (want == Ty::Collection)
        | ((got == Ty::Address) & one_word(want))
}

// The argument at line arg for the event's parameter at line param.
fn check_field(scope: &Scope<'_>, table: &mut [u8], arg: usize, param: usize) -> Result<(), Refusal>
    requires { FieldIn scope.now.sheet.lines.now table.old arg param }
    ensures { let s = scope.now.sheet.bytes.now in Does s (check_emit_field (env_of s table.old scope.now.env) (expr_at s arg) (param_at s param)) table.old result table.new }
{
    let got = ty_of(scope, table, arg)?;
    let want = ty_of_decl(&scope.sheet, param + 1);
    expect(
        !mismatch(want, got, scope.is_name_param(arg)),
        Refusal::EmitField { arg, param, got },
    )
}

// The arguments of the `emit` at line i, side by side with the parameters of the event at line event.
fn check_fields(scope: &Scope<'_>, table: &mut [u8], i: usize, event: usize) -> Result<(), Refusal>
    requires emit_at { KindIn kinds.emit scope.now.sheet.lines.now table.old i }
    requires event_at { KindAt kinds.event scope.now.sheet.lines.now event }
    ensures { let s = scope.now.sheet.bytes.now in Does s (fields_at s scope.now.sheet.lines.now (env_of s table.old scope.now.env) i event) table.old result table.new }
{
    let sheet = &scope.sheet;
    let args = sheet.records(i + 1, emit_arg_count(sheet.lines, i));
    let params = sheet.records(event + 1, param_count(sheet.lines, event));
    for (arg, param) in args.zip(params) {
        check_field(scope, table, arg, param)?;
    }
    Ok(())
}

// `check_emit_fields` of the `emit` at line i.
fn check_emit_fields(scope: &Scope<'_>, table: &mut [u8], i: usize) -> Result<(), Refusal>
    requires { KindIn kinds.emit scope.now.sheet.lines.now table.old i }
    ensures { let s = scope.now.sheet.bytes.now in Does s (check_emit_fields (env_of s table.old scope.now.env) (name_at s scope.now.sheet.lines.now i) (list (exprs_at s (emit_arg_count scope.now.sheet.lines.now i) (suc i)))) table.old result table.new }
{
    match event_named(&scope.sheet, scope.sheet.name(i)) {
        Some(event) => check_fields(scope, table, i, event),
        None => Ok(()),
    }
}

// The `emit` at line i: all arguments are typed, then judged by the event's parameters.
pub fn check_emit(scope: &Scope<'_>, table: &mut [u8], i: usize) -> Result<(), Refusal>
    requires { KindIn kinds.emit scope.now.sheet.lines.now table.old i }
    ensures { let s = scope.now.sheet.bytes.now in Does s (emit_rule (env_of s table.old scope.now.env) (name_at s scope.now.sheet.lines.now i) (list (exprs_at s (emit_arg_count scope.now.sheet.lines.now i) (suc i)))) table.old result table.new }
{
    ask_each(scope, table, i + 1, emit_arg_count(scope.sheet.lines, i))?;
    check_emit_fields(scope, table, i)
}
