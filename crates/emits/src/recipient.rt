// `refuse_name_recipient`.
ghost use Rattle.grammar.specs.Grammar as grammar;
ghost use Rattle.rules.specs.Standing.{expr_at, Here};
ghost use Rattle.rules.specs.Statements.{refuse_name_recipient};
ghost use Rattle.env.specs.Force.{env_of};
ghost use Rattle.typing.specs.Asks.{Asks, Does};
ghost use Rattle.emits.specs.Recipient.{recipient_rule, Recipients};

use env::Scope;
use grammar::Kind;
use refusals::{Refusal, expect};
use rules::Ty;
use sheet::{LoadedSheet, call_arg_count};
use text::is_word;
use typing::{check_records, ty_of};

// How many arguments, from the first on, of a call with the callee at this line are recipients.
#[tactic(auto, using(crate::proofs::Recipients::laws_recipients))]
fn recipients(sheet: &LoadedSheet<'_>, callee: usize) -> usize
    requires { Here sheet.now.lines.now grammar.Expr callee }
    ensures { Recipients sheet.now.bytes.now callee result }
{
    if !sheet.is(callee, Kind::Id) {
        return 0;
    }
    let name = sheet.name(callee);
    if is_word(name, b"send") | is_word(name, b"mint_asset") {
        return 1;
    }
    if is_word(name, b"send_asset") {
        return 2;
    }
    0
}

// The recipient at line arg.
fn check_recipient(scope: &Scope<'_>, table: &mut [u8], arg: usize) -> Result<(), Refusal>
    requires { Asks scope.now.sheet.lines.now table.old arg }
    ensures { let s = scope.now.sheet.bytes.now in Does s (recipient_rule (env_of s table.old scope.now.env) (expr_at s arg)) table.old result table.new }
{
    let ty = ty_of(scope, table, arg)?;
    expect(ty != Ty::Name, Refusal::Recipient(arg))
}

// No recipient of the call at line i is a name. Any other expression has none.
pub fn refuse_name_recipient(scope: &Scope<'_>, table: &mut [u8], i: usize) -> Result<(), Refusal>
    requires { Asks scope.now.sheet.lines.now table.old i }
    ensures { let s = scope.now.sheet.bytes.now in Does s (refuse_name_recipient (env_of s table.old scope.now.env) (expr_at s i)) table.old result table.new }
{
    if !scope.sheet.is(i, Kind::Call) {
        return Ok(());
    }
    let args = call_arg_count(scope.sheet.lines, i);
    let due = recipients(&scope.sheet, i + 1);
    check_records(
        &scope.sheet,
        table,
        scope.sheet.end(i + 1),
        args.min(due),
        |table, arg| check_recipient(scope, table, arg),
    )
}
