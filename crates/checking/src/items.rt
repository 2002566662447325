// `check`: its rules over the items.
ghost use Rattle.std.specs.Prelude.{[], ◌≤◌, length};
ghost use Rattle.rules.specs.Ast.{item_of};
ghost use Rattle.rules.specs.Asking.{for_each};
ghost use Rattle.rules.specs.Check.{before_entries, check_field, check_event_param, check_entry_param};
ghost use Rattle.rules.specs.Check.{check as check_of, check_entry as check_entry_of, check_genesis as check_genesis_of};
ghost use Rattle.rules.specs.Model.{item_model};
ghost use Rattle.rules.specs.Standing.{model_in, node_at};
ghost use Rattle.rules.specs.Statements.{expect_predicate};
ghost use Rattle.rules.specs.Typing as typing;
ghost use Rattle.sheet.specs.Scratch.{item_count, line_count};
ghost use Rattle.lookups.specs.Lines.{KindAt};
ghost use Rattle.typing.specs.Asks.{Does};
ghost use Rattle.typing.specs.Each.{Gives, GivesEach};
ghost use Rattle.checking.specs.Each.{DoesItems, GivesOf, TakesItems};
ghost use Rattle.env.specs.Force.{in_genesis, new};
ghost use Rattle.checking.specs.Walk.{ScopeIn, SheetIn};
ghost use Rattle.grammar.specs.Kinds as kinds;
ghost use Rattle.grammar.specs.Coded.{kind_number};

use crate::entry::check_entry;
use crate::records::{check_entry_param, check_event_param, check_field, check_genesis};
use declarations::guardian_fields;
use env::Scope;
use grammar::Kind;
use key_kinds::check_key_kinds;
use refusals::Refusal;
use sheet::{LoadedSheet, field_count, genesis_count, item_count, param_count};
use statements::expect_predicate;
use typing::check_records;

// The step that is given, at each item of a kind in the order of the sheet, until it refuses.
fn check_items<F: Fn(&mut [u8], usize) -> Result<(), Refusal>>(
    sheet: &LoadedSheet<'_>,
    table: &mut [u8],
    kind: Kind,
    check: F,
) -> Result<(), Refusal>
    requires { TakesItems (F.pre check) sheet.now.lines.now table.old (kind_number kind) }
    ensures gives { GivesEach (GivesOf (kind_number kind) sheet.now.lines.now (Gives (F.post check))) sheet.now.lines.now (item_count sheet.now.lines.now 0) 1 table.old result table.new }
    ensures does { DoesItems (kind_number kind) (Gives (F.post check)) sheet.now.bytes.now sheet.now.lines.now table.old result table.new }
{
    for at in sheet.records(1, item_count(sheet.lines, 0)) {
        if sheet.is(at, kind) {
            check(table, at)?;
        }
    }
    Ok(())
}

// The fields of the state at line i.
fn state_fields(scope: &Scope<'_>, table: &mut [u8], i: usize) -> Result<(), Refusal>
    requires { ScopeIn kinds.state (new 0 0) scope.now.sheet.lines.now scope.now.env table.old i }
    ensures { let s = scope.now.sheet.bytes.now in Does s (for_each (item_model (item_of (node_at s i))).fields (check_field (typing.new (model_in s) []))) table.old result table.new }
{
    check_records(
        &scope.sheet,
        table,
        i + 1,
        field_count(scope.sheet.lines, i),
        |table, at| { check_field(scope, table, at) },
    )
}

// The fields of all states. Where a pass has a scope, here and below, the walk goes over the scope's own sheet, of which its steps speak.
#[tactic(auto, using(crate::proofs::Passing::items_in))]
fn check_fields(sheet: &LoadedSheet<'_>, table: &mut [u8]) -> Result<(), Refusal>
    requires { line_count sheet.now.lines.now ≤ length table.old }
    ensures { Does sheet.now.bytes.now (for_each (model_in sheet.now.bytes.now).fields (check_field (typing.new (model_in sheet.now.bytes.now) []))) table.old result table.new }
{
    let scope = Scope::new(sheet, 0, 0);
    check_items(
        &scope.sheet,
        table,
        Kind::State,
        |table, i| state_fields(&scope, table, i),
    )
}

// The parameters of the event at line i.
fn event_params(sheet: &LoadedSheet<'_>, table: &mut [u8], i: usize) -> Result<(), Refusal>
    requires { KindAt kinds.event sheet.now.lines.now i }
    ensures { Does sheet.now.bytes.now (for_each (item_model (item_of (node_at sheet.now.bytes.now i))).events (λ e. for_each e.params check_event_param)) table.old result table.new }
{
    check_records(sheet, table, i + 1, param_count(sheet.lines, i), |_, at| {
        check_event_param(sheet, at)
    })
}

// The parameters of all events.
#[tactic(auto, using(crate::proofs::Passing::items_in))]
fn check_events(sheet: &LoadedSheet<'_>, table: &mut [u8]) -> Result<(), Refusal>
    ensures { Does sheet.now.bytes.now (for_each (model_in sheet.now.bytes.now).events (λ e. for_each e.params check_event_param)) table.old result table.new }
{
    check_items(
        sheet,
        table,
        Kind::Event,
        |table, i| event_params(sheet, table, i),
    )
}

// The parameters of the entry at line i. Those of events and of entries are two rules of `check`, and so two passes.
fn entry_params(sheet: &LoadedSheet<'_>, table: &mut [u8], i: usize) -> Result<(), Refusal>
    requires { KindAt kinds.entry sheet.now.lines.now i }
    ensures { Does sheet.now.bytes.now (for_each (item_model (item_of (node_at sheet.now.bytes.now i))).entries (λ e. for_each e.params check_entry_param)) table.old result table.new }
{
    check_records(sheet, table, i + 1, param_count(sheet.lines, i), |_, at| {
        check_entry_param(sheet, at)
    })
}

// The parameters of all entries.
#[tactic(auto, using(crate::proofs::Passing::items_in))]
fn check_params(sheet: &LoadedSheet<'_>, table: &mut [u8]) -> Result<(), Refusal>
    ensures { Does sheet.now.bytes.now (for_each (model_in sheet.now.bytes.now).entries (λ e. for_each e.params check_entry_param)) table.old result table.new }
{
    check_items(
        sheet,
        table,
        Kind::Entry,
        |table, i| entry_params(sheet, table, i),
    )
}

// The condition of the invariant at line i.
#[tactic(auto, using(crate::proofs::Passing::invariant_needs))]
fn check_invariant(scope: &Scope<'_>, table: &mut [u8], i: usize) -> Result<(), Refusal>
    requires { ScopeIn kinds.invariant (new 0 0) scope.now.sheet.lines.now scope.now.env table.old i }
    ensures { let s = scope.now.sheet.bytes.now in Does s (for_each (item_model (item_of (node_at s i))).invariants (expect_predicate (typing.new (model_in s) []))) table.old result table.new }
{
    expect_predicate(scope, table, i + 1)
}

// All invariants.
#[tactic(auto, using(crate::proofs::Passing::items_in))]
fn check_invariants(sheet: &LoadedSheet<'_>, table: &mut [u8]) -> Result<(), Refusal>
    requires { line_count sheet.now.lines.now ≤ length table.old }
    ensures { Does sheet.now.bytes.now (for_each (model_in sheet.now.bytes.now).invariants (expect_predicate (typing.new (model_in sheet.now.bytes.now) []))) table.old result table.new }
{
    let scope = Scope::new(sheet, 0, 0);
    check_items(
        &scope.sheet,
        table,
        Kind::Invariant,
        |table, i| check_invariant(&scope, table, i),
    )
}

// The statements of the genesis at line i.
fn genesis_stmts(scope: &Scope<'_>, table: &mut [u8], i: usize) -> Result<(), Refusal>
    requires { ScopeIn kinds.genesis (in_genesis (new 0 0)) scope.now.sheet.lines.now scope.now.env table.old i }
    ensures { let s = scope.now.sheet.bytes.now in Does s (for_each (item_model (item_of (node_at s i))).genesis (check_genesis_of (typing.in_genesis (typing.new (model_in s) [])))) table.old result table.new }
{
    check_records(
        &scope.sheet,
        table,
        i + 1,
        genesis_count(scope.sheet.lines, i),
        |table, at| { check_genesis(scope, table, at) },
    )
}

// The statements of genesis.
#[tactic(auto, using(crate::proofs::Passing::items_in))]
fn check_genesis_stmts(sheet: &LoadedSheet<'_>, table: &mut [u8]) -> Result<(), Refusal>
    requires { line_count sheet.now.lines.now ≤ length table.old }
    ensures { Does sheet.now.bytes.now (for_each (model_in sheet.now.bytes.now).genesis (check_genesis_of (typing.in_genesis (typing.new (model_in sheet.now.bytes.now) [])))) table.old result table.new }
{
    let scope = Scope::new(sheet, 0, 0).in_genesis();
    check_items(
        &scope.sheet,
        table,
        Kind::Genesis,
        |table, i| genesis_stmts(&scope, table, i),
    )
}

// All entries.
#[tactic(auto, using(crate::proofs::Passing::items_in))]
fn check_entries(sheet: &LoadedSheet<'_>, table: &mut [u8]) -> Result<(), Refusal>
    requires { SheetIn sheet.now.lines.now table.old }
    ensures { Does sheet.now.bytes.now (for_each (model_in sheet.now.bytes.now).entries (check_entry_of (model_in sheet.now.bytes.now))) table.old result table.new }
{
    check_items(
        sheet,
        table,
        Kind::Entry,
        |table, i| check_entry(sheet, table, i),
    )
}

// What comes before the first entry.
#[tactic(auto, using(crate::proofs::Passing::room_needs), unfolding(rules::specs::Check::before_entries, rules::proofs::Binding::and_then, refusals::specs::Refusal::done_of))]
pub fn before_entries(sheet: &LoadedSheet<'_>, table: &mut [u8]) -> Result<(), Refusal>
    requires { line_count sheet.now.lines.now ≤ length table.old }
    ensures { Does sheet.now.bytes.now (before_entries (model_in sheet.now.bytes.now)) table.old result table.new }
{
    check_fields(sheet, table)?;
    check_events(sheet, table)?;
    guardian_fields(sheet)?;
    check_params(sheet, table)?;
    check_invariants(sheet, table)
}

// The rules on a sheet that is read: accepted, or the first refusal, and the table with the types asked. Of several
// guardian sets with a bad size among the fields the Rust may name any; the first in the sheet is named here.
#[tactic(auto, using(crate::proofs::Passing::sheet_needs), unfolding(rules::specs::Check::check, rules::proofs::Binding::and_then, refusals::specs::Refusal::done_of))]
pub fn check(sheet: &LoadedSheet<'_>, table: &mut [u8]) -> Result<(), Refusal>
    requires { SheetIn sheet.now.lines.now table.old }
    ensures { Does sheet.now.bytes.now (check_of (model_in sheet.now.bytes.now)) table.old result table.new }
{
    before_entries(sheet, table)?;
    check_entries(sheet, table)?;
    check_key_kinds(sheet)?;
    check_genesis_stmts(sheet, table)
}
