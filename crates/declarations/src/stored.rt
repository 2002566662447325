// Types that a state field or an event's parameter may have.
ghost use Rattle.std.specs.Prelude.{true, ◌≡◌, Some};
ghost use Rattle.rules.specs.Ast.{args, type_name};
ghost use Rattle.rules.specs.Declarations.{event_field_type, inner_fits, storable_arg, storable_args, storable_keyed};
ghost use Rattle.rules.specs.Declarations.{arity_of as arity_in, known as known_of, storable as storable_of};
ghost use Rattle.rules.specs.Standing.{Here, arg_at, type_at};
ghost use Rattle.refusals.specs.Answers.{Answers};
ghost use Rattle.grammar.specs.Grammar as grammar;
ghost use Rattle.refusals.specs.Refusal.{done_of};
ghost use Rattle.declarations.specs.Tests.{takes_none};

use grammar::Kind;
use lookups::ty_of_decl;
use refusals::{Refusal, expect};
use rules::Ty;
use sheet::{LoadedSheet, type_arg_count};
use text::is_word;

#[tactic(auto, unfolding(crate::specs::Tests::takes_none, rules::specs::Types::is_ty, rules::specs::Types::eq_ty, rules::specs::Asking::code))]
fn takes_no_args(ty: Ty) -> bool
    ensures { result ≡ takes_none ty }
{
    matches!(
        ty,
        Ty::Int | Ty::Bool | Ty::Time | Ty::Address | Ty::Word64 | Ty::Name
    )
}

// The last arm of `storable`, and the whole of `event_field_type`.
fn known(sheet: &LoadedSheet<'_>, ty: usize) -> Result<(), Refusal>
    requires { Here sheet.now.lines.now grammar.Ty ty }
    ensures { Answers (known_of (type_at sheet.now.bytes.now ty)) (done_of sheet.now.bytes.now result) }
{
    let decl = ty_of_decl(sheet, ty);
    if decl == Ty::Unknown {
        return Err(Refusal::UnknownType(ty));
    }
    expect(
        !takes_no_args(decl) | (type_arg_count(sheet.lines, ty) == 0),
        Refusal::NoArguments(ty),
    )
}

pub fn event_field_type(sheet: &LoadedSheet<'_>, ty: usize) -> Result<(), Refusal>
    requires { Here sheet.now.lines.now grammar.Ty ty }
    ensures { Answers (event_field_type (type_at sheet.now.bytes.now ty)) (done_of sheet.now.bytes.now result) }
{
    known(sheet, ty)
}

// How many arguments a Map or Registry takes; None for another name.
#[tactic(auto, unfolding(rules::specs::Declarations::arity_of, rules::specs::Text::pick, rules::specs::Text::is))]
pub fn arity_of(name: &[u8]) -> Option<usize>
    ensures { result ≡ arity_in name.now }
{
    if is_word(name, b"Map") {
        return Some(2);
    }
    is_word(name, b"Registry").then_some(1)
}

// Whether the type at line inner may be a key or value of the Map or Registry at line ty.
fn inner_fits(sheet: &LoadedSheet<'_>, ty: usize, inner: usize, key: bool) -> bool
    requires { Here sheet.now.lines.now grammar.Ty inner }
    ensures { result ≡ inner_fits (type_name (type_at sheet.now.bytes.now ty)) key (type_at sheet.now.bytes.now inner) }
{
    match ty_of_decl(sheet, inner) {
        Ty::Name => key | is_word(sheet.name(ty), b"Map"),
        Ty::Unknown | Ty::Asset | Ty::Str | Ty::Collection => false,
        _ => type_arg_count(sheet.lines, inner) == 0,
    }
}

// The argument at line arg of the Map or Registry at line ty.
fn storable_arg(sheet: &LoadedSheet<'_>, ty: usize, arg: usize, key: bool) -> Result<(), Refusal>
    requires { Here sheet.now.lines.now grammar.Arg arg }
    ensures { Answers (storable_arg (type_at sheet.now.bytes.now ty) key (arg_at sheet.now.bytes.now arg)) (done_of sheet.now.bytes.now result) }
{
    if !sheet.is(arg, Kind::Type) {
        return Err(Refusal::OnlyTypes(ty));
    }
    let why = Refusal::InnerType {
        ty,
        inner: arg,
        is_key: key,
    };
    expect(inner_fits(sheet, ty, arg, key), why)
}

fn storable_args(sheet: &LoadedSheet<'_>, ty: usize) -> Result<(), Refusal>
    requires { Here sheet.now.lines.now grammar.Ty ty }
    ensures { Answers (storable_args (type_at sheet.now.bytes.now ty) true (args (type_at sheet.now.bytes.now ty))) (done_of sheet.now.bytes.now result) }
{
    let mut is_key = true;
    for arg in sheet.records(ty + 1, type_arg_count(sheet.lines, ty)) {
        storable_arg(sheet, ty, arg, is_key)?;
        is_key = false;
    }
    Ok(())
}

fn storable_keyed(sheet: &LoadedSheet<'_>, ty: usize, arity: usize) -> Result<(), Refusal>
    requires ty_at { Here sheet.now.lines.now grammar.Ty ty }
    requires arity_of_ty { arity_in (type_name (type_at sheet.now.bytes.now ty)) ≡ Some arity }
    ensures { Answers (storable_keyed (type_at sheet.now.bytes.now ty) arity) (done_of sheet.now.bytes.now result) }
{
    if type_arg_count(sheet.lines, ty) != arity {
        return Err(Refusal::Arity(ty));
    }
    storable_args(sheet, ty)
}

pub fn storable(sheet: &LoadedSheet<'_>, ty: usize) -> Result<(), Refusal>
    requires { Here sheet.now.lines.now grammar.Ty ty }
    ensures { Answers (storable_of (type_at sheet.now.bytes.now ty)) (done_of sheet.now.bytes.now result) }
{
    let word = sheet.name(ty);
    if is_word(word, b"Q_Name") {
        return Err(Refusal::NameStored(ty));
    }
    match arity_of(word) {
        Some(arity) => storable_keyed(sheet, ty, arity),
        None => known(sheet, ty),
    }
}
