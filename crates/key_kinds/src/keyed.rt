// Keyed calls, their maps and their keys.
ghost use Rattle.std.specs.Prelude.{◌≡◌, ◌<◌};
ghost use Rattle.grammar.specs.Grammar.{Expr};
ghost use Rattle.grammar.specs.Kinds as kinds;
ghost use Rattle.sheet.specs.Scratch.{line_count};
ghost use Rattle.rules.specs.KeyKinds.{is_name_key};
ghost use Rattle.rules.specs.Standing.{expr_at, Here};
ghost use Rattle.lookups.specs.Lines.{KindAt};
ghost use Rattle.key_kinds.specs.Uses.{MapNamed, keyed_at, names_at};

use grammar::Kind;
use lookups::{field_named, has_param, is_keyed};
use sheet::{LoadedSheet, call_arg_count};
use text::place_in;

// Whether line at is a call of a map's method with a key.
pub fn is_keyed_call(sheet: &LoadedSheet<'_>, at: usize) -> bool
    requires { at < line_count sheet.now.lines.now }
    ensures { result ≡ keyed_at sheet.now.bytes.now sheet.now.lines.now at }
{
    if !sheet.is(at, Kind::Call) {
        return false;
    }
    let of_name = sheet.is(at + 1, Kind::Dot) & sheet.is(at + 2, Kind::Id);
    if (call_arg_count(sheet.lines, at) == 0) | !of_name {
        return false;
    }
    let method = sheet.name(at + 1);
    place_in(method, b"set get contains insert remove credit debit ").is_some()
}

// The line of the Map or Registry of the name x.
pub fn map_named(sheet: &LoadedSheet<'_>, x: &[u8]) -> Option<usize>
    ensures { MapNamed sheet.now.bytes.now sheet.now.lines.now x.now result }
{
    let field = field_named(sheet, x)?;
    is_keyed(sheet.name(field + 1)).then_some(field)
}

// Whether the key is a bare name of any Q_Name parameter of the entry.
pub fn is_name_key(sheet: &LoadedSheet<'_>, entry: usize, key: usize) -> bool
    requires entry_at { KindAt kinds.entry sheet.now.lines.now entry }
    requires key_at { Here sheet.now.lines.now Expr key }
    ensures { result ≡ is_name_key (names_at sheet.now.bytes.now entry) (expr_at sheet.now.bytes.now key) }
{
    if !sheet.is(key, Kind::Id) {
        return false;
    }
    has_param(sheet, entry, sheet.name(key), b"Q_Name")
}
