// The largest number of a narrow slot.
ghost use Rattle.std.specs.Prelude.{◌≡◌, slice_get};
ghost use Rattle.grammar.specs.Grammar.{Ty};
ghost use Rattle.rules.specs.Ast.{args};
ghost use Rattle.rules.specs.Assets.{narrow_arg, narrow_values};
ghost use Rattle.rules.specs.Types.{narrow_max};
ghost use Rattle.rules.specs.Standing.{Here, model_in, type_at};
ghost use Rattle.rules.specs.Statements.{narrow_field};

use grammar::Kind;
use lookups::field_named;
use sheet::{LoadedSheet, type_arg_count};
use text::is_word;

// The largest number of the narrow type of this name; None where it is none.
#[tactic(auto, unfolding(rules::specs::Types::narrow_max, rules::specs::Text::pick, rules::specs::Text::is))]
pub fn narrow_max(ty: &[u8]) -> Option<u64>
    ensures { result ≡ narrow_max ty.now }
{
    if is_word(ty, b"bool") {
        return Some(1);
    }
    if is_word(ty, b"u8") {
        return Some(255);
    }
    if is_word(ty, b"u16") {
        return Some(65535);
    }
    is_word(ty, b"u32").then_some(4294967295)
}

// The largest number of the state field x; None where there is no such field, or it is wide.
pub fn narrow_field(sheet: &LoadedSheet<'_>, x: &[u8]) -> Option<u64>
    ensures { result ≡ narrow_field (model_in sheet.now.bytes.now) x.now }
{
    let f = field_named(sheet, x)?;
    narrow_max(sheet.name(f + 1))
}

// The largest number of the second argument of the `type` record at line ty.
fn narrow_arg(sheet: &LoadedSheet<'_>, ty: usize) -> Option<u64>
    requires { Here sheet.now.lines.now Ty ty }
    ensures { result ≡ narrow_arg (slice_get (args (type_at sheet.now.bytes.now ty)) 1) }
{
    if type_arg_count(sheet.lines, ty) <= 1 {
        return None;
    }
    let at = sheet.end(ty + 1);
    if !sheet.is(at, Kind::Type) {
        return None;
    }
    narrow_max(sheet.name(at))
}

// The largest number of the values of the state field x; None where there is no such field, or they are wide.
pub fn narrow_values(sheet: &LoadedSheet<'_>, x: &[u8]) -> Option<u64>
    ensures { result ≡ narrow_values (model_in sheet.now.bytes.now) x.now }
{
    let f = field_named(sheet, x)?;
    narrow_arg(sheet, f + 1)
}
