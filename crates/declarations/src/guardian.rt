// Guardian sets.
ghost use Rattle.std.specs.Prelude.{◌≡◌};
ghost use Rattle.rules.specs.Ast.{args};
ghost use Rattle.rules.specs.Types.{parse_u64};
ghost use Rattle.rules.specs.Declarations.{guardian_bound, guardian_fits, members_of};
ghost use Rattle.rules.specs.Standing.{Here, type_at};
ghost use Rattle.refusals.specs.Answers.{Answers};
ghost use Rattle.grammar.specs.Grammar as grammar;
ghost use Rattle.refusals.specs.Refusal.{done_of};
ghost use Rattle.declarations.specs.Tests.{size_fits};

use grammar::Kind;
use narrow::exceeds;
use refusals::{Refusal, expect};
use sheet::{LoadedSheet, type_arg_count};
use text::is_word;

// Whether a text without its underscores is a number from 1 to 256.
fn size_fits(text: &[u8]) -> bool
    ensures { result ≡ size_fits (parse_u64 text.now) }
{
    exceeds(text, 0) & !exceeds(text, 256)
}

// Whether the first argument of the `type` record at line ty is a set's size.
fn members_fit(sheet: &LoadedSheet<'_>, ty: usize) -> bool
    requires { Here sheet.now.lines.now grammar.Ty ty }
    ensures { result ≡ size_fits (members_of (args (type_at sheet.now.bytes.now ty))) }
{
    if type_arg_count(sheet.lines, ty) == 0 {
        return false;
    }
    if !sheet.is(ty + 1, Kind::Num) {
        return false;
    }
    size_fits(sheet.name(ty + 1))
}

fn guardian_fits(sheet: &LoadedSheet<'_>, ty: usize) -> bool
    requires { Here sheet.now.lines.now grammar.Ty ty }
    ensures { result ≡ guardian_fits (type_at sheet.now.bytes.now ty) }
{
    !is_word(sheet.name(ty), b"GuardianSet") | members_fit(sheet, ty)
}

pub fn guardian_bound(sheet: &LoadedSheet<'_>, ty: usize) -> Result<(), Refusal>
    requires { Here sheet.now.lines.now grammar.Ty ty }
    ensures { Answers (guardian_bound (type_at sheet.now.bytes.now ty)) (done_of sheet.now.bytes.now result) }
{
    expect(guardian_fits(sheet, ty), Refusal::Guardian(ty))
}
