// Names, types and descriptions between two fixed texts.
ghost use Rattle.std.specs.Prelude.{◌++◌, ◌≡◌};
ghost use Rattle.text.specs.Text.{bytes};
ghost use Rattle.rules.specs.Types.{describe};
ghost use Rattle.rules.specs.Standing.{named_at};
ghost use Rattle.refusals.specs.Refusal.{dot_at};
ghost use Rattle.writing.specs.Writing.{Adds};

use grammar::Kind;
use rules::Ty;
use sheet::LoadedSheet;
use writing::Message;

// Adds the name of the record at line i between two texts.
pub fn say_name(
    sheet: &LoadedSheet<'_>,
    message: &mut Message<'_>,
    before: &[u8],
    i: usize,
    after: &[u8],
)
    ensures { Adds (before.now ++ (named_at sheet.now.bytes.now i ++ after.now)) message.old message.new }
{
    message.say(before, sheet.name(i), after);
}

// Adds the name of the dot at line i between a backtick and a text; no name where there is no dot.
pub fn say_method(sheet: &LoadedSheet<'_>, message: &mut Message<'_>, i: usize, after: &[u8])
    ensures { Adds (bytes "`" ++ ((dot_at sheet.now.bytes.now i).name ++ after.now)) message.old message.new }
{
    if sheet.is(i, Kind::Dot) {
        return message.say(b"`", sheet.name(i), after);
    }
    message.say(b"`", b"", after);
}

// What a type is called. No `Display`: a formatter would want a `fmt::Write` of `Message`, which is `add`.
fn describe(ty: Ty) -> &'static [u8]
    ensures { result.now ≡ bytes (describe ty) }
{
    match ty {
        Ty::Int => b"number",
        Ty::Bool => b"boolean",
        Ty::Address => b"address",
        Ty::Asset => b"asset",
        Ty::Word64 => b"64 bit word",
        Ty::Name => b"name",
        Ty::Time => b"time",
        Ty::Str => b"string",
        Ty::Collection => b"collection",
        Ty::Unknown => b"value",
    }
}

// Adds what a type is called between two texts.
pub fn say_described(message: &mut Message<'_>, before: &[u8], ty: Ty, after: &[u8])
    ensures { Adds (before.now ++ (bytes (describe ty) ++ after.now)) message.old message.new }
{
    message.say(before, describe(ty), after);
}
