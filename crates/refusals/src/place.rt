// The place of a refusal (docs/REFUSALS.md). A refusal may name any line: one that isn't there has the place 0.
ghost use Rattle.std.specs.Prelude.{◌≡◌, suc};
ghost use Rattle.rules.specs.Ast.{span as span_of};
ghost use Rattle.rules.specs.Standing.{place_at};
ghost use Rattle.refusals.specs.Refusal.{dot_at, refusal_of};
ghost use Rattle.refusals.specs.Numbers.{From};
ghost use Rattle.refusals.specs.Places.{line_of};

use crate::refusal::Refusal;
use grammar::Kind;
use sheet::{LoadedSheet, line_count, nspan, span};

// The place of the record at line i, 0 where it has none.
fn place_at(sheet: &LoadedSheet<'_>, i: usize) -> u32
    ensures { result ≡ place_at sheet.now.bytes.now i }
{
    span(sheet.bytes, sheet.lines, i)
}

// The place of the record at the line behind line i.
fn place_behind(sheet: &LoadedSheet<'_>, i: usize) -> u32
    ensures { result ≡ place_at sheet.now.bytes.now (suc i) }
{
    if i < line_count(sheet.lines) {
        place_at(sheet, i + 1)
    } else {
        0
    }
}

// The place of the base of the dot at line i.
fn place_of_base(sheet: &LoadedSheet<'_>, i: usize) -> u32
    ensures { result ≡ span_of (dot_at sheet.now.bytes.now i).base }
{
    if sheet.is(i, Kind::Dot) {
        place_behind(sheet, i)
    } else {
        place_at(sheet, i)
    }
}

// The place of the name of the dot at line i.
fn place_of_name(sheet: &LoadedSheet<'_>, i: usize) -> u32
    ensures { result ≡ (dot_at sheet.now.bytes.now i).nspan }
{
    if sheet.is(i, Kind::Dot) {
        nspan(sheet.bytes, sheet.lines, i)
    } else {
        0
    }
}

impl Refusal {
    // The line whose record's place is the refusal's.
    #[tactic(auto, using(crate::proofs::Tags::line_told), unfolding(crate::specs::Places::line_of))]
    fn line(self) -> usize
        ensures { result ≡ line_of self }
    {
        match self {
            Refusal::NameStored(ty) => ty,
            Refusal::Arity(ty) => ty,
            Refusal::OnlyTypes(ty) => ty,
            Refusal::InnerType { inner, .. } => inner,
            Refusal::UnknownType(ty) => ty,
            Refusal::NoArguments(ty) => ty,
            Refusal::Digest(named) => named,
            Refusal::Default { value, .. } => value,
            Refusal::Guardian(ty) => ty,
            Refusal::Predicate(e) => e,
            Refusal::ReachesField { value, .. } => value,
            Refusal::ReachesValues { value, .. } => value,
            Refusal::ReachesEvent { value, .. } => value,
            Refusal::CollectionLocal(value) => value,
            Refusal::AssetSlot(target) => target,
            Refusal::NameIntoAddress { value, .. } => value,
            Refusal::WrappingIntoNarrow { value, .. } => value,
            Refusal::LiteralIntoNarrow { value, .. } => value,
            Refusal::SlotMismatch { value, .. } => value,
            Refusal::Recipient(arg) => arg,
            _ => self.line_from_30(),
        }
    }

    // The same of 30 to 46.
    #[tactic(auto, using(crate::proofs::Tags::line_told), unfolding(crate::specs::Places::line_of))]
    fn line_from_30(self) -> usize
        requires { From 30 self }
        ensures { result ≡ line_of self }
    {
        match self {
            Refusal::Receiver(callee) => callee,
            Refusal::KeyedOp { callee, .. } => callee,
            Refusal::Amount { arg, .. } => arg,
            Refusal::NameNotParam { arg, .. } => arg,
            Refusal::NameWanted { arg, .. } => arg,
            Refusal::Holds { arg, .. } => arg,
            Refusal::Not(inner) => inner,
            Refusal::Neg(inner) => inner,
            Refusal::Logical(operand) => operand,
            Refusal::Arithmetic(operand) => operand,
            Refusal::Ordering(operand) => operand,
            Refusal::NamesCompared(left) => left,
            Refusal::Compared { right, .. } => right,
            Refusal::EmitField { arg, .. } => arg,
            Refusal::Dropped(made) => made,
            Refusal::Overflow(assign) => assign,
            Refusal::KeyKinds { key, .. } => key,
            _ => 0,
        }
    }

    // Its place on the sheet with these lines.
    pub fn place(self, sheet: &LoadedSheet<'_>) -> u32
        ensures { result ≡ (refusal_of sheet.now.bytes.now self).place }
    {
        match self {
            Refusal::Digest(named) => place_behind(sheet, named),
            Refusal::Receiver(callee) => place_of_base(sheet, callee),
            Refusal::KeyedOp { callee, .. } => place_of_name(sheet, callee),
            _ => place_at(sheet, self.line()),
        }
    }
}
