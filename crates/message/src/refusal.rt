// The message of each refusal.
#![tactic(auto, unfolding(refusals::specs::Refusal::refusal_of, rules::specs::Text::render))]

ghost use Rattle.rules.specs.Text.{render};
ghost use Rattle.refusals.specs.Refusal.{refusal_of};
ghost use Rattle.refusals.specs.Numbers.{From};
ghost use Rattle.writing.specs.Writing.{Adds};

use crate::between::{say_method, say_name};
use crate::compound::{
    add_arity, add_compared, add_emit_field, add_holds, add_inner, add_keyed_op, add_overflow,
    add_slot, add_too_large, add_unknown,
};
use crate::wording::{
    ADDRESS, AMOUNT, ARITHMETIC, ASSET_SLOT, DEFAULT, DIGEST, DROPPED, GUARDIAN, KEY_KINDS, LOCAL,
    LOGICAL, NAME_INTO_ADDRESS, NAME_NOT_PARAM, NAME_STORED, NAME_WANTED, NAMES_COMPARED, NARROW,
    NO_ARGUMENTS, ONLY_TYPES, ORDERING, PREDICATE, REACHED, REACHES_EVENT, REACHES_FIELD,
    REACHES_VALUES, RECEIVER, RECIPIENT, WRAPPING_INTO_NARROW,
};
use refusals::Refusal;
use sheet::LoadedSheet;
use writing::{Message, type_name_of};

// Adds the message of a refusal. Here and below the sheet and the message stand side by side: a `Message` that held the sheet was tried, and then
// who writes a number or a literal alone owes a loaded sheet, and each promise is longer, as it names the sheet of the message before.
pub fn add_message(sheet: &LoadedSheet<'_>, message: &mut Message<'_>, r: Refusal)
    ensures { Adds (render (refusal_of sheet.now.bytes.now r).text) message.old message.new }
{
    match r {
        Refusal::NameStored(_) => message.add(&NAME_STORED),
        Refusal::Arity(ty) => add_arity(sheet, message, ty),
        Refusal::OnlyTypes(ty) => say_name(sheet, message, b"a ", ty, &ONLY_TYPES),
        Refusal::InnerType { ty, inner, is_key } => add_inner(sheet, message, ty, inner, is_key),
        Refusal::UnknownType(ty) => add_unknown(sheet, message, ty),
        Refusal::NoArguments(ty) => say_name(sheet, message, b"`", ty, &NO_ARGUMENTS),
        Refusal::Digest(named) => say_name(sheet, message, b"`", named, &DIGEST),
        Refusal::Default { field, .. } => message.say(
            b"a ",
            type_name_of(sheet.bytes, sheet.lines, field),
            &DEFAULT,
        ),
        Refusal::Guardian(_) => message.add(&GUARDIAN),
        _ => add_from_21(sheet, message, r),
    }
}

// The same from 21 on. In parts, since a function has 40 lines at most; the last arm of all can't come (`From`).
fn add_from_21(sheet: &LoadedSheet<'_>, message: &mut Message<'_>, r: Refusal)
    requires from { From 21 r }
    ensures { Adds (render (refusal_of sheet.now.bytes.now r).text) message.old message.new }
{
    match r {
        Refusal::Predicate(_) => message.add(&PREDICATE),
        Refusal::ReachesField { target, .. } => say_name(
            sheet,
            message,
            &REACHES_FIELD,
            target,
            &REACHED,
        ),
        Refusal::ReachesValues { map, .. } => say_name(
            sheet,
            message,
            &REACHES_VALUES,
            map,
            &REACHED,
        ),
        Refusal::ReachesEvent { emit, .. } => say_name(
            sheet,
            message,
            &REACHES_EVENT,
            emit,
            &REACHED,
        ),
        Refusal::CollectionLocal(_) => message.add(&LOCAL),
        Refusal::AssetSlot(_) => message.add(&ASSET_SLOT),
        _ => add_from_25(sheet, message, r),
    }
}

// The same from 25 on.
fn add_from_25(sheet: &LoadedSheet<'_>, message: &mut Message<'_>, r: Refusal)
    requires from { From 25 r }
    ensures { Adds (render (refusal_of sheet.now.bytes.now r).text) message.old message.new }
{
    match r {
        Refusal::NameIntoAddress { target, .. } => say_name(
            sheet,
            message,
            &NAME_INTO_ADDRESS,
            target,
            &ADDRESS,
        ),
        Refusal::WrappingIntoNarrow { target, .. } => say_name(
            sheet,
            message,
            &WRAPPING_INTO_NARROW,
            target,
            &NARROW,
        ),
        Refusal::LiteralIntoNarrow { target, value, max } => add_too_large(
            sheet, message, target, value, max,
        ),
        Refusal::SlotMismatch { slot, given, .. } => add_slot(message, slot, given),
        Refusal::Recipient(_) => message.add(&RECIPIENT),
        _ => add_from_30(sheet, message, r),
    }
}

// The same from 30 on.
fn add_from_30(sheet: &LoadedSheet<'_>, message: &mut Message<'_>, r: Refusal)
    requires from { From 30 r }
    ensures { Adds (render (refusal_of sheet.now.bytes.now r).text) message.old message.new }
{
    match r {
        Refusal::Receiver(callee) => say_method(sheet, message, callee, &RECEIVER),
        Refusal::KeyedOp { callee, field } => add_keyed_op(sheet, message, callee, field),
        Refusal::Amount { callee, .. } => say_method(sheet, message, callee, &AMOUNT),
        Refusal::NameNotParam { field, .. } => say_name(
            sheet,
            message,
            b"`",
            field,
            &NAME_NOT_PARAM,
        ),
        Refusal::NameWanted { field, .. } => say_name(sheet, message, b"`", field, &NAME_WANTED),
        Refusal::Holds {
            field,
            want,
            got,
            ..
        } => add_holds(sheet, message, field, want, got),
        _ => add_from_36(sheet, message, r),
    }
}

// The same from 36 on.
fn add_from_36(sheet: &LoadedSheet<'_>, message: &mut Message<'_>, r: Refusal)
    requires from { From 36 r }
    ensures { Adds (render (refusal_of sheet.now.bytes.now r).text) message.old message.new }
{
    match r {
        Refusal::Not(_) => message.add(b"`!` needs a boolean"),
        Refusal::Neg(_) => message.add(b"`-` needs a number"),
        Refusal::Logical(_) => message.add(&LOGICAL),
        Refusal::Arithmetic(_) => message.add(&ARITHMETIC),
        Refusal::Ordering(_) => message.add(&ORDERING),
        Refusal::NamesCompared(_) => message.add(&NAMES_COMPARED),
        Refusal::Compared { l, r, .. } => add_compared(message, l, r),
        Refusal::EmitField { param, got, .. } => add_emit_field(sheet, message, param, got),
        Refusal::Dropped(_) => message.add(&DROPPED),
        Refusal::Overflow(assign) => add_overflow(sheet, message, assign),
        Refusal::KeyKinds { map, .. } => say_name(sheet, message, b"`", map, &KEY_KINDS),
        _ => {}
    }
}
