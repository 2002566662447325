// Messages of several parts.
ghost use Rattle.std.specs.Prelude.{suc};
ghost use Rattle.rules.specs.Arithmetic.{overflow_text};
ghost use Rattle.rules.specs.Ast.{type_name};
ghost use Rattle.rules.specs.Declarations.{arity_text, inner_text, unknown_text};
ghost use Rattle.rules.specs.Standing.{field_at, named_at, param_at, type_at};
ghost use Rattle.rules.specs.Statements.{emit_text, literal_text, slot_text};
ghost use Rattle.rules.specs.Text.{digits, render};
ghost use Rattle.rules.specs.Typing.{compared_text, holds_text, keyed_op_text};
ghost use Rattle.refusals.specs.Refusal.{arity, dot_at, literal_at};
ghost use Rattle.writing.specs.Writing.{Adds};

use crate::between::{say_described, say_method, say_name};
use crate::wording::{EMIT_FIELD, LARGEST, OVERFLOW, UNBOUNDED};
use declarations::arity_of;
use grammar::Kind;
use narrow::exceeds;
use rules::Ty;
use sheet::{LoadedSheet, line_count};
use writing::Message;

// 13, of a Map or Registry
pub fn add_arity(sheet: &LoadedSheet<'_>, message: &mut Message<'_>, ty: usize)
    ensures { Adds (render (arity_text (type_at sheet.now.bytes.now ty) (arity (type_name (type_at sheet.now.bytes.now ty))))) message.old message.new }
{
    say_name(sheet, message, b"a ", ty, b" takes ");
    message.add_decimal(arity_of(sheet.name(ty)).unwrap_or(0) as u64);
    message.add(b" type arguments");
}

// 15
pub fn add_inner(
    sheet: &LoadedSheet<'_>,
    message: &mut Message<'_>,
    ty: usize,
    inner: usize,
    key: bool,
)
    ensures { Adds (render (inner_text (type_at sheet.now.bytes.now ty) (type_at sheet.now.bytes.now inner) key)) message.old message.new }
{
    message.add(b"`");
    message.add_type(sheet, inner);
    if key {
        return say_name(sheet, message, b"` cannot be a ", ty, b" key");
    }
    say_name(sheet, message, b"` cannot be a ", ty, b" value");
}

// 16
pub fn add_unknown(sheet: &LoadedSheet<'_>, message: &mut Message<'_>, ty: usize)
    ensures { Adds (render (unknown_text (type_at sheet.now.bytes.now ty))) message.old message.new }
{
    message.add(b"`");
    message.add_type(sheet, ty);
    message.add(b"` is not a known type");
}

// Adds the number of the literal at line i.
fn add_literal_at(sheet: &LoadedSheet<'_>, message: &mut Message<'_>, i: usize)
    ensures { Adds (digits 39 (literal_at sheet.now.bytes.now i)) message.old message.new }
{
    if !sheet.is(i, Kind::Int) {
        return message.add(b"0");
    }
    let text = sheet.name(i);
    if exceeds(text, 0) {
        return message.add_literal(text);
    }
    message.add(b"0");
}

// 27
pub fn add_too_large(
    sheet: &LoadedSheet<'_>,
    message: &mut Message<'_>,
    target: usize,
    value: usize,
    max: u64,
)
    ensures { Adds (render (literal_text (named_at sheet.now.bytes.now target) (literal_at sheet.now.bytes.now value) max)) message.old message.new }
{
    add_literal_at(sheet, message, value);
    say_name(sheet, message, b" does not fit `", target, &LARGEST);
    message.add_decimal(max);
}

// 28
pub fn add_slot(message: &mut Message<'_>, slot: Ty, given: Ty)
    ensures { Adds (render (slot_text slot given)) message.old message.new }
{
    say_described(message, b"a ", given, b" value cannot be stored in a ");
    say_described(message, b"", slot, b" slot");
}

// 31
pub fn add_keyed_op(sheet: &LoadedSheet<'_>, message: &mut Message<'_>, callee: usize, field: usize)
    ensures { Adds (render (keyed_op_text (dot_at sheet.now.bytes.now callee).name (field_at sheet.now.bytes.now field))) message.old message.new }
{
    say_method(sheet, message, callee, b"` does not apply to `");
    say_name(sheet, message, b"", field, b"`, a ");
    message.add_type_of(sheet, field);
}

// 35
pub fn add_holds(
    sheet: &LoadedSheet<'_>,
    message: &mut Message<'_>,
    field: usize,
    want: Ty,
    got: Ty,
)
    ensures { Adds (render (holds_text (field_at sheet.now.bytes.now field).name want got)) message.old message.new }
{
    say_name(sheet, message, b"`", field, b"` holds ");
    say_described(message, b"", want, b" here, not a ");
    say_described(message, b"", got, b" value");
}

// 42
pub fn add_compared(message: &mut Message<'_>, l: Ty, r: Ty)
    ensures { Adds (render (compared_text l r)) message.old message.new }
{
    say_described(message, b"a ", l, b" cannot be compared with a ");
    say_described(message, b"", r, b"");
}

// 43
pub fn add_emit_field(sheet: &LoadedSheet<'_>, message: &mut Message<'_>, param: usize, got: Ty)
    ensures { Adds (render (emit_text (param_at sheet.now.bytes.now param) got)) message.old message.new }
{
    say_name(
        sheet,
        message,
        b"the event field `",
        param,
        b"` is declared ",
    );
    message.add_type_of(sheet, param);
    say_described(message, b", so it cannot carry a ", got, &EMIT_FIELD);
}

// 45
pub fn add_overflow(sheet: &LoadedSheet<'_>, message: &mut Message<'_>, assign: usize)
    ensures { Adds (render (overflow_text (named_at sheet.now.bytes.now (suc assign)))) message.old message.new }
{
    if assign < line_count(sheet.lines) {
        return say_name(sheet, message, &OVERFLOW, assign + 1, &UNBOUNDED);
    }
    message.say(&OVERFLOW, b"", &UNBOUNDED);
}
