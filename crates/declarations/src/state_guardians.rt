// A walk over the state fields: a field counts where no later one has its name.
ghost use Rattle.std.specs.Prelude.{map, ◌≡◌, is_some};
ghost use Rattle.rules.specs.Asking.{for_each};
ghost use Rattle.rules.specs.Ast.{field_of};
ghost use Rattle.rules.specs.Declarations.{guardian_bound};
ghost use Rattle.rules.specs.Model.{values};
ghost use Rattle.rules.specs.Standing.{field_at, model_in, node_at};
ghost use Rattle.rules.specs.Text.{last_named};
ghost use Rattle.refusals.specs.Answers.{Answers};
ghost use Rattle.lookups.specs.Found.{item_fields, model_at};
ghost use Rattle.refusals.specs.Refusal.{done_of};
ghost use Rattle.declarations.specs.Bounds.{bound_if_last, bounds_of, FieldBefore, FieldsLeft, fields_left, ItemBefore};

use crate::guardian::guardian_bound;
use grammar::Kind;
use lookups::{fields_named, last_named};
use refusals::Refusal;
use sheet::{LoadedSheet, Records, field_count, item_count};

// Whether one of the fields, or of those that the items declare, has the name x.
fn named_later(sheet: &LoadedSheet<'_>, x: &[u8], fields: Records<'_>, items: Records<'_>) -> bool
    requires { FieldsLeft sheet.now.lines.now fields items }
    ensures { result ≡ is_some (last_named (λ f. f.name) x.now (fields_left sheet.now.bytes.now fields.entry items.entry)) }
{
    if last_named(sheet, Kind::Field, x, fields.at, fields.left).is_some() {
        return true;
    }
    fields_named(sheet, x, items.at, items.left).is_some()
}

// The bound of the field at a line, behind which its item has the other fields, and the contract the items. Nearly all
// fields are within their bound, and then no name is looked for.
fn field_bound(
    sheet: &LoadedSheet<'_>,
    field: usize,
    fields: Records<'_>,
    items: Records<'_>,
) -> Result<(), Refusal>
    requires { FieldBefore sheet.now.lines.now field fields items }
    ensures { Answers (bound_if_last (field_at sheet.now.bytes.now field) (fields_left sheet.now.bytes.now fields.entry items.entry)) (done_of sheet.now.bytes.now result) }
{
    let Err(why) = guardian_bound(sheet, field + 1) else {
        return Ok(());
    };
    if named_later(sheet, sheet.name(field), fields, items) {
        return Ok(());
    }
    Err(why)
}

// The bounds of the fields that the item at a line declares, behind which the contract has the other items.
fn item_bounds(sheet: &LoadedSheet<'_>, item: usize, items: Records<'_>) -> Result<(), Refusal>
    requires { ItemBefore sheet.now.lines.now item items }
    ensures { Answers (bounds_of (map field_of (item_fields (node_at sheet.now.bytes.now item))) (model_at sheet.now.bytes.now items.entry.left items.entry.at).fields) (done_of sheet.now.bytes.now result) }
{
    if !sheet.is(item, Kind::State) {
        return Ok(());
    }
    // No `for`: the body asks what is left.
    let mut fields = sheet.records(item + 1, field_count(sheet.lines, item));
    while let Some(at) = fields.next() {
        field_bound(sheet, at, fields, items)?;
    }
    Ok(())
}

// `for field in model.state.values() { guardian_bound(&field.ty)?; }`. The Rust walks a hash map, so which of several bad
// fields it names is open; the written rules, and so this function, name the first in sheet order.
pub fn guardian_fields(sheet: &LoadedSheet<'_>) -> Result<(), Refusal>
    ensures { Answers (for_each (values (model_in sheet.now.bytes.now).fields) (λ f. guardian_bound f.ty)) (done_of sheet.now.bytes.now result) }
{
    // No `for`: the body asks what is left.
    let mut items = sheet.records(1, item_count(sheet.lines, 0));
    while let Some(at) = items.next() {
        item_bounds(sheet, at, items)?;
    }
    Ok(())
}
