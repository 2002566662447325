// Lookups by name. `HashMap` becomes a search by name, the last one winning.
ghost use Rattle.std.specs.Prelude.{◌&&◌, ◌≡◌, ◌<◌, eqb, suc};
ghost use Rattle.text.specs.Text.{same};
ghost use Rattle.grammar.specs.Grammar.{Item};
ghost use Rattle.grammar.specs.Coded.{kind_number};
ghost use Rattle.sheet.specs.Scratch.{kind_at, line_count, name_at};
ghost use Rattle.lookups.specs.Found.{FieldNamed, FieldsNamed, Last, Newest, Stretch};
ghost use Rattle.lookups.specs.Lines.{KindAt};
ghost use Rattle.rules.specs.Arithmetic.{any};
ghost use Rattle.rules.specs.Ast.{type_name};
ghost use Rattle.rules.specs.Standing.{Row, entry_at};
ghost use Rattle.grammar.specs.Kinds as kinds;

use grammar::{Kind, Tells};
use sheet::{LoadedSheet, field_count, item_count, kind, param_count};
use text::is_word;

// Whether line i is a record of the kind with the number k, and has the name x.
fn is_of_kind(sheet: &LoadedSheet<'_>, k: usize, x: &[u8], i: usize) -> bool
    ensures { result ≡ (eqb (kind_at sheet.now.lines.now i) k && same x.now (name_at sheet.now.bytes.now sheet.now.lines.now i)) }
{
    (kind(sheet.lines, i) == k) && is_word(x, sheet.name(i))
}

// Whether line i is a record of kind k with the name x.
pub fn is_named(sheet: &LoadedSheet<'_>, k: Kind, x: &[u8], i: usize) -> bool
    ensures { result ≡ (eqb (kind_at sheet.now.lines.now i) (kind_number k) && same x.now (name_at sheet.now.bytes.now sheet.now.lines.now i)) }
{
    is_of_kind(sheet, k.number(), x, i)
}

// The last record of the kind with the number k that has the name x, among count records, the first of which stands at line from. A loop, as below: of
// `filter(..).last()` it would be left to show which lines the filter passes.
fn last_of_kind(
    sheet: &LoadedSheet<'_>,
    k: usize,
    x: &[u8],
    from: usize,
    count: usize,
) -> Option<usize>
    requires { Stretch sheet.now.lines.now count from }
    ensures { Last sheet.now.bytes.now sheet.now.lines.now k x.now count from result }
{
    let mut found = None;
    for at in sheet.records(from, count) {
        if is_of_kind(sheet, k, x, at) {
            found = Some(at);
        }
    }
    found
}

// The same, for a kind or its number.
pub fn last_named<K: Tells<usize>>(
    sheet: &LoadedSheet<'_>,
    k: K,
    x: &[u8],
    from: usize,
    count: usize,
) -> Option<usize>
    requires { Stretch sheet.now.lines.now count from }
    ensures { Last sheet.now.bytes.now sheet.now.lines.now (K.meaning k) x.now count from result }
{
    last_of_kind(sheet, k.told(), x, from, count)
}

// The last field of the name x that the state at a line declares, else what was found before.
fn newest_field(
    sheet: &LoadedSheet<'_>,
    x: &[u8],
    state: usize,
    found: Option<usize>,
) -> Option<usize>
    requires { KindAt kinds.state sheet.now.lines.now state }
    ensures { Newest sheet.now.bytes.now sheet.now.lines.now x.now state found result }
{
    last_named(
        sheet,
        Kind::Field,
        x,
        state + 1,
        field_count(sheet.lines, state),
    )
    .or(found)
}

// The last state field of the name x among those of count items, the first of which stands at line from.
pub fn fields_named(sheet: &LoadedSheet<'_>, x: &[u8], from: usize, count: usize) -> Option<usize>
    requires { Row sheet.now.lines.now Item count from }
    ensures { FieldsNamed sheet.now.bytes.now sheet.now.lines.now x.now count from result }
{
    let mut found = None;
    for at in sheet.records(from, count) {
        if sheet.is(at, Kind::State) {
            found = newest_field(sheet, x, at, found);
        }
    }
    found
}

// `model.state.get(x)`: the last state field of the name x.
pub fn field_named(sheet: &LoadedSheet<'_>, x: &[u8]) -> Option<usize>
    ensures { FieldNamed sheet.now.bytes.now sheet.now.lines.now x.now result }
{
    fields_named(sheet, x, 1, item_count(sheet.lines, 0))
}

// Whether the parameter at a line has the name x and a type of the name ty.
fn is_typed(sheet: &LoadedSheet<'_>, x: &[u8], ty: &[u8], param: usize) -> bool
    requires { param < line_count sheet.now.lines.now }
    ensures { result ≡ (same (name_at sheet.now.bytes.now sheet.now.lines.now (suc param)) ty.now && same x.now (name_at sheet.now.bytes.now sheet.now.lines.now param)) }
{
    is_word(sheet.name(param + 1), ty) & is_word(x, sheet.name(param))
}

// Whether an entry has a parameter of the name x and of a type of the name ty.
pub fn has_param(sheet: &LoadedSheet<'_>, entry: usize, x: &[u8], ty: &[u8]) -> bool
    requires { KindAt kinds.entry sheet.now.lines.now entry }
    ensures { result ≡ any (λ p. same (type_name p.ty) ty.now && same x.now p.name) (entry_at sheet.now.bytes.now entry).params }
{
    sheet
        .records(entry + 1, param_count(sheet.lines, entry))
        .any(|at| is_typed(sheet, x, ty, at))
}
