// Declared types.
ghost use Rattle.std.specs.Prelude.{[], ◌∷◌, ◌≡◌, suc, ◌<◌, get_or, length};
ghost use Rattle.rules.specs.declared.ty.Ty.TheVariants.{Unknown};
ghost use Rattle.rules.specs.Types.{compatible, numeric, one_word};
ghost use Rattle.rules.specs.Types.{declared_arg, is_zero_literal, ty_of_decl, ty_of_name, zero_digit};
ghost use Rattle.text.specs.Text.{all};
ghost use Rattle.rules.specs.Text.{is_one};
ghost use Rattle.rules.specs.Standing.{expr_at, Here, type_at};
ghost use Rattle.grammar.specs.Grammar as grammar;
ghost use Rattle.sheet.specs.Scratch.{skip, line_count};
ghost use Rattle.lookups.specs.Named.{named_types};

use grammar::{Kind, Tells};
use rules::Ty;
use sheet::{LoadedSheet, end, type_arg_count};
use text::{is_word, place_in};

// The type that the name at a place of the table in ty_in_table means.
fn named(place: usize) -> Ty
    requires { place < 20 }
    ensures { result ≡ get_or named_types place Unknown }
{
    NAMED[place]
}

// In the order of the words. A map would need a heap, and a `match` on the words is a tree of comparisons with a goal for each.
const NAMED: [Ty; 20] = [
    Ty::Int,
    Ty::Int,
    Ty::Int,
    Ty::Int,
    Ty::Int,
    Ty::Int,
    Ty::Int,
    Ty::Int,
    Ty::Int,
    Ty::Int,
    Ty::Bool,
    Ty::Address,
    Ty::Asset,
    Ty::Word64,
    Ty::Name,
    Ty::Time,
    Ty::Int,
    Ty::Collection,
    Ty::Collection,
    Ty::Collection,
];

fn ty_in_table(name: &[u8]) -> Ty
    ensures { result ≡ ty_of_name name.now }
{
    let place = place_in(
        name,
        b"u8 u16 u32 u64 u128 i8 i16 i32 i64 i128 bool Q_Address Q_Asset Q_Word64 Q_Name Time Q_Id Map Registry GuardianSet ",
    );
    match place {
        Some(place) => named(place),
        None => Ty::Unknown,
    }
}

// The same, where the name may be a word whose type is ty.
fn ty_by(name: &[u8], word: &[u8], ty: Ty) -> Ty
    requires { ty ≡ ty_of_name word.now }
    ensures { result ≡ ty_of_name name.now }
{
    if is_word(name, word) {
        return ty;
    }
    ty_in_table(name)
}

// Names of three bytes.
#[tactic(auto, unfolding(rules::specs::Types::ty_of_name, rules::specs::Types::is_integer_type, rules::specs::Text::is_one, rules::specs::Text::is, rules::specs::Text::pick, text::specs::Text::same))]
fn ty_of_three(name: &[u8]) -> Ty
    requires { length name.now ≡ 3 }
    ensures { result ≡ ty_of_name name.now }
{
    let b = name[1];
    match b {
        b'6' => ty_by(name, b"u64", Ty::Int),
        b'3' => ty_by(name, b"u32", Ty::Int),
        b'a' => ty_by(name, b"Map", Ty::Collection),
        _ => ty_in_table(name),
    }
}

// The frequent names are told by their length first, and all others by the table.
#[tactic(auto, unfolding(rules::specs::Types::ty_of_name, rules::specs::Types::is_integer_type, rules::specs::Text::is_one, rules::specs::Text::is, rules::specs::Text::pick, text::specs::Text::same))]
fn ty_of_name(name: &[u8]) -> Ty
    ensures { result ≡ ty_of_name name.now }
{
    let n = name.len();
    match n {
        2 => ty_by(name, b"u8", Ty::Int),
        3 => ty_of_three(name),
        4 => ty_by(name, b"bool", Ty::Bool),
        6 => ty_by(name, b"Q_Name", Ty::Name),
        7 => ty_by(name, b"Q_Asset", Ty::Asset),
        8 => ty_by(name, b"Registry", Ty::Collection),
        9 => ty_by(name, b"Q_Address", Ty::Address),
        11 => ty_by(name, b"GuardianSet", Ty::Collection),
        _ => ty_in_table(name),
    }
}

// The type that the `type` record at line i declares.
pub fn ty_of_decl(sheet: &LoadedSheet<'_>, i: usize) -> Ty
    requires { Here sheet.now.lines.now grammar.Ty i }
    ensures { result ≡ ty_of_decl (type_at sheet.now.bytes.now i) }
{
    ty_of_name(sheet.name(i))
}

// Whether a declared type of this name holds values by keys.
#[tactic(auto, unfolding(rules::specs::Text::is_one, rules::specs::Text::is))]
pub fn is_keyed(name: &[u8]) -> bool
    ensures { result ≡ is_one name.now ("Map" ∷ "Registry" ∷ []) }
{
    is_word(name, b"Map") | is_word(name, b"Registry")
}

#[tactic(auto, unfolding(rules::specs::Types::numeric, rules::specs::Types::is_ty, rules::specs::Types::eq_ty, rules::specs::Asking::code))]
pub fn numeric<T: Tells<Ty>>(ty: T) -> bool
    ensures { result ≡ numeric (T.meaning ty) }
{
    let ty = ty.told();
    matches!(ty, Ty::Int | Ty::Time | Ty::Unknown)
}

#[tactic(auto, unfolding(rules::specs::Types::one_word, rules::specs::Types::is_ty, rules::specs::Types::eq_ty, rules::specs::Asking::code))]
pub fn one_word<T: Tells<Ty>>(ty: T) -> bool
    ensures { result ≡ one_word (T.meaning ty) }
{
    let ty = ty.told();
    matches!(ty, Ty::Int | Ty::Time | Ty::Bool)
}

// Whether a value of one type may stand where the other is wanted.
fn fits(want: Ty, got: Ty) -> bool
    ensures { result ≡ compatible want got }
{
    let same = want == got;
    if (want == Ty::Name) | (got == Ty::Name) | (want == Ty::Collection) | (got == Ty::Collection) {
        same
    } else {
        same | (want == Ty::Unknown) | (got == Ty::Unknown) | (one_word(want) & one_word(got))
    }
}

// The same, for types or the bytes that tell them.
pub fn compatible<T: Tells<Ty>, U: Tells<Ty>>(want: T, got: U) -> bool
    ensures { result ≡ compatible (T.meaning want) (U.meaning got) }
{
    fits(want.told(), got.told())
}

// The line of the first or second argument of the `type` record at line ty.
fn arg_line(lines: &[u16], ty: usize, index: usize) -> usize
    requires { (ty < line_count lines.now) × (index < 2) }
    ensures { result ≡ skip lines.now index (suc ty) }
{
    if index == 0 {
        ty + 1
    } else {
        end(lines, ty + 1)
    }
}

// The type of a declared type's argument, Unknown where it has no such type.
pub fn declared_arg(sheet: &LoadedSheet<'_>, ty: usize, index: usize) -> Ty
    requires ty_at { Here sheet.now.lines.now grammar.Ty ty }
    requires index_bound { index < 2 }
    ensures { result ≡ declared_arg (type_at sheet.now.bytes.now ty) index }
{
    if type_arg_count(sheet.lines, ty) <= index {
        return Ty::Unknown;
    }
    let at = arg_line(sheet.lines, ty, index);
    if !sheet.is(at, Kind::Type) {
        return Ty::Unknown;
    }
    ty_of_decl(sheet, at)
}

// Whether a byte of a literal's text is a zero or an underscore.
pub fn zero_digit(b: u8) -> bool
    ensures { result ≡ zero_digit b }
{
    (b == b'0') | (b == b'_')
}

fn all_zero(text: &[u8]) -> bool
    ensures { result ≡ all zero_digit text.now }
{
    text.iter().all(|b| zero_digit(*b))
}

// Whether line i is a literal of value zero.
pub fn is_zero_literal(sheet: &LoadedSheet<'_>, i: usize) -> bool
    requires { Here sheet.now.lines.now grammar.Expr i }
    ensures { result ≡ is_zero_literal (expr_at sheet.now.bytes.now i) }
{
    if !sheet.is(i, Kind::Int) {
        return false;
    }
    all_zero(sheet.name(i))
}
