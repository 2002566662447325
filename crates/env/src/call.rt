// Calls and dots: what their callee, method and base tell.
ghost use Rattle.std.specs.Prelude.{[], ◌∷◌, ◌≡◌};
ghost use Rattle.rules.specs.Standing.{expr_at, Here, type_at};
ghost use Rattle.rules.specs.Text.{is_one};
ghost use Rattle.rules.specs.Typing.{expect_asset_receiver, keyed_op_fits, ty_of_dot};
ghost use Rattle.sheet.specs.Scratch.{name_at};
ghost use Rattle.refusals.specs.Answers.{Answers};
ghost use Rattle.lookups.specs.Found.{found_field, FoundKind};
ghost use Rattle.grammar.specs.Grammar as grammar;
ghost use Rattle.grammar.specs.Kinds as kinds;
ghost use Rattle.refusals.specs.Refusal.{done_of};
ghost use Rattle.env.specs.Calls.{Callee, call_ty, get_ty, KeyedOf, method_ty, op_rule, wants_of};
ghost use Rattle.env.specs.Force.{env_of};

use crate::env::Scope;
use grammar::Kind;
use lookups::declared_arg;
use refusals::{Refusal, expect};
use rules::Ty;
use sheet::LoadedSheet;
use text::{is_word, place_in};

// The type of a dot with this name.
#[tactic(auto, unfolding(rules::specs::Typing::ty_of_dot, rules::specs::Text::pick, rules::specs::Text::is))]
pub fn ty_of_dot(x: &[u8]) -> Ty
    ensures { result ≡ ty_of_dot x.now }
{
    if is_word(x, b"amount") {
        return Ty::Int;
    }
    if is_word(x, b"signer_bits") {
        return Ty::Word64;
    }
    if is_word(x, b"first") {
        return Ty::Time;
    }
    if is_word(x, b"len") {
        Ty::Int
    } else {
        Ty::Unknown
    }
}

// How many arguments of this method are judged by the types that the Map or Registry declares.
#[tactic(auto, using(crate::proofs::Methods::laws_methods))]
pub fn wants(method: &[u8]) -> usize
    ensures { result ≡ wants_of method.now }
{
    if is_word(method, b"set") {
        return 2;
    }
    if place_in(method, b"insert remove contains get credit debit ").is_some() {
        1
    } else {
        0
    }
}

// Whether the method moves an amount.
pub fn moves_amount(method: &[u8]) -> bool
    ensures { result ≡ is_one method.now ("credit" ∷ "debit" ∷ []) }
{
    is_word(method, b"credit") | is_word(method, b"debit")
}

impl Scope<'_> {
    // The Map or Registry that a callee uses: the keyed field of a dot's base.
    pub fn keyed_of(&self, callee: usize) -> Option<usize>
        requires { Here self.now.sheet.lines.now grammar.Expr callee }
        ensures { KeyedOf self.now.sheet.bytes.now self.now.sheet.lines.now self.now.env callee result }
    {
        if !self.sheet.is(callee, Kind::Dot) {
            return None;
        }
        self.keyed_field(callee + 1)
    }

    // `merge` and `split` want a Q_Asset field.
    pub fn expect_asset_receiver(&self, callee: usize) -> Result<(), Refusal>
        requires { Here self.now.sheet.lines.now grammar.Expr callee }
        ensures { let s = self.now.sheet.bytes.now in Answers (expect_asset_receiver (env_of s [] self.now.env) (expr_at s callee)) (done_of s result) }
    {
        if !self.sheet.is(callee, Kind::Dot) {
            return Ok(());
        }
        let method = self.sheet.name(callee);
        if !(is_word(method, b"merge") | is_word(method, b"split")) {
            return Ok(());
        }
        expect(self.is_pool(callee + 1), Refusal::Receiver(callee))
    }
}

// Whether the Map or Registry of the type at line ty has the method.
fn keyed_op_fits(sheet: &LoadedSheet<'_>, ty: usize, method: &[u8]) -> bool
    requires { Here sheet.now.lines.now grammar.Ty ty }
    ensures { result ≡ keyed_op_fits (type_at sheet.now.bytes.now ty) method.now }
{
    if is_word(sheet.name(ty), b"Registry") {
        return place_in(method, b"insert remove contains ").is_some();
    }
    if place_in(method, b"set get contains remove ").is_some() {
        return true;
    }
    moves_amount(method) & (declared_arg(sheet, ty, 1) == Ty::Int)
}

// `expect_keyed_op`: the Map or Registry that the callee uses, if any, has the method.
pub fn expect_keyed_op(
    sheet: &LoadedSheet<'_>,
    callee: usize,
    keyed: Option<usize>,
) -> Result<(), Refusal>
    requires { Callee sheet.now.lines.now callee keyed }
    ensures { Answers (op_rule (found_field sheet.now.bytes.now keyed) (expr_at sheet.now.bytes.now callee)) (done_of sheet.now.bytes.now result) }
{
    if !sheet.is(callee, Kind::Dot) {
        return Ok(());
    }
    let Some(field) = keyed else {
        return Ok(());
    };
    expect(
        keyed_op_fits(sheet, field + 1, sheet.name(callee)),
        Refusal::KeyedOp { callee, field },
    )
}

// The type that `get` gives on a Map or Registry, whose declared type stands at line ty.
#[tactic(auto, using(crate::proofs::Methods::laws_methods))]
fn ty_of_get(sheet: &LoadedSheet<'_>, ty: usize) -> Ty
    requires { Here sheet.now.lines.now grammar.Ty ty }
    ensures { result ≡ get_ty (type_at sheet.now.bytes.now ty) }
{
    if !is_word(sheet.name(ty), b"Map") {
        return Ty::Int;
    }
    let value = declared_arg(sheet, ty, 1);
    if (value == Ty::Unknown) | (value == Ty::Time) {
        Ty::Int
    } else {
        value
    }
}

// The type of a call by its dot's method.
#[tactic(auto, using(crate::proofs::Methods::laws_methods))]
fn ty_of_method(sheet: &LoadedSheet<'_>, callee: usize, keyed: Option<usize>) -> Ty
    requires { FoundKind sheet.now.lines.now kinds.field keyed }
    ensures { result ≡ method_ty (name_at sheet.now.bytes.now sheet.now.lines.now callee) (found_field sheet.now.bytes.now keyed) }
{
    let method = sheet.name(callee);
    if is_word(method, b"contains") {
        return Ty::Bool;
    }
    if is_word(method, b"split") {
        return Ty::Asset;
    }
    if !is_word(method, b"get") {
        return Ty::Unknown;
    }
    match keyed {
        Some(field) => ty_of_get(sheet, field + 1),
        None => Ty::Int,
    }
}

// `ty_of_call`: the type of a call, by its callee.
#[tactic(auto, using(crate::proofs::Methods::laws_methods))]
pub fn ty_of_call(sheet: &LoadedSheet<'_>, callee: usize, keyed: Option<usize>) -> Ty
    requires { Callee sheet.now.lines.now callee keyed }
    ensures { result ≡ call_ty (found_field sheet.now.bytes.now keyed) (expr_at sheet.now.bytes.now callee) }
{
    if sheet.is(callee, Kind::Dot) {
        return ty_of_method(sheet, callee, keyed);
    }
    if sheet.is(callee, Kind::Id) & is_word(sheet.name(callee), b"mint") {
        Ty::Asset
    } else {
        Ty::Unknown
    }
}
