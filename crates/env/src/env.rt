// `Env` and its lookups by name.
ghost use Rattle.std.specs.Prelude.{[], ◌≡◌, ◌≤◌, ◌<◌, ◌^◌, length};
ghost use Rattle.grammar.specs.Grammar as grammar;
ghost use Rattle.sheet.specs.Scratch.{line_count};
ghost use Rattle.rules.specs.Standing.{expr_at, Here, Row};
ghost use Rattle.rules.specs.Text.{get};
ghost use Rattle.rules.specs.Typing.{is_name_param, is_pool, ty_of_ident};
ghost use Rattle.env.specs.Force.{before, bind_next, env_of, FieldFound, field_ty, in_genesis, InForce, InForce-prop, KeyedFound, new, params_in};

use grammar::Kind;
use lookups::{field_named, is_keyed, last_named, ty_of_decl};
use rules::Ty;
use sheet::LoadedSheet;
use text::is_word;

// The model is that of the sheet. The parameters are `count` records from line `params` on. Of the statements from
// line `body` on, the `let`s among the first `bound` are bound; `next` is the line behind those first statements.
#[derive(Clone, Copy)]
pub struct Env {
    pub params: usize,
    pub count: usize,
    pub body: usize,
    pub bound: usize,
    pub next: usize,
    pub genesis: bool,
}

// A sheet, and what is in force at a place in it. What the rules keep beside it, a type for each line, is lent to each method that asks
// one: as a field behind a `&mut` it would owe of every method that the rest of the struct stays as it is.
#[derive(Clone, Copy)]
pub struct Scope<'a> {
    pub sheet: LoadedSheet<'a>,
    pub env: Env,
    // A slice is shorter than 2 ^ 64; a proof knows it only where the body reads that slice.
    ghost fits: { length sheet.lines.now < 2 ^ 64 },
    ghost in_force: { InForce sheet.lines.now env } by { InForce-prop sheet.lines.now env },
}

// The type of a name that is no parameter's and no local's.
#[tactic(auto, using(crate::proofs::Lookups::laws_lookups))]
fn ty_of_field(sheet: &LoadedSheet<'_>, x: &[u8]) -> Ty
    ensures { result ≡ field_ty sheet.now.bytes.now x.now }
{
    match field_named(sheet, x) {
        Some(i) => ty_of_decl(sheet, i + 1),
        None => {
            if is_word(x, b"deployer") {
                Ty::Address
            } else {
                Ty::Unknown
            }
        }
    }
}

impl<'a> Scope<'a> {
    // `count` parameters from line `params` on, and no locals.
    #[tactic(auto, unfolding(crate::specs::Force::new))]
    pub fn new(sheet: &LoadedSheet<'a>, params: usize, count: usize) -> Scope<'a>
        requires { Row sheet.now.lines.now grammar.Param count params }
        ensures sheet { result.sheet ≡ sheet.now }
        ensures env { result.env ≡ new params count }
    {
        Scope {
            sheet: *sheet,
            env: Env {
                params,
                count,
                body: 0,
                bound: 0,
                next: 0,
                genesis: false,
            },
        }
    }

    #[tactic(auto, unfolding(crate::specs::Force::in_genesis))]
    pub fn in_genesis(&self) -> Scope<'a>
        ensures sheet { result.sheet ≡ self.now.sheet }
        ensures env { result.env ≡ in_genesis self.now.env }
    {
        Scope {
            sheet: self.sheet,
            env: Env {
                genesis: true,
                ..self.env
            },
        }
    }

    // No statement is bound of those from line body on.
    #[tactic(auto, unfolding(crate::specs::Force::before))]
    pub fn before(&self, body: usize) -> Scope<'a>
        ensures sheet { result.sheet ≡ self.now.sheet }
        ensures env { result.env ≡ before body self.now.env }
    {
        Scope {
            sheet: self.sheet,
            env: Env {
                body,
                bound: 0,
                next: body,
                ..self.env
            },
        }
    }

    // The statement behind the bound ones is bound too.
    #[tactic(auto, unfolding(crate::specs::Force::bind_next))]
    pub fn bind_next(&self) -> Scope<'a>
        requires { Here self.now.sheet.lines.now grammar.Stmt self.now.env.next }
        ensures sheet { result.sheet ≡ self.now.sheet }
        ensures env { result.env ≡ bind_next self.now.sheet.lines.now self.now.env }
    {
        Scope {
            sheet: self.sheet,
            env: Env {
                bound: self.env.bound + 1,
                next: self.sheet.end(self.env.next),
                ..self.env
            },
        }
    }
}

impl Scope<'_> {
    // The type of the last parameter of the name x.
    #[tactic(auto, using(crate::proofs::Lookups::laws_lookups))]
    fn param(&self, x: &[u8]) -> Option<Ty>
        ensures { result ≡ get x.now (params_in self.now.sheet.bytes.now self.now.env) }
    {
        let i = last_named(&self.sheet, Kind::Param, x, self.env.params, self.env.count)?;
        Some(ty_of_decl(&self.sheet, i + 1))
    }

    // `ty_of_ident`: a local hides a field here. Its type is what the table has for its value, Unknown where that is no type.
    #[tactic(auto, using(crate::proofs::Lookups::laws_lookups))]
    pub fn ty_of_ident(&self, table: &[u8], x: &[u8]) -> Ty
        requires { line_count self.now.sheet.lines.now ≤ length table.now }
        ensures { result ≡ ty_of_ident (env_of self.now.sheet.bytes.now table.now self.now.env) x.now }
    {
        if let Some(ty) = self.param(x) {
            return ty;
        }
        match last_named(&self.sheet, Kind::Let, x, self.env.body, self.env.bound) {
            Some(i) => Ty::of_mark(table[i + 1]).unwrap_or(Ty::Unknown),
            None => ty_of_field(&self.sheet, x),
        }
    }

    // Whether line i is the bare name of a Q_Name parameter.
    #[tactic(auto, using(crate::proofs::Lookups::laws_lookups))]
    pub fn is_name_param(&self, i: usize) -> bool
        requires { Here self.now.sheet.lines.now grammar.Expr i }
        ensures { result ≡ is_name_param (env_of self.now.sheet.bytes.now [] self.now.env) (expr_at self.now.sheet.bytes.now i) }
    {
        if !self.sheet.is(i, Kind::Id) {
            return false;
        }
        self.param(self.sheet.name(i)) == Some(Ty::Name)
    }

    // The state field of the bare name at line i, which no parameter has; a local doesn't hide it.
    fn field_of(&self, i: usize) -> Option<usize>
        requires { Here self.now.sheet.lines.now grammar.Expr i }
        ensures { FieldFound self.now.sheet.bytes.now self.now.sheet.lines.now self.now.env i result }
    {
        if !self.sheet.is(i, Kind::Id) {
            return None;
        }
        let x = self.sheet.name(i);
        if self.param(x).is_some() {
            return None;
        }
        field_named(&self.sheet, x)
    }

    // `keyed_field`: that field where it is a Map or Registry.
    pub fn keyed_field(&self, base: usize) -> Option<usize>
        requires { Here self.now.sheet.lines.now grammar.Expr base }
        ensures { KeyedFound self.now.sheet.bytes.now self.now.sheet.lines.now self.now.env base result }
    {
        let field = self.field_of(base)?;
        is_keyed(self.sheet.name(field + 1)).then_some(field)
    }

    // Whether line base is the bare name of a Q_Asset field, the receiver that `merge` and `split` want.
    #[tactic(auto, using(crate::proofs::Lookups::laws_lookups))]
    pub fn is_pool(&self, base: usize) -> bool
        requires { Here self.now.sheet.lines.now grammar.Expr base }
        ensures { result ≡ is_pool (env_of self.now.sheet.bytes.now [] self.now.env) (expr_at self.now.sheet.bytes.now base) }
    {
        match self.field_of(base) {
            Some(i) => is_word(self.sheet.name(i + 1), b"Q_Asset"),
            None => false,
        }
    }
}
