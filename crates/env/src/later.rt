// The exception for `let`s: a line whose kept type is not the answer.
ghost use Rattle.std.specs.Prelude.{◌&&◌, [], ◌≡◌, eqb};
ghost use Rattle.grammar.specs.Grammar as grammar;
ghost use Rattle.grammar.specs.Kinds as kinds;
ghost use Rattle.sheet.specs.Scratch.{kind_at, name_at};
ghost use Rattle.rules.specs.Standing.{expr_at, Here};
ghost use Rattle.rules.specs.Text.{among};
ghost use Rattle.rules.specs.Typing.{later};
ghost use Rattle.rules.specs.Typing.{stale as stale_of};
ghost use Rattle.env.specs.Force.{ends_in, env_of};

use crate::env::Scope;
use grammar::Kind;
use lookups::last_named;

impl Scope<'_> {
    // Whether line at is an `id` with the name of a bound `let` that ends behind line i. Of those of a name the last ends last.
    #[tactic(auto, using(crate::proofs::Mentioned::laws_later))]
    fn is_later(&self, i: usize, at: usize) -> bool
        ensures { result ≡ (eqb (kind_at self.now.sheet.lines.now at) kinds.id && among (name_at self.now.sheet.bytes.now self.now.sheet.lines.now at) (later i (ends_in self.now.sheet.bytes.now self.now.env))) }
    {
        if !self.sheet.is(at, Kind::Id) {
            return false;
        }
        match last_named(
            &self.sheet,
            Kind::Let,
            self.sheet.name(at),
            self.env.body,
            self.env.bound,
        ) {
            Some(j) => i < self.sheet.end(j),
            None => false,
        }
    }

    // Whether such a name stands in the expression at line i. `check` asks no line before `next`.
    pub fn stale(&self, i: usize) -> bool
        requires { Here self.now.sheet.lines.now grammar.Expr i }
        ensures { result ≡ stale_of (env_of self.now.sheet.bytes.now [] self.now.env) (expr_at self.now.sheet.bytes.now i) }
    {
        if self.env.next <= i {
            return false;
        }
        (i..self.sheet.end(i)).any(|at| self.is_later(i, at))
    }
}
