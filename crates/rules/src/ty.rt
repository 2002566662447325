// The types of expressions, and the marks of the type table.
ghost use Rattle.std.specs.Prelude.{◌≡◌};
ghost use Rattle.rules.specs.Asking.{code};
ghost use Rattle.rules.specs.Kept.{ty_from, ty_of_mark};

use grammar::Tells;

#[derive(Clone, Copy, PartialEq, Eq)]
pub enum Ty {
    Int,
    Bool,
    Address,
    Asset,
    Word64,
    Name,
    Time,
    Str,
    Collection,
    Unknown,
}

// Methods and not `From` and `TryFrom`: the number is the mark of a table, which has others beside these, and most marks tell no type.
impl Ty {
    // The type that a line's mark tells, if it tells one.
    #[tactic(auto, unfolding(crate::specs::Kept::ty_of_mark))]
    pub fn of_mark(mark: u8) -> Option<Ty>
        ensures { result ≡ ty_of_mark mark }
    {
        match mark {
            1 => Some(Ty::Int),
            2 => Some(Ty::Bool),
            3 => Some(Ty::Address),
            4 => Some(Ty::Asset),
            5 => Some(Ty::Word64),
            6 => Some(Ty::Name),
            7 => Some(Ty::Time),
            8 => Some(Ty::Str),
            9 => Some(Ty::Collection),
            10 => Some(Ty::Unknown),
            _ => None,
        }
    }

    // The mark of a line that has the type.
    #[tactic(auto, unfolding(crate::specs::Asking::code))]
    pub fn mark(self) -> u8
        ensures { result ≡ code self }
    {
        match self {
            Ty::Int => 1,
            Ty::Bool => 2,
            Ty::Address => 3,
            Ty::Asset => 4,
            Ty::Word64 => 5,
            Ty::Name => 6,
            Ty::Time => 7,
            Ty::Str => 8,
            Ty::Collection => 9,
            Ty::Unknown => 10,
        }
    }
}

impl Tells<Ty> for Ty {
    ghost meaning = { λ ty. ty };

    fn told(self) -> Ty {
        self
    }
}

// A byte that tells no type is read as `Unknown`.
impl Tells<Ty> for u8 {
    ghost meaning = { ty_from };

    #[tactic(auto, unfolding(crate::specs::Kept::ty_from))]
    fn told(self) -> Ty {
        Ty::of_mark(self).unwrap_or(Ty::Unknown)
    }
}

// The mark of a line whose asking ended in a refusal. A number, since the lent table holds bytes.
pub const REFUSED: u8 = 11;
