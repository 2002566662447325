// The sorts of records that may be due.
ghost use Rattle.std.specs.Prelude.{◌≡◌};
ghost use Rattle.grammar.specs.Coded.{sort_from};

#[derive(Clone, Copy, PartialEq, Eq)]
pub enum Sort {
    Contract,
    Item,
    Field,
    Param,
    Ty,
    Arg,
    Clause,
    Stmt,
    Expr,
}

// A method and not `From`, which would read as if each number had a sort of its own.
impl Sort {
    // The sort of which `sort_number` (specs/Table.antt) is the number; `Expr` has 8, and every further one.
    pub fn of(n: u8) -> Sort
        ensures { result ≡ sort_from n }
    {
        match n {
            0 => Sort::Contract,
            1 => Sort::Item,
            2 => Sort::Field,
            3 => Sort::Param,
            4 => Sort::Ty,
            5 => Sort::Arg,
            6 => Sort::Clause,
            7 => Sort::Stmt,
            _ => Sort::Expr,
        }
    }
}
