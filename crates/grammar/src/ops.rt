// The operators, each at its place among those of its record. `of` is a method and not `From`, which would read as if each number had an
// operator of its own.
ghost use Rattle.std.specs.Prelude.{◌≡◌};
ghost use Rattle.grammar.specs.Coded.{assign_of, bin_number, bin_of, unary_of};

#[derive(Clone, Copy, PartialEq, Eq)]
pub enum UnaryOp {
    Not,
    Neg,
}

#[derive(Clone, Copy, PartialEq, Eq)]
pub enum BinOp {
    Or,
    And,
    Eq,
    Ne,
    Lt,
    Gt,
    Le,
    Ge,
    Add,
    Sub,
    Mul,
    Div,
    Rem,
    Shr,
}

#[derive(Clone, Copy, PartialEq, Eq)]
pub enum AssignOp {
    Set,
    Add,
    Sub,
}

impl UnaryOp {
    // The operator at a place; the last at every further one.
    pub fn of(place: usize) -> UnaryOp
        ensures { result ≡ unary_of place }
    {
        match place {
            0 => UnaryOp::Not,
            _ => UnaryOp::Neg,
        }
    }
}

impl BinOp {
    // Its place among those of a `bin`.
    pub fn number(self) -> usize
        ensures { result ≡ bin_number self }
    {
        self as usize
    }

    // The operator at a place; the last at every further one.
    pub fn of(place: usize) -> BinOp
        ensures { result ≡ bin_of place }
    {
        match place {
            0 => BinOp::Or,
            1 => BinOp::And,
            2 => BinOp::Eq,
            3 => BinOp::Ne,
            4 => BinOp::Lt,
            5 => BinOp::Gt,
            6 => BinOp::Le,
            7 => BinOp::Ge,
            8 => BinOp::Add,
            9 => BinOp::Sub,
            10 => BinOp::Mul,
            11 => BinOp::Div,
            12 => BinOp::Rem,
            _ => BinOp::Shr,
        }
    }
}

impl AssignOp {
    // `=` at every place that no operator has.
    pub fn of(place: usize) -> AssignOp
        ensures { result ≡ assign_of place }
    {
        match place {
            1 => AssignOp::Add,
            2 => AssignOp::Sub,
            _ => AssignOp::Set,
        }
    }
}
