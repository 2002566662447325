// A value that stands for one of an enum: itself, or the number that tells it.
ghost use Rattle.std.specs.Prelude.{◌≡◌};
ghost use Rattle.grammar.specs.Coded.{bin_of, kind_number, sort_from, unary_of};

use crate::kinds::Kind;
use crate::ops::{BinOp, UnaryOp};
use crate::sorts::Sort;

// Who takes it takes every number, as `of` does; a caller that has the enum hands that on.
pub trait Tells<T>: Sized {
    ghost meaning: { Self → T };

    fn told(self) -> T
        ensures { result ≡ meaning self };
}

impl Tells<Sort> for Sort {
    ghost meaning = { λ sort. sort };

    fn told(self) -> Sort {
        self
    }
}

impl Tells<Sort> for u8 {
    ghost meaning = { sort_from };

    fn told(self) -> Sort {
        Sort::of(self)
    }
}

impl Tells<UnaryOp> for UnaryOp {
    ghost meaning = { λ op. op };

    fn told(self) -> UnaryOp {
        self
    }
}

impl Tells<UnaryOp> for usize {
    ghost meaning = { unary_of };

    fn told(self) -> UnaryOp {
        UnaryOp::of(self)
    }
}

impl Tells<BinOp> for BinOp {
    ghost meaning = { λ op. op };

    fn told(self) -> BinOp {
        self
    }
}

impl Tells<BinOp> for usize {
    ghost meaning = { bin_of };

    fn told(self) -> BinOp {
        BinOp::of(self)
    }
}

// The number of a kind; one that no kind has may be asked for too.
impl Tells<usize> for Kind {
    ghost meaning = { kind_number };

    fn told(self) -> usize {
        self.number()
    }
}

impl Tells<usize> for usize {
    ghost meaning = { λ n. n };

    fn told(self) -> usize {
        self
    }
}
