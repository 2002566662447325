// A sheet that is read, with its lines.
ghost use Rattle.std.specs.Prelude.{◌≡◌, eqb};
ghost use Rattle.grammar.specs.Coded.{assign_of, bin_of, kind_number, kind_of, unary_of};
ghost use Rattle.sheet.specs.Loaded.{IsLoaded};
ghost use Rattle.sheet.specs.Once.{IsLoaded-prop};
ghost use Rattle.sheet.specs.Scratch.{end_at, kind_at, name_at, op_at};

use crate::lines;
use crate::records::Records;
use grammar::{AssignOp, BinOp, Kind, UnaryOp};

// What `load` read, and the cells that it laid. What stands at a line (`Here`, `KindAt`) is a fact of a number and a sheet together, as is that
// a table has room for it. It stands in the `requires` of those that ask it: many functions name several lines of one sheet, and most go on from theirs to
// others, so a type for a line would hold the sheet again each time, be made anew at each step, and owe that the sheets are one.
#[derive(Clone, Copy)]
pub struct LoadedSheet<'a> {
    pub bytes: &'a [u8],
    pub lines: &'a [u16],
    ghost loaded: { IsLoaded bytes.now lines.now } by { IsLoaded-prop bytes.now lines.now },
}

impl<'a> LoadedSheet<'a> {
    // The kind of the record at line i, for who wants to know it; the rules ask by `is`.
    pub fn kind(&self, i: usize) -> Option<Kind>
        ensures { result ≡ kind_of (kind_at self.now.lines.now i) }
    {
        Kind::of(lines::kind(self.lines, i))
    }

    // Whether the record at line i is of a kind. The rules ask by this and have no `match` on `kind`: they name a few of 34 kinds, and its
    // last arm would stand for all the others.
    pub fn is(&self, i: usize, kind: Kind) -> bool
        ensures { result ≡ eqb (kind_at self.now.lines.now i) (kind_number kind) }
    {
        lines::is_kind(self.lines, i, kind)
    }

    // The operator of a `un`, of a `bin`, and of an `assign`.
    pub fn unary_op(&self, i: usize) -> UnaryOp
        ensures { result ≡ unary_of (op_at self.now.lines.now i) }
    {
        UnaryOp::of(lines::op(self.lines, i))
    }

    pub fn bin_op(&self, i: usize) -> BinOp
        ensures { result ≡ bin_of (op_at self.now.lines.now i) }
    {
        BinOp::of(lines::op(self.lines, i))
    }

    pub fn assign_op(&self, i: usize) -> AssignOp
        ensures { result ≡ assign_of (op_at self.now.lines.now i) }
    {
        AssignOp::of(lines::op(self.lines, i))
    }

    // The line after its parts.
    pub fn end(&self, i: usize) -> usize
        ensures { result ≡ end_at self.now.lines.now i }
    {
        lines::end(self.lines, i)
    }

    // Its NAME or TEXT.
    pub fn name(&self, i: usize) -> &'a [u8]
        ensures { result.now ≡ name_at self.now.bytes.now self.now.lines.now i }
    {
        lines::name(self.bytes, self.lines, i)
    }

    // `count` records, the first at line from. One method for all rows: a caller says which parts of a record it means by the count's name, and a method
    // for each would be eight with a promise each.
    pub fn records(&self, from: usize, count: usize) -> Records<'a>
        ensures lines { result.lines.now ≡ self.now.lines.now }
        ensures left { result.left ≡ count }
        ensures at { result.at ≡ from }
    {
        Records {
            lines: self.lines,
            left: count,
            at: from,
        }
    }
}
