// The `let`s that hold wrapping values, and the values that wrap.
ghost use Rattle.std.specs.Prelude.{◌&&◌, ◌+◌, ◌≡◌, ◌<◌, ◌≤◌, get_or, false, set};
ghost use Rattle.text.specs.Text.{same};
ghost use Rattle.grammar.specs.Grammar.{Expr, Stmt};
ghost use Rattle.sheet.specs.Scratch.{name_at, line_count, skip};
ghost use Rattle.rules.specs.Assets.{wraps as wraps_of};
ghost use Rattle.rules.specs.Once.{Row-prop};
ghost use Rattle.rules.specs.Standing.{expr_at, Here, Row};
ghost use Rattle.rules.specs.Text.{among};
ghost use Rattle.wrapping.specs.Marks.{is_wrapping_let, next_line, wraps_here};
ghost use Rattle.sheet.specs.Line.{most_lines};

use grammar::Kind;
use sheet::{LoadedSheet, end, is_kind, limits};
use text::is_word;

// The statements of an entry that are bound, `bound` of them from line body on, and marks at the lines of those that are
// a `let` of a wrapping value. `HashSet` becomes an array with a mark for each line: there is no heap.
#[derive(Drop)]
pub struct Wrapped<'a> {
    pub sheet: LoadedSheet<'a>,
    pub body: usize,
    pub bound: usize,
    pub marks: [bool; limits::MOST_LINES],
    ghost row: { Row sheet.lines.now Stmt bound body } by { Row-prop sheet.lines.now Stmt bound body },
    ghost few: { line_count sheet.lines.now ≤ most_lines },
}

// The next line of a value that counts: none inside a dot, nor in the callee of a call.
fn next_line(lines: &[u16], i: usize) -> usize
    requires { i < line_count lines.now }
    ensures { result ≡ next_line lines.now i }
{
    if is_kind(lines, i, Kind::Dot) {
        return end(lines, i);
    }
    if is_kind(lines, i, Kind::Call) {
        return end(lines, i + 1);
    }
    i + 1
}

impl Wrapped<'_> {
    ghost use Rattle.wrapping.specs.Names.{names_in};

    // Whether line i has a mark and the name x.
    fn is_marked(&self, x: &[u8], i: usize) -> bool
        requires { i < most_lines }
        ensures { result ≡ (get_or self.now.marks i false && same x.now (name_at self.now.sheet.bytes.now self.now.sheet.lines.now i)) }
    {
        if !self.marks[i] {
            return false;
        }
        is_word(x, self.sheet.name(i))
    }

    // Whether x is the name of a marked `let`.
    fn contains(&self, x: &[u8]) -> bool
        ensures { result ≡ among x.now (names_in self.now) }
    {
        self.sheet
            .records(self.body, self.bound)
            .any(|at| self.is_marked(x, at))
    }

    // Whether line i by itself makes its value wrap.
    fn wraps_here(&self, i: usize) -> bool
        ensures { result ≡ wraps_here self.now.sheet.bytes.now self.now.sheet.lines.now (names_in self.now) i }
    {
        if self.sheet.is(i, Kind::Wrapping) {
            return true;
        }
        if !self.sheet.is(i, Kind::Id) {
            return false;
        }
        self.contains(self.sheet.name(i))
    }

    // Whether the value at line i wraps.
    pub fn wraps(&self, i: usize) -> bool
        requires { Here self.now.sheet.lines.now Expr i }
        ensures { result ≡ wraps_of (names_in self.now) (expr_at self.now.sheet.bytes.now i) }
    {
        let stop = self.sheet.end(i);
        let mut at = i;
        // A `while`: an iterator would have this loop in its `next`, and beside it a count of what is left and the fact that it stands there.
        while at < stop {
            if self.wraps_here(at) {
                return true;
            }
            at = next_line(self.sheet.lines, at);
        }
        false
    }

    // Whether line i is a `let` of a value that wraps.
    fn is_wrapping_let(&self, i: usize) -> bool
        requires { Here self.now.sheet.lines.now Stmt i }
        ensures { result ≡ is_wrapping_let self.now.sheet.bytes.now self.now.sheet.lines.now (names_in self.now) i }
    {
        if !self.sheet.is(i, Kind::Let) {
            return false;
        }
        self.wraps(i + 1)
    }

    // The statement at line i, which is the next one, is bound.
    pub fn bind(&mut self, i: usize)
        requires stmt_at { Here self.old.sheet.lines.now Stmt i }
        requires is_next { i ≡ skip self.old.sheet.lines.now self.old.bound self.old.body }
        ensures sheet { self.new.sheet ≡ self.old.sheet }
        ensures body { self.new.body ≡ self.old.body }
        ensures bound { self.new.bound ≡ self.old.bound + 1 }
        ensures marks { self.new.marks ≡ set self.old.marks i (is_wrapping_let self.old.sheet.bytes.now self.old.sheet.lines.now (names_in self.old) i) }
    {
        self.marks[i] = self.is_wrapping_let(i);
        self.bound += 1;
    }
}
