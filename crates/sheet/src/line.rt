// What a line says: the record's kind, its fields, and how many parts it has.
ghost use Rattle.std.specs.Prelude.{[], ◌≡◌, ◌+◌, ◌≤◌, drop, length, option_map};
ghost use Rattle.text.specs.Text.{either, ended};
ghost use Rattle.std.specs.Bool.{then_some};
ghost use Rattle.sheet.specs.Line.{read_pieces};
ghost use Rattle.sheet.specs.Scratch.{Small};
ghost use Rattle.sheet.specs.Step.{Fields, code_read, parts_step, span_step, step, step_all, with_name, with_op, with_parts};
ghost use Rattle.grammar.specs.Coded.{kind_number, sort_meant};
ghost use Rattle.grammar.specs.Table.{numbers_of};

use crate::limits;
use crate::refusal::{Refused, refuse};
use grammar::{Kind, Rule, Sort, always, fields, kind_for, place_of_bin, rule};
use text::{count, find, is_name, is_text, number_of, place_in};

// A line without its spans, as its cells hold it: the numbers of its kind and of its operator, where it and its name start in the sheet, and
// how many parts of each of its record's sorts it has: three fields, as the definitions name them.
#[derive(Clone, Copy)]
pub struct Line {
    pub kind: usize,
    pub op: usize,
    pub at: usize,
    pub start: usize,
    pub len: usize,
    pub first: usize,
    pub second: usize,
    pub third: usize,
}

impl Line {
    // How many parts it has.
    pub fn parts(self) -> usize
        requires { Small self }
        ensures { result ≡ self.first + self.second + self.third }
    {
        self.first + self.second + self.third
    }

    fn with_span(self, field: &[u8]) -> Option<Line>
        ensures { result ≡ span_step field.now self }
    {
        number_of(field, limits::MOST_SPAN)?;
        Some(self)
    }

    // A name that starts at a position of the sheet, where it is well written.
    fn with_name(self, good: bool, start: usize, len: usize) -> Option<Line>
        ensures { result ≡ then_some good (with_name self start len) }
    {
        good.then_some(Line { start, len, ..self })
    }

    // The operator of this number, if the word is one.
    fn with_op(self, number: Option<usize>) -> Option<Line>
        ensures { result ≡ option_map (with_op self) number }
    {
        let op = number?;
        Some(Line { op, ..self })
    }

    // n parts of group g.
    fn with_parts(self, g: usize, n: usize) -> Line
        ensures { result ≡ with_parts self g n }
    {
        match g {
            0 => Line { first: n, ..self },
            1 => Line { second: n, ..self },
            2 => Line { third: n, ..self },
            _ => self,
        }
    }

    // A COUNT or FLAG, for group g.
    fn with_number(self, field: &[u8], most: u32, g: usize) -> Option<Line>
        ensures { result ≡ parts_step most g field.now self }
    {
        let n = number_of(field, most)?;
        Some(self.with_parts(g, n as usize))
    }

    // The field that starts at a position of the sheet, read by its rule.
    #[tactic(auto, unfolding(crate::specs::Step::step))]
    fn with_field(self, rule: Rule, start: usize, field: &[u8]) -> Option<Line>
        ensures { result ≡ step rule start field.now self }
    {
        match rule {
            Rule::Span => self.with_span(field),
            Rule::Name => self.with_name(is_name(field), start, field.len()),
            Rule::Text => self.with_name(is_text(field), start, field.len()),
            Rule::AssignOp => self.with_op(place_in(field, b"set add sub ")),
            Rule::UnaryOp => self.with_op(place_in(field, b"not neg ")),
            Rule::BinOp => self.with_op(place_of_bin(field)),
            Rule::Count(g) => self.with_number(field, limits::MOST_COUNT, g),
            Rule::Flag(g) => self.with_number(field, limits::MOST_FLAG, g),
        }
    }
}

// The n fields from a place of y on. n is as many as the line's kind has, which it has as a number too.
fn read_fields(line: Line, kind: Kind, n: usize, y: &[u8], from: usize) -> Option<Line>
    requires fields { Fields line n y.now from }
    requires kind { line.kind ≡ kind_number kind }
    ensures { result ≡ step_all (numbers_of line.kind) (line.at + from) (ended (either 44 10) [] (drop from y.now)) line }
{
    let mut l = line;
    let mut at = from;
    for j in 0..n {
        let end = find(y, at, b',', b'\n');
        let rule = rule(kind, j)?;
        l = l.with_field(rule, line.at + at, &y[at..end])?;
        at = end + 1;
    }
    Some(l)
}

// The line y, taken with its LF, which starts at a position of the sheet where a record of a sort is due; or refusal 8, 9 or 10.
pub fn read_line(sort: Sort, y: &[u8], at: usize, place: usize) -> Result<Line, Refused>
    requires { at + length y.now ≤ 65535 }
    ensures { result ≡ code_read place (read_pieces (sort_meant sort) at (ended (either 44 10) [] y.now)) }
{
    let end = find(y, 0, b',', b'\n');
    if y.len() <= end {
        return Err(refuse(8, place));
    }
    let Some(kind) = kind_for(sort, &y[..end]) else {
        return Err(refuse(8, place));
    };
    let n = fields(kind);
    if count(y, b',', b'\n') != n + 1 {
        return Err(refuse(9, place));
    }
    let line = Line {
        kind: kind.number(),
        op: 0,
        at,
        start: 0,
        len: 0,
        first: always(kind),
        second: 0,
        third: 0,
    };
    read_fields(line, kind, n, y, end + 1).ok_or(refuse(10, place))
}
