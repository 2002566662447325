// The cells of the loaded lines. Only cell and put know where a cell stands.
ghost use Rattle.std.specs.Prelude.{◌≡◌, ◌*◌, ◌+◌, ◌/◌, ◌<◌, ◌≤◌, length};
ghost use Rattle.sheet.specs.Scratch.{closed, put_line, Small, line_count, cells_per_line};
ghost use Rattle.sheet.specs.Scratch.{cell as cell_of, put as put_of, skip as skip_of};
ghost use Rattle.sheet.specs.Line.{most_lines};

use crate::line::Line;

// How many cells a line has.
pub const CELLS_PER_LINE: usize = 8;

// The cells of a line, by number and not in a struct, since C lends the scratch as u16 cells: kind and operator, where it starts, the line after its parts, where its name starts, the name's length, and how
// many parts of each of its record's sorts it has.
pub const KIND: usize = 0;

pub const START: usize = 1;

pub const END: usize = 2;

pub const NAME: usize = 3;

pub const LENGTH: usize = 4;

pub const FIRST: usize = 5;

pub const SECOND: usize = 6;

pub const THIRD: usize = 7;

// A kind is below this.
pub const KIND_RANGE: usize = 64;

// How many lines there are cells for.
pub fn line_count(lines: &[u16]) -> usize
    ensures { result ≡ line_count lines.now }
{
    lines.len() / CELLS_PER_LINE
}

// Cell k of line i; 0 where there is no such line, and no Option: a kind of 0 and an end of 0 are what the definitions have there.
pub fn cell(lines: &[u16], i: usize, k: usize) -> usize
    requires { k < cells_per_line }
    ensures value { result ≡ cell_of lines.now i k }
    ensures upper_bound { result < 65536 }
{
    if i < lines.len() / CELLS_PER_LINE {
        usize::from(lines[CELLS_PER_LINE * i + k])
    } else {
        0
    }
}

fn put(lines: &mut [u16], i: usize, k: usize, v: usize)
    requires { (i < line_count lines.old) × (k < cells_per_line) × (v < 65536) }
    ensures { lines.new ≡ put_of lines.old i k v }
{
    lines[CELLS_PER_LINE * i + k] = v as u16;
}

// Line i, but for the line after its parts.
pub fn put_line(lines: &mut [u16], i: usize, l: Line)
    requires { (i < line_count lines.old) × Small l }
    ensures { lines.new ≡ put_line lines.old i l }
{
    put(lines, i, KIND, l.kind + KIND_RANGE * l.op);
    put(lines, i, START, l.at);
    put(lines, i, NAME, l.start);
    put(lines, i, LENGTH, l.len);
    put(lines, i, FIRST, l.first);
    put(lines, i, SECOND, l.second);
    put(lines, i, THIRD, l.third);
}

// The line after `count` records, the first of which stands at line from.
pub fn skip(lines: &[u16], count: usize, from: usize) -> usize
    ensures value { result ≡ skip_of lines.now count from }
    ensures upper_bound { from < 65536 → result < 65536 }
{
    let mut at = from;
    for _ in 0..count {
        at = cell(lines, at, END);
    }
    at
}

// Puts to each line the line after its parts, from the last line on.
pub fn close(lines: &mut [u16])
    requires { length lines.old ≤ cells_per_line * most_lines }
    ensures { lines.new ≡ closed (line_count lines.old) lines.old }
{
    for i in (0..line_count(lines)).rev() {
        let parts = cell(lines, i, FIRST) + cell(lines, i, SECOND) + cell(lines, i, THIRD);
        let end = skip(lines, parts, i + 1);
        put(lines, i, END, end);
    }
}
