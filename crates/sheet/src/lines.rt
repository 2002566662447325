// What a loaded line says. Lines are counted from 0. Of a line that isn't there all numbers but `nspan` are 0, and name and word are empty.
// The functions ask nothing of what they are given, so they take the bytes and the lines apart; `LoadedSheet` asks that the lines are loaded.
ghost use Rattle.std.specs.Prelude.{◌≡◌, eqb};
ghost use Rattle.grammar.specs.Coded.{kind_number};
ghost use Rattle.sheet.specs.Scratch.{end_at, kind_at, name_at, op_at, item_count, field_count, param_count, genesis_count, clause_count, body_count, default_count, type_arg_count, emit_arg_count, call_arg_count, target_count, from_count};
ghost use Rattle.sheet.specs.Say.{cut as cut_of};
ghost use Rattle.sheet.specs.Say.{number_at, nspan_at, span_at, span_first, word_at};

use crate::scratch::cell;
use crate::{limits, scratch};
use grammar::{Kind, starts_with_span};
use text::{find, number_of};

// The number of its record's kind. No `Kind`, since any cells may be asked, and may hold none.
pub fn kind(lines: &[u16], i: usize) -> usize
    ensures { result ≡ kind_at lines.now i }
{
    cell(lines, i, scratch::KIND) % scratch::KIND_RANGE
}

// Whether its record is of a kind.
pub fn is_kind(lines: &[u16], i: usize, k: Kind) -> bool
    ensures { result ≡ eqb (kind_at lines.now i) (kind_number k) }
{
    kind(lines, i) == k.number()
}

// The place of its operator among those of its record. No operator, since the record's kind tells which they are.
pub fn op(lines: &[u16], i: usize) -> usize
    ensures { result ≡ op_at lines.now i }
{
    cell(lines, i, scratch::KIND) / scratch::KIND_RANGE
}

// The line after its parts.
pub fn end(lines: &[u16], i: usize) -> usize
    ensures { result ≡ end_at lines.now i }
{
    cell(lines, i, scratch::END)
}

// A count has the name of what it counts, though several stand in one cell, so that code and contracts say which is meant. What is there once at
// most is counted too: the line has a number for it.

// How many items the contract has.
pub fn item_count(lines: &[u16], i: usize) -> usize
    ensures { result ≡ item_count lines.now i }
{
    cell(lines, i, scratch::FIRST)
}

// How many fields a state has.
pub fn field_count(lines: &[u16], i: usize) -> usize
    ensures { result ≡ field_count lines.now i }
{
    cell(lines, i, scratch::FIRST)
}

// How many parameters an event or an entry has.
pub fn param_count(lines: &[u16], i: usize) -> usize
    ensures { result ≡ param_count lines.now i }
{
    cell(lines, i, scratch::FIRST)
}

// How many statements genesis has.
pub fn genesis_count(lines: &[u16], i: usize) -> usize
    ensures { result ≡ genesis_count lines.now i }
{
    cell(lines, i, scratch::FIRST)
}

// How many clauses an entry has.
pub fn clause_count(lines: &[u16], i: usize) -> usize
    ensures { result ≡ clause_count lines.now i }
{
    cell(lines, i, scratch::SECOND)
}

// How many statements an entry has.
pub fn body_count(lines: &[u16], i: usize) -> usize
    ensures { result ≡ body_count lines.now i }
{
    cell(lines, i, scratch::THIRD)
}

// 1 where a field has a default, else 0.
pub fn default_count(lines: &[u16], i: usize) -> usize
    ensures { result ≡ default_count lines.now i }
{
    cell(lines, i, scratch::SECOND)
}

// How many arguments a type has.
pub fn type_arg_count(lines: &[u16], i: usize) -> usize
    ensures { result ≡ type_arg_count lines.now i }
{
    cell(lines, i, scratch::FIRST)
}

// How many arguments an emit has.
pub fn emit_arg_count(lines: &[u16], i: usize) -> usize
    ensures { result ≡ emit_arg_count lines.now i }
{
    cell(lines, i, scratch::FIRST)
}

// How many arguments a call has.
pub fn call_arg_count(lines: &[u16], i: usize) -> usize
    ensures { result ≡ call_arg_count lines.now i }
{
    cell(lines, i, scratch::SECOND)
}

// 1 where an `after` has a target, else 0.
pub fn target_count(lines: &[u16], i: usize) -> usize
    ensures { result ≡ target_count lines.now i }
{
    cell(lines, i, scratch::FIRST)
}

// 1 where an `after` has a `from`, else 0.
pub fn from_count(lines: &[u16], i: usize) -> usize
    ensures { result ≡ from_count lines.now i }
{
    cell(lines, i, scratch::SECOND)
}

// The n bytes of s from a on, or as many as there are.
fn cut(s: &[u8], a: usize, n: usize) -> &[u8]
    ensures { result.now ≡ cut_of s.now a n }
{
    if s.len() < a {
        return &s[..0];
    }
    if n <= s.len() - a {
        &s[a..a + n]
    } else {
        &s[a..]
    }
}

// Its NAME or TEXT, as the part of the sheet that holds it.
pub fn name<'a>(sheet: &'a [u8], lines: &[u16], i: usize) -> &'a [u8]
    ensures { result.now ≡ name_at sheet.now lines.now i }
{
    let start = cell(lines, i, scratch::NAME);
    let len = cell(lines, i, scratch::LENGTH);
    cut(sheet, start, len)
}

// Its record's word, as the part of the sheet that holds it.
pub fn word<'a>(sheet: &'a [u8], lines: &[u16], i: usize) -> &'a [u8]
    ensures { result.now ≡ word_at sheet.now lines.now i }
{
    if lines.len() / scratch::CELLS_PER_LINE <= i {
        return &sheet[..0];
    }
    let at = cell(lines, i, scratch::START);
    let end = find(sheet, at, b',', b'\n');
    cut(sheet, at, end - at)
}

// The decimal that the field at a position is, 0 where it is none.
fn number_at(sheet: &[u8], at: usize) -> u32
    ensures { result ≡ number_at sheet.now at }
{
    let end = find(sheet, at, b',', b'\n');
    number_of(cut(sheet, at, end - at), limits::MOST_SPAN).unwrap_or(0)
}

// Whether the first field of a record, whose kind has the number k, is a SPAN or NSPAN.
fn has_span(k: usize) -> bool
    ensures { result ≡ span_first k }
{
    match Kind::of(k) {
        Some(kind) => starts_with_span(kind),
        None => false,
    }
}

// Its SPAN, or a field's NSPAN: the first field after the word. 0 where its record has none; no Option, since 0 is what an answer then says
// of the place.
pub fn span(sheet: &[u8], lines: &[u16], i: usize) -> u32
    ensures { result ≡ span_at sheet.now lines.now i }
{
    if !has_span(kind(lines, i)) {
        return 0;
    }
    let at = cell(lines, i, scratch::START);
    let end = find(sheet, at, b',', b'\n');
    if sheet.len() <= end {
        return 0;
    }
    number_at(sheet, end + 1)
}

// The NSPAN of a dot: the field after its name, 0 where no number stands there, as for `span`.
pub fn nspan(sheet: &[u8], lines: &[u16], i: usize) -> u32
    ensures { result ≡ nspan_at sheet.now lines.now i }
{
    number_at(
        sheet,
        cell(lines, i, scratch::NAME) + cell(lines, i, scratch::LENGTH) + 1,
    )
}
