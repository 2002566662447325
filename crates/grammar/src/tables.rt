// The fields and parts of each record, by its kind: what specs/Table.antt makes of the grammar.
// A table is made where it is read: bytes are made in a few instructions, numbers one by one. One array of a struct each would be made whole for
// one number of it, and a `match` on the kind was slower (docs/PROVING.md, 'Speed of the code').
ghost use Rattle.std.specs.Prelude.{◌≡◌, ◌*◌, ◌+◌, ◌<◌, eqb, get_or};
ghost use Rattle.grammar.specs.Coded.{kind_number, rule_of, sort_from};
ghost use Rattle.grammar.specs.Table.{always_table, length_table, most_fields, most_groups, rule_column, sort_table, span_rule};

use crate::field_rules::Rule;
use crate::kinds::Kind;
use crate::sorts::Sort;

// The number of fields after the word.
pub fn fields(kind: Kind) -> usize
    ensures { result ≡ get_or length_table (kind_number kind) 0 }
{
    usize::from(LENGTHS[kind.number()])
}

// The number of the rule of field j, 0 where there is no such field: `rule` makes an Option of it, the tables hold bytes. A table for each field: only the one that is read is made.
fn rule_number(kind: Kind, j: usize) -> u8
    requires { j < most_fields }
    ensures { result ≡ get_or (rule_column j) (kind_number kind) 0 }
{
    let k = kind.number();
    match j {
        0 => FIRST_RULES[k],
        1 => SECOND_RULES[k],
        2 => THIRD_RULES[k],
        _ => FOURTH_RULES[k],
    }
}

// The rule of field j, if there is such a field.
pub fn rule(kind: Kind, j: usize) -> Option<Rule>
    requires { j < most_fields }
    ensures { result ≡ rule_of (get_or (rule_column j) (kind_number kind) 0) }
{
    Rule::of(rule_number(kind, j))
}

// Whether the first field is a SPAN or NSPAN. Not by `rule`, which is then called from one place and made part of it.
pub fn starts_with_span(kind: Kind) -> bool
    ensures { result ≡ eqb (get_or (rule_column 0) (kind_number kind) 0) span_rule }
{
    FIRST_RULES[kind.number()] == SPAN
}

// The number of parts that the record always has.
pub fn always(kind: Kind) -> usize
    ensures { result ≡ get_or always_table (kind_number kind) 0 }
{
    usize::from(ALWAYS[kind.number()])
}

// The sort of the parts of group g.
pub fn part_sort(kind: Kind, g: usize) -> Sort
    requires { g < most_groups }
    ensures { result ≡ sort_from (get_or sort_table (most_groups * kind_number kind + g) 0) }
{
    Sort::of(SORTS[MOST_GROUPS * kind.number() + g])
}

// The number of a SPAN or NSPAN in the tables, which are of bytes: they are laid out wherever they are read.
const SPAN: u8 = 1;

// How many groups of parts a record has at most.
const MOST_GROUPS: usize = 3;

const FIRST_RULES: [u8; 34] = [
    7, 7, 2, 0, 7, 7, 1, 2, 1, 3, 0, 0, 0, 0, 10, 0, 2, 2, 1, 0, 1, 1, 1, 1, 1, 1, 1, 1, 1, 1, 1,
    1, 1, 1,
];

const SECOND_RULES: [u8; 34] = [
    0, 0, 7, 0, 0, 8, 2, 0, 2, 0, 0, 0, 0, 0, 11, 0, 0, 7, 4, 0, 3, 2, 0, 0, 0, 0, 0, 0, 5, 6, 2,
    8, 0, 0,
];

const THIRD_RULES: [u8; 34] = [
    0, 0, 0, 0, 0, 9, 11, 0, 7, 0, 0, 0, 0, 0, 0, 0, 0, 0, 0, 0, 0, 0, 0, 0, 0, 0, 0, 0, 0, 0, 1,
    0, 0, 0,
];

// No record has a fourth field; `rule` is promised for one.
const FOURTH_RULES: [u8; 34] = [
    0, 0, 0, 0, 0, 0, 0, 0, 0, 0, 0, 0, 0, 0, 0, 0, 0, 0, 0, 0, 0, 0, 0, 0, 0, 0, 0, 0, 0, 0, 0, 0,
    0, 0,
];

const LENGTHS: [u8; 34] = [
    1, 1, 2, 0, 1, 3, 3, 1, 3, 1, 0, 0, 0, 0, 2, 0, 1, 2, 2, 0, 2, 2, 1, 1, 1, 1, 1, 1, 2, 2, 3, 2,
    1, 1,
];

const ALWAYS: [u8; 34] = [
    0, 0, 0, 1, 0, 0, 1, 1, 0, 0, 0, 1, 1, 0, 0, 1, 1, 0, 2, 1, 0, 0, 0, 0, 0, 0, 0, 0, 1, 2, 1, 1,
    1, 1,
];

const SORTS: [u8; 102] = [
    1, 8, 8, 2, 8, 8, 3, 8, 8, 8, 8, 8, 7, 8, 8, 3, 6, 7, 4, 8, 8, 4, 8, 8, 5, 8, 8, 8, 8, 8, 8, 8,
    8, 8, 8, 8, 8, 8, 8, 8, 8, 8, 8, 8, 8, 8, 8, 8, 8, 8, 8, 8, 8, 8, 8, 8, 8, 8, 8, 8, 8, 8, 8, 8,
    8, 8, 8, 8, 8, 8, 8, 8, 8, 8, 8, 8, 8, 8, 8, 8, 8, 8, 8, 8, 8, 8, 8, 8, 8, 8, 8, 8, 8, 8, 8, 8,
    8, 8, 8, 8, 8, 8,
];
