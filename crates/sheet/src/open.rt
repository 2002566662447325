// The records still due while lines are read.
ghost use Rattle.std.specs.Prelude.{◌≡◌, ◌*◌, ◌+◌, ◌<◌, ◌≤◌, get_or};
ghost use Rattle.grammar.specs.Coded.{sort_from};
ghost use Rattle.grammar.specs.Table.{most_groups, sort_table};
ghost use Rattle.sheet.specs.Open.{Begun, Deepest, Next, next_sort, settled, sort_or, taken, Top};

use crate::refusal::{Refused, refuse};
use crate::scratch::cell;
use crate::{lines, scratch};
use grammar::{Kind, Sort, part_sort};

// The records due at a depth: how many are left, and the line whose parts they are.
#[derive(Clone, Copy)]
pub struct Due {
    left: u16,
    owner: u16,
}

// The depths at which records are due, the deepest last, in an array with its count, since there is no heap. Of a 66th nothing is kept: a record there is too deep.
#[derive(Clone, Copy)]
pub struct Depths {
    due: [Due; 65],
    pub count: usize,
}

// The sort of the parts in group g of a record whose kind has a number; that of a contract where no kind has it, as in the definition.
fn sort_of_group(kind: usize, g: usize) -> Sort
    requires { g < most_groups }
    ensures { result ≡ sort_from (get_or sort_table (most_groups * kind + g) 0) }
{
    match Kind::of(kind) {
        Some(kind) => part_sort(kind, g),
        None => Sort::Contract,
    }
}

// The sort of the next part of line i, where n parts are still due.
pub fn next_sort(lines: &[u16], i: usize, n: usize) -> Sort
    requires { Next lines.now i n }
    ensures { result ≡ sort_from (next_sort lines.now i n) }
{
    let kind = lines::kind(lines, i);
    let first = cell(lines, i, scratch::FIRST);
    let second = cell(lines, i, scratch::SECOND);
    let k = first + second + cell(lines, i, scratch::THIRD) - n;
    if k < first {
        return sort_of_group(kind, 0);
    }
    if k < first + second {
        return sort_of_group(kind, 1);
    }
    sort_of_group(kind, 2)
}

impl Depths {
    // A contract is due.
    pub fn new() -> Depths
        ensures { Begun result }
    {
        Depths {
            due: [Due { left: 1, owner: 0 }; 65],
            count: 1,
        }
    }

    // The sort of the record that is due at the deepest depth, or refusal 6 or 7.
    pub fn sort_due(&self, lines: &[u16], place: usize) -> Result<Sort, Refused>
        requires { Deepest lines.now self.now.due self.now.count }
        ensures { result ≡ sort_or place lines.now self.now.due self.now.count }
    {
        if self.count == 0 {
            return Err(refuse(6, place));
        }
        if 65 < self.count {
            return Err(refuse(7, place));
        }
        if self.count == 1 {
            return Ok(Sort::Contract);
        }
        let top = self.due[self.count - 1];
        Ok(next_sort(lines, usize::from(top.owner), usize::from(top.left)))
    }

    // Closes the deepest depths at which nothing is due. A while: what it counts down is what it changes.
    fn settle(&mut self)
        requires { self.old.count ≤ 65 }
        ensures { self.new ≡ record { due = self.old.due; count = settled self.old.due self.old.count } }
    {
        while 0 < self.count {
            if self.due[self.count - 1].left != 0 {
                return;
            }
            self.count -= 1;
        }
    }

    // Line i is read: one record less is due at the deepest depth, and its parts are due behind it.
    pub fn take(&mut self, i: usize, parts: usize)
        requires { Top self.old.due self.old.count i parts }
        ensures { self.new ≡ taken self.old i parts }
    {
        self.due[self.count - 1].left -= 1;
        if parts == 0 {
            self.settle();
            return;
        }
        if self.count < 65 {
            self.due[self.count] = Due {
                left: parts as u16,
                owner: i as u16,
            };
        }
        self.count += 1;
    }
}
