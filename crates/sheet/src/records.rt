// The records that stand one behind another among the lines of a sheet.

use crate::lines::end;

// `left` records, the first at line `at`. Most functions take the line and the count, and no `Records`: it has lines of its own beside those
// of the sheet. The bounds of guardian sets take it, since they ask what is left of it.
#[derive(Clone, Copy)]
pub struct Records<'a> {
    pub lines: &'a [u16],
    pub left: usize,
    pub at: usize,
}

impl Iterator for Records<'_> {
    ghost use Rattle.std.specs.Iterator.{at_most};
    ghost use Rattle.sheet.specs.Records.{NextOf};

    type Item = usize;

    ghost next_gives = { NextOf };

    ghost remaining = { λ r. at_most r.left };

    fn next(&mut self) -> Option<usize> {
        if self.left == 0 {
            return None;
        }
        let at = self.at;
        self.at = end(self.lines, at);
        self.left -= 1;
        Some(at)
    }
}
