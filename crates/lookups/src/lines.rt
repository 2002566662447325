// Lines behind records, and the parts of an entry.
ghost use Rattle.std.specs.Prelude.{◌≡◌, suc, ◌<◌};
ghost use Rattle.sheet.specs.Scratch.{line_count, param_count, clause_count};
ghost use Rattle.sheet.specs.Scratch.{skip as skip_of};

use sheet::{clause_count, param_count, skip};

// The line of the first clause, and of the first statement, of the entry at line i, or of what stands behind where it has none.
pub fn clauses_line(lines: &[u16], i: usize) -> usize
    requires { i < line_count lines.now }
    ensures { result ≡ skip_of lines.now (param_count lines.now i) (suc i) }
{
    skip(lines, param_count(lines, i), i + 1)
}

pub fn body_line(lines: &[u16], i: usize) -> usize
    requires { i < line_count lines.now }
    ensures { result ≡ skip_of lines.now (clause_count lines.now i) (skip_of lines.now (param_count lines.now i) (suc i)) }
{
    skip(lines, clause_count(lines, i), clauses_line(lines, i))
}
