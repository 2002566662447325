// The statements of an entry, one behind another.
ghost use Rattle.std.specs.Prelude.{◌≤◌};
ghost use Rattle.grammar.specs.Kinds as kinds;
ghost use Rattle.sheet.specs.Line.{most_lines};
ghost use Rattle.sheet.specs.Scratch.{line_count};
ghost use Rattle.rules.specs.Assets.{narrow_wrapping};
ghost use Rattle.rules.specs.Standing.{entry_at, model_in};
ghost use Rattle.refusals.specs.Answers.{Answers};
ghost use Rattle.refusals.specs.Refusal.{done_of};
ghost use Rattle.lookups.specs.Lines.{KindAt};

use crate::marks::Wrapped;
use crate::reach::narrow_stmt;
use lookups::body_line;
use refusals::Refusal;
use sheet::{LoadedSheet, body_count, limits};

// The entry at line i: no wrapping value reaches a narrow slot.
pub fn narrow_wrapping(sheet: &LoadedSheet<'_>, i: usize) -> Result<(), Refusal>
    requires few_lines { line_count sheet.now.lines.now ≤ most_lines }
    requires entry_at { KindAt kinds.entry sheet.now.lines.now i }
    ensures { Answers (narrow_wrapping (model_in sheet.now.bytes.now) (entry_at sheet.now.bytes.now i)) (done_of sheet.now.bytes.now result) }
{
    let n = body_count(sheet.lines, i);
    if n == 0 {
        return Ok(());
    }
    let body = body_line(sheet.lines, i);
    let mut wrapped = Wrapped {
        sheet: *sheet,
        body,
        bound: 0,
        marks: [false; limits::MOST_LINES],
    };
    for at in sheet.records(body, n) {
        narrow_stmt(&wrapped, at)?;
        wrapped.bind(at);
    }
    Ok(())
}
