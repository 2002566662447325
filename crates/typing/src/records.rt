// A step at each of the records of a row.
ghost use Rattle.typing.specs.Each.{DoesRow, Gives, GivesEach, TakesEach};

use refusals::Refusal;
use sheet::LoadedSheet;

// The step that is given, at each of `count` records, the first of which stands at line from, until it refuses.
pub fn check_records<F: Fn(&mut [u8], usize) -> Result<(), Refusal>>(
    sheet: &LoadedSheet<'_>,
    table: &mut [u8],
    from: usize,
    count: usize,
    check: F,
) -> Result<(), Refusal>
    requires { TakesEach (F.pre check) sheet.now.lines.now table.old count from }
    ensures gives { GivesEach (Gives (F.post check)) sheet.now.lines.now count from table.old result table.new }
    ensures does { DoesRow (Gives (F.post check)) sheet.now.bytes.now sheet.now.lines.now count from table.old result table.new }
{
    for at in sheet.records(from, count) {
        check(table, at)?;
    }
    Ok(())
}
