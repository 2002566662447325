// Reads the lines of a sheet into the scratch, up to the first that is refused.
ghost use Rattle.sheet.specs.Scan.{Scans, Whole};

use crate::line::read_line;
use crate::open::Depths;
use crate::refusal::{Refused, refuse};
use crate::scratch::{line_count, put_line};
use text::find;

// Reads the lines of a sheet into their cells.
pub fn scan(sheet: &[u8], lines: &mut [u16]) -> Result<(), Refused>
    requires { Whole sheet.now lines.old }
    ensures { Scans sheet.now lines.old lines.new result }
{
    let mut depths = Depths::new();
    let mut at = 0;
    let n = line_count(lines);
    for i in 0..n {
        let place = i + 1;
        let sort = depths.sort_due(lines, place)?;
        let end = find(sheet, at, b'\n', b'\n') + 1;
        let line = read_line(sort, &sheet[at..end], at, place)?;
        put_line(lines, i, line);
        depths.take(i, line.parts());
        at = end;
    }
    if depths.count == 0 {
        Ok(())
    } else {
        Err(refuse(11, n + 1))
    }
}
