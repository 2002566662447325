// The event of a name: a search among the items, the first one winning.
ghost use Rattle.lookups.specs.Event.{EventNamed};

use crate::model::is_named;
use grammar::Kind;
use sheet::{LoadedSheet, item_count};

// The first event of the name x.
pub fn event_named(sheet: &LoadedSheet<'_>, x: &[u8]) -> Option<usize>
    ensures { EventNamed sheet.now.bytes.now sheet.now.lines.now x.now result }
{
    sheet
        .records(1, item_count(sheet.lines, 0))
        .find(|at| is_named(sheet, Kind::Event, x, *at))
}
