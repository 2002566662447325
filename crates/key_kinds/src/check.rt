// `check_key_kinds`: the first use of a map by another kind of key than one before it is refused.
ghost use Rattle.std.specs.Prelude.{◌≡◌, ◌<◌, ◌≤◌};
ghost use Rattle.grammar.specs.Kinds as kinds;
ghost use Rattle.sheet.specs.Line.{most_lines};
ghost use Rattle.sheet.specs.Scratch.{line_count};
ghost use Rattle.rules.specs.KeyKinds.{check_key_kinds};
ghost use Rattle.rules.specs.Standing.{model_in};
ghost use Rattle.refusals.specs.Answers.{Answers};
ghost use Rattle.lookups.specs.Lines.{KindAt};
ghost use Rattle.refusals.specs.Refusal.{done_of};
ghost use Rattle.key_kinds.specs.Uses.{Judged, entry_uses, item_uses, uses_at};

use crate::keyed::{is_keyed_call, is_name_key, map_named};
use crate::marks::{KeyKind, Seen};
use grammar::Kind;
use refusals::Refusal;
use sheet::{LoadedSheet, item_count, limits};

impl Seen<'_> {
    // The use at line at of an entry, where there is one.
    fn check_use(&mut self, entry: usize, at: usize) -> Result<(), Refusal>
        requires entry_at { KindAt kinds.entry self.old.sheet.lines.now entry }
        requires at_bound { at < line_count self.old.sheet.lines.now }
        ensures sheet { self.new.sheet ≡ self.old.sheet }
        ensures judged { let s = self.old.sheet in Judged s.bytes.now s.lines.now self.old.marks self.new.marks (uses_at s.bytes.now s.lines.now entry at) result }
    {
        if !is_keyed_call(&self.sheet, at) {
            return Ok(());
        }
        let Some(field) = map_named(&self.sheet, self.sheet.name(at + 2)) else {
            return Ok(());
        };
        let key = self.sheet.end(at + 1);
        let kind = KeyKind::of(is_name_key(&self.sheet, entry, key));
        self.note(field, kind, at + 2, key)
    }

    // The uses of an entry, in the order of its lines: an expression stands before its parts.
    fn check_entry(&mut self, entry: usize) -> Result<(), Refusal>
        requires { KindAt kinds.entry self.old.sheet.lines.now entry }
        ensures sheet { self.new.sheet ≡ self.old.sheet }
        ensures judged { let s = self.old.sheet in Judged s.bytes.now s.lines.now self.old.marks self.new.marks (entry_uses s.bytes.now entry) result }
    {
        for at in entry + 1..self.sheet.end(entry) {
            self.check_use(entry, at)?;
        }
        Ok(())
    }

    // The uses of an item, which may be no entry.
    fn check_item(&mut self, item: usize) -> Result<(), Refusal>
        requires { item < line_count self.old.sheet.lines.now }
        ensures sheet { self.new.sheet ≡ self.old.sheet }
        ensures judged { let s = self.old.sheet in Judged s.bytes.now s.lines.now self.old.marks self.new.marks (item_uses s.bytes.now s.lines.now item) result }
    {
        if !self.sheet.is(item, Kind::Entry) {
            return Ok(());
        }
        self.check_entry(item)
    }
}

pub fn check_key_kinds(sheet: &LoadedSheet<'_>) -> Result<(), Refusal>
    requires { line_count sheet.now.lines.now ≤ most_lines }
    ensures { Answers (check_key_kinds (model_in sheet.now.bytes.now)) (done_of sheet.now.bytes.now result) }
{
    let mut seen = Seen {
        sheet: *sheet,
        marks: [None; limits::MOST_LINES],
    };
    for item in sheet.records(1, item_count(sheet.lines, 0)) {
        seen.check_item(item)?;
    }
    Ok(())
}
