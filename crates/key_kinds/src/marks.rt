// What keys each map, by the line of its field. `HashMap` becomes an array: there is no heap.
ghost use Rattle.std.specs.Prelude.{◌≡◌, ◌<◌, ◌≤◌};
ghost use Rattle.key_kinds.specs.Uses.{Noted, key_kind_of};
ghost use Rattle.sheet.specs.Line.{most_lines};
ghost use Rattle.sheet.specs.Scratch.{line_count};

use refusals::Refusal;
use sheet::{LoadedSheet, limits};

// Whether a key is a name, that is, a Q_Name parameter.
#[derive(Clone, Copy, PartialEq, Eq)]
pub enum KeyKind {
    Named,
    Other,
}

// A sheet, and the kind of the keys seen in it by the line of the map's field; None where no use was seen.
#[derive(Drop)]
pub struct Seen<'a> {
    pub sheet: LoadedSheet<'a>,
    pub marks: [Option<KeyKind>; limits::MOST_LINES],
    ghost few: { line_count sheet.lines.now ≤ most_lines },
}

// A method and not `From`, which would not say what the bool means.
impl KeyKind {
    #[tactic(auto, unfolding(crate::specs::Uses::key_kind_of))]
    pub fn of(named: bool) -> KeyKind
        ensures { result ≡ key_kind_of named }
    {
        if named {
            KeyKind::Named
        } else {
            KeyKind::Other
        }
    }
}

impl Seen<'_> {
    // A use of the map that the field declares: refused where a use before it was of the other kind.
    pub fn note(
        &mut self,
        field: usize,
        kind: KeyKind,
        map: usize,
        key: usize,
    ) -> Result<(), Refusal>
        requires { field < most_lines }
        ensures sheet { self.new.sheet ≡ self.old.sheet }
        ensures noted { Noted self.old.marks self.new.marks field kind map key result }
    {
        if let Some(seen) = self.marks[field] {
            if seen != kind {
                return Err(Refusal::KeyKinds { map, key });
            }
        }
        self.marks[field] = Some(kind);
        Ok(())
    }
}
