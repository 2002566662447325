// The text of a declared type. Of the functions that call each other the lines left and a phase fall.
ghost use Rattle.std.specs.Prelude.{◌≡◌, ◌≤◌};
ghost use Rattle.text.specs.Text.{bytes};
ghost use Rattle.sheet.specs.Scratch.{line_count};
ghost use Rattle.rules.specs.Text.{render};
ghost use Rattle.rules.specs.Ast.{type_name};
ghost use Rattle.rules.specs.Declarations.{arg_text, args_text, type_text};
ghost use Rattle.rules.specs.Standing.{arg_at, field_at, Loaded, type_at};
ghost use Rattle.writing.specs.Writing.{Adds};
ghost use Rattle.writing.specs.Types.{args_upto, before, closing, type_line};

use crate::write::Message;
use grammar::Kind;
use sheet::{LoadedSheet, end, kind, line_count, name};

impl Message<'_> {
    // Adds what stands before an argument, the first or another.
    fn add_before(&mut self, first: bool)
        ensures { Adds (bytes (before first)) self.old self.new }
    {
        if first {
            return self.add(b"<");
        }
        self.add(b", ");
    }

    // Adds what stands behind the last argument, nothing where there is none.
    #[tactic(auto, unfolding(crate::specs::Types::closing))]
    fn add_closing(&mut self, first: bool)
        ensures { Adds (closing first) self.old self.new }
    {
        // An empty piece, since without a call the length is not known to fit its type.
        if first {
            return self.add(b"");
        }
        self.add(b">");
    }

    // Adds the text of the record at line i as a type, whose arguments are its parts.
    #[cycle(type_text)]
    pub fn add_type(&mut self, sheet: &LoadedSheet<'_>, i: usize)
        ensures { Adds (render (type_text (type_at sheet.now.bytes.now i))) self.old self.new }
    {
        if line_count(sheet.lines) <= i {
            return;
        }
        self.add(sheet.name(i));
        self.add_args(sheet, i + 1, sheet.end(i), true);
    }

    // Adds the text of the record at line i as an argument: each kind up to that of a type is a type, as `arg_of` has it for any line.
    #[cycle(type_text)]
    fn add_arg(&mut self, sheet: &LoadedSheet<'_>, i: usize)
        ensures { Adds (render (arg_text (arg_at sheet.now.bytes.now i))) self.old self.new }
    {
        if kind(sheet.lines, i) <= Kind::Type.number() {
            return self.add_type(sheet, i);
        }
        if sheet.is(i, Kind::Num) {
            return self.add(sheet.name(i));
        }
        self.add(b"_");
    }

    // Adds the arguments from line i on, up to line stop, and what ends them. By itself and not over `records`: it goes up to a line, not by a count,
    // so that it asks nothing of the kinds that stand there.
    #[cycle(type_text)]
    fn add_args(&mut self, sheet: &LoadedSheet<'_>, i: usize, stop: usize, first: bool)
        requires { stop ≤ line_count sheet.now.lines.now }
        ensures { Adds (render (args_text first (args_upto sheet.now.bytes.now i stop))) self.old self.new }
    {
        if stop <= i {
            return self.add_closing(first);
        }
        self.add_before(first);
        self.add_arg(sheet, i);
        self.add_args(sheet, sheet.end(i), stop, false);
    }

    // Adds the text of the type that the field or parameter at line i declares.
    pub fn add_type_of(&mut self, sheet: &LoadedSheet<'_>, i: usize)
        ensures { Adds (render (type_text (field_at sheet.now.bytes.now i).ty)) self.old self.new }
    {
        self.add_type(sheet, type_line(sheet.lines, i));
    }
}

// The line of the type that the field or parameter at line i declares; one that isn't there where it declares none, and no Option, since what is
// read of such a line is empty.
fn type_line(lines: &[u16], i: usize) -> usize
    ensures { result ≡ type_line lines.now i }
{
    let n = line_count(lines);
    if n <= i {
        return n;
    }
    if i + 1 < end(lines, i) {
        return i + 1;
    }
    n
}

// The name of the type that the field or parameter at line i declares, as the part of the sheet that holds it; an empty part where there is none.
// It takes the bytes and the lines apart, since the part may be kept longer than the lines are lent, and a `LoadedSheet` has one lifetime for both.
pub fn type_name_of<'a>(bytes: &'a [u8], lines: &[u16], i: usize) -> &'a [u8]
    requires { Loaded bytes.now lines.now }
    ensures { result.now ≡ type_name (field_at bytes.now i).ty }
{
    name(bytes, lines, type_line(lines, i))
}
