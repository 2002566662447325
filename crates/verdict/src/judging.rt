// What a call does with the lines of a sheet that is read: the rules on a cleared table, the answer, and the message.
ghost use Rattle.std.specs.Prelude.{◌≡◌, length};
ghost use Rattle.sheet.specs.Load.{copies};
ghost use Rattle.rules.specs.Standing.{Loaded};
ghost use Rattle.rules.specs.Verdict.{fitting, overwritten};
ghost use Rattle.verdict.specs.Outcome.{Exact, Few, Judges, text_of};

use crate::Answer;
use checking::check;
use message::add_message;
use refusals::Refusal;
use rules::marked;
use sheet::LoadedSheet;
use text::fill;
use writing::Message;

// Writes the message of a refusal, if it fits; its length.
pub fn tell(sheet: &LoadedSheet<'_>, message: &mut [u8], r: Refusal) -> u32
    requires { Few sheet.now.bytes.now sheet.now.lines.now }
    ensures value { result ≡ length (text_of sheet.now.bytes.now r) }
    ensures message_after { message.new ≡ overwritten (fitting (length message.old) (text_of sheet.now.bytes.now r)) message.old }
{
    let mut none = [0u8; 0];
    let mut counted = Message::new(&mut none);
    add_message(sheet, &mut counted, r);
    let length = counted.length;
    if message.len() < length {
        return length as u32;
    }
    let mut written = Message::new(message);
    add_message(sheet, &mut written, r);
    written.length as u32
}

// The answer of `check` on a table.
pub fn judge(sheet: &LoadedSheet<'_>, table: &mut [u8], message: &mut [u8]) -> Answer
    requires { Exact sheet.now.bytes.now sheet.now.lines.now table.old }
    ensures { Judges sheet.now.bytes.now table.old message.old result table.new message.new }
{
    match check(sheet, table) {
        Ok(()) => Answer {
            number: 0,
            place: 0,
            count: marked(table) as u32,
            length: 0,
        },
        Err(r) => Answer {
            number: r.number(),
            place: r.place(sheet),
            count: marked(table) as u32,
            length: tell(sheet, message, r),
        },
    }
}

// The same on a table that is cleared before; the lines are cleared afterwards.
pub fn judge_lines(sheet: &[u8], lines: &mut [u16], table: &mut [u8], message: &mut [u8]) -> Answer
    requires loaded { Loaded sheet.now lines.old }
    requires exact { Exact sheet.now lines.old table.old }
    ensures judges { Judges sheet.now (copies (length table.old) 0) message.old result table.new message.new }
    ensures lines_after { lines.new ≡ copies (length lines.old) 0 }
{
    fill(table, 0);
    let loaded = LoadedSheet {
        bytes: sheet,
        lines: &*lines,
    };
    let answer = judge(&loaded, table, message);
    fill(lines, 0);
    answer
}
