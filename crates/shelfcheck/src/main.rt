// Reads a sheet from standard input and writes one line: `accepted`, or the refusal's number, its place and, from 12 on, its
// message, parted by commas.
#![tactic(auto)]

ghost use Rattle.std.specs.Prelude.{OnOk};
ghost use Rattle.std.specs.Io.KnownBytes.{Appends};
ghost use Rattle.shelfcheck.specs.Line.{AnswersSheet, line_of};

use frames::read_full;
use sheet::{CELLS_PER_LINE, limits};
use std::io;
use std::io::{Read, Write};
use verdict::Answer;

fn write_answer<W: Write>(out: &mut W, answer: Answer, message: &[u8]) -> io::Result<()>
    ensures { OnOk result (Appends (W.contents out.old) (W.contents out.new) (line_of answer message.now)) }
{
    if answer.number == 0 {
        return out.write_all(b"accepted\n");
    }
    write!(out, "{},{}", answer.number, answer.place)?;
    if 11 < answer.number {
        out.write_all(b",")?;
        out.write_all(message)?;
    }
    out.write_all(b"\n")
}

// No message is longer: the promise of `verdict`.
const LONGEST: usize = 16384;

// Judges the sheet that the input holds.
#[tactic(auto, unfolding(crate::specs::Line::line_for))]
fn judge<R: Read, W: Write>(input: &mut R, out: &mut W) -> io::Result<()>
    ensures { OnOk result (AnswersSheet (R.remaining input.old) (R.remaining input.new) (W.contents out.old) (W.contents out.new)) }
{
    // A byte more than a sheet may have, so that a longer one is refused as too long.
    let mut sheet = [0u8; limits::MOST_BYTES + 1];
    let mut scratch = [0u16; CELLS_PER_LINE * limits::MOST_LINES];
    let mut types = [0u8; limits::MOST_LINES];
    let mut message = [0u8; LONGEST];
    let got = read_full(input, &mut sheet)?;
    let answer = verdict::verdict(&sheet[..got], &mut scratch, &mut types, &mut message);
    write_answer(out, answer, &message[..answer.length as usize])
}

fn main(rt: HostRuntime) -> io::Result<()> {
    judge(&mut rt.stdin(), &mut rt.stdout())
}
