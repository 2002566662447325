// Reads the stored sheets of standard input, each behind its header, and writes what the sheet reader answers:
// number and place, or the number of lines and each line's word, depth and end.
#![tactic(auto)]

ghost use Rattle.std.specs.Prelude.{◌≡◌, ◌≤◌, max, IfOk, OnOk};
ghost use Rattle.std.specs.Bool.{OnFalse, OnTrue};
ghost use Rattle.std.specs.Io.KnownBytes.{Appends, Keeps};
ghost use Rattle.frames.specs.Frame.{AnswersFrame};
ghost use Rattle.replay_reader.specs.Written.{answer_of, EndsReader, depth_of, from_one_of, line_of, lines_of, text_for};

use frames::Lengths;
use sheet::Refused;
use std::io;
use std::io::{Read, Write};
use text::fill;

// A line's number, counted from 1; 0 for one that no sheet has.
fn from_one(i: usize) -> u64
    ensures { result ≡ from_one_of i }
{
    if i < 65536 { i as u64 + 1 } else { 0 }
}

// How many lines before line i have not ended.
fn depth(lines: &[u16], i: usize) -> usize
    ensures { result ≡ depth_of lines.now i }
{
    (0..i).filter(|j| i < sheet::end(lines, *j)).count()
}

fn write_line<W: Write>(out: &mut W, text: &[u8], lines: &[u16], i: usize) -> io::Result<()>
    ensures { OnOk result (Appends (W.contents out.old) (W.contents out.new) (line_of text.now lines.now i)) }
{
    out.write_all(sheet::word(text, lines, i))?;
    let depth = depth(lines, i);
    let end = from_one(sheet::end(lines, i));
    write!(out, ":{depth}:{end}")
}

fn write_lines<W: Write>(out: &mut W, text: &[u8], lines: &[u16], n: usize) -> io::Result<()>
    ensures { OnOk result (Appends (W.contents out.old) (W.contents out.new) (lines_of text.now lines.now n)) }
{
    if n == 0 {
        return Ok(());
    }
    write_line(out, text, lines, 0)?;
    for i in 1..n {
        out.write_all(b" ")?;
        write_line(out, text, lines, i)?;
    }
    Ok(())
}

// Where a sheet was read, the lines are its lines.
fn write_loaded<W: Write>(
    out: &mut W,
    text: &[u8],
    lines: &[u16],
    answer: Result<usize, Refused>,
) -> io::Result<()>
    ensures { OnOk result (Appends (W.contents out.old) (W.contents out.new) (answer_of text.now lines.now answer)) }
{
    match answer {
        Ok(n) => {
            write!(out, "0,{n};")?;
            write_lines(out, text, lines, n)?;
        }
        Err(Refused { number, line }) => write!(out, "{number},{line}")?,
    }
    out.write_all(b"\n")
}

// The most bytes of a sheet, and the most cells that are lent.
const MOST: usize = 32768;

#[tactic(auto, unfolding(crate::specs::Written::text_for))]
fn write_answer<W: Write>(
    out: &mut W,
    text: &[u8],
    scratch: &mut [u16; MOST],
    lengths: Lengths,
) -> io::Result<()>
    requires { lengths.scratch ≤ MOST }
    ensures { OnOk result (Appends (W.contents out.old) (W.contents out.new) (text_for text.now lengths)) }
{
    let scratch = &mut scratch[..lengths.scratch];
    fill(scratch, 0);
    let answer = sheet::load(text, scratch, lengths.types);
    write_loaded(out, text, scratch, answer)
}

// One sheet with its header; whether it was answered.
fn turn<R: Read, W: Write>(
    input: &mut R,
    out: &mut W,
    text: &mut [u8; MOST],
    scratch: &mut [u16; MOST],
) -> io::Result<bool>
    ensures answered { IfOk result (λ there. OnTrue there (AnswersFrame (R.remaining input.old) (R.remaining input.new)
        (W.contents out.old) (W.contents out.new) (λ lengths. max lengths.sheet lengths.scratch ≤ MOST) (λ lengths. lengths.sheet) text_for)) }
    ensures ended { IfOk result (λ there. OnFalse there (EndsReader (R.remaining input.old) (R.remaining input.new))) }
    ensures kept { IfOk result (λ there. OnFalse there (Keeps (W.contents out.old) (W.contents out.new))) }
{
    let Some(lengths) = frames::header(input)? else {
        return Ok(false);
    };
    if MOST < lengths.sheet.max(lengths.scratch) {
        return Ok(false);
    }
    let text = &mut text[..lengths.sheet];
    if !frames::filled(input, text)? {
        return Ok(false);
    }
    write_answer(out, text, scratch, lengths)?;
    Ok(true)
}

// How many sheets are answered at most.
const MOST_SHEETS: u32 = 100000;

// `replay` ends in the same lines. Shared, they would be a function over a closure whose `requires` each program shows again, and longer.
fn main(rt: HostRuntime) -> io::Result<()> {
    let mut input = rt.stdin();
    let mut out = rt.stdout();
    let mut text = [0; MOST];
    let mut scratch = [0; MOST];
    for _ in 0..MOST_SHEETS {
        if !turn(&mut input, &mut out, &mut text, &mut scratch)? {
            break;
        }
    }
    Ok(())
}
