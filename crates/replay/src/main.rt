// Reads the stored sheets of standard input, each behind its header, lends to each what that says, full of noise,
// and writes a line with the answer and what each lent buffer holds then:
//
//     number,place,count,length;zeros,scratch,types,message;TYPES;MESSAGE
//
// `zeros` is how many cells of the scratch are zero from its start on; `scratch`, `types` and `message` are how many cells or
// bytes still hold the noise up to the buffer's end. TYPES are the bytes of the type table before those, MESSAGE those of the message.
#![tactic(auto)]

mod noise;

ghost use Rattle.std.specs.Prelude.{⊤, IfOk, OnOk};
ghost use Rattle.std.specs.Io.KnownBytes.{Appends, Keeps};
ghost use Rattle.std.specs.Bool.{OnFalse, OnTrue};
ghost use Rattle.frames.specs.Frame.{AnswersFrame, EndsFrames};
ghost use Rattle.replay.specs.Written.{sheet_size, four_of, held_of, line_for, line_of, types_of};

use frames::Lengths;
use noise::{BYTE, CELL, noise_len, zeros};
use std::io;
use std::io::{Read, Write};
use text::fill;
use verdict::Answer;

#[tactic(auto, unfolding(crate::specs::Written::types_of))]
fn write_types<W: Write>(out: &mut W, types: &[u8]) -> io::Result<()>
    ensures { OnOk result (Appends (W.contents out.old) (W.contents out.new) (types_of types.now)) }
{
    let [first, others @ ..] = types else {
        return Ok(());
    };
    write!(out, "{first}")?;
    for code in others {
        write!(out, " {code}")?;
    }
    Ok(())
}

// Four numbers parted by commas.
#[tactic(auto, unfolding(crate::specs::Written::four_of))]
fn write_four<W: Write>(out: &mut W, a: usize, b: usize, c: usize, d: usize) -> io::Result<()>
    ensures { OnOk result (Appends (W.contents out.old) (W.contents out.new) (four_of a b c d)) }
{
    write!(out, "{a},{b},{c},{d};")
}

// The types and the message that the lent buffers hold.
#[tactic(auto, unfolding(crate::specs::Written::held_of))]
fn write_held<W: Write>(out: &mut W, types: &[u8], message: &[u8]) -> io::Result<()>
    ensures { OnOk result (Appends (W.contents out.old) (W.contents out.new) (held_of types.now message.now)) }
{
    write_types(out, types)?;
    out.write_all(b";")?;
    out.write_all(message)?;
    out.write_all(b"\n")
}

fn write_line<W: Write>(
    out: &mut W,
    answer: Answer,
    scratch: &[u16],
    types: &[u8],
    message: &[u8],
) -> io::Result<()>
    ensures { OnOk result (Appends (W.contents out.old) (W.contents out.new)
        (line_of answer scratch.now types.now message.now)) }
{
    let unmarked = noise_len(types, BYTE);
    let unwritten = noise_len(message, BYTE);
    write_four(
        out,
        answer.number as usize,
        answer.place as usize,
        answer.count as usize,
        answer.length as usize,
    )?;
    write_four(
        out,
        zeros(scratch),
        noise_len(scratch, CELL),
        unmarked,
        unwritten,
    )?;
    write_held(
        out,
        &types[..types.len() - unmarked],
        &message[..message.len() - unwritten],
    )
}

// The most that is read of a sheet, and lent of each buffer.
const MOST: usize = 32768;

// Lends what the header tells, as far as there is so much. Here and below each buffer is a parameter: of one struct that is lent, the check of
// borrows does not let several fields be lent at once.
#[tactic(auto, unfolding(crate::specs::Written::line_for))]
fn write_answer<W: Write>(
    out: &mut W,
    sheet: &[u8],
    scratch: &mut [u16; MOST],
    types: &mut [u8; MOST],
    message: &mut [u8; MOST],
    lengths: Lengths,
) -> io::Result<()>
    ensures { OnOk result (Appends (W.contents out.old) (W.contents out.new) (line_for sheet.now lengths)) }
{
    let scratch = &mut scratch[..lengths.scratch.min(MOST)];
    let types = &mut types[..lengths.types.min(MOST)];
    let message = &mut message[..lengths.message.min(MOST)];
    fill(scratch, CELL);
    fill(types, BYTE);
    fill(message, BYTE);
    let answer = verdict::verdict(sheet, scratch, types, message);
    write_line(out, answer, scratch, types, message)
}

// One sheet with its header; whether there was one.
fn turn<R: Read, W: Write>(
    input: &mut R,
    out: &mut W,
    sheet: &mut [u8; MOST],
    scratch: &mut [u16; MOST],
    types: &mut [u8; MOST],
    message: &mut [u8; MOST],
) -> io::Result<bool>
    ensures answered { IfOk result (λ there. OnTrue there (AnswersFrame (R.remaining input.old) (R.remaining input.new)
        (W.contents out.old) (W.contents out.new) (λ lengths. ⊤) sheet_size line_for)) }
    ensures ended { IfOk result (λ there. OnFalse there (EndsFrames (R.remaining input.old) (R.remaining input.new) sheet_size)) }
    ensures kept { IfOk result (λ there. OnFalse there (Keeps (W.contents out.old) (W.contents out.new))) }
{
    let Some(lengths) = frames::header(input)? else {
        return Ok(false);
    };
    let sheet = &mut sheet[..lengths.sheet.min(MOST)];
    if !frames::filled(input, sheet)? {
        return Ok(false);
    }
    write_answer(out, sheet, scratch, types, message, lengths)?;
    Ok(true)
}

// How many sheets are answered at most.
const MOST_SHEETS: u32 = 1000000;

// `replay_reader` ends in the same lines. Shared, they would be a function over a closure whose `requires` each program shows again, and longer.
fn main(rt: HostRuntime) -> io::Result<()> {
    let mut input = rt.stdin();
    let mut out = rt.stdout();
    let mut sheet = [0; MOST];
    let mut scratch = [0; MOST];
    let mut types = [0; MOST];
    let mut message = [0; MOST];
    for _ in 0..MOST_SHEETS {
        if !turn(
            &mut input,
            &mut out,
            &mut sheet,
            &mut scratch,
            &mut types,
            &mut message,
        )? {
            break;
        }
    }
    Ok(())
}
