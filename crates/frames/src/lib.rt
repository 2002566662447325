// Frames of an input: a header of 24 bytes, four numbers of five digits with a byte behind each, and a sheet behind it.
#![tactic(auto)]

ghost use Rattle.std.specs.Prelude.{◌≡◌, ◌<◌, ◌≤◌, IfOk, length, take};
ghost use Rattle.std.specs.Io.KnownBytes.{Consumes, IsAtEnd};
ghost use Rattle.frames.specs.Frame.{digit_of, number_of, Fills, TakesHeader};

use std::io;
use std::io::Read;

// How long the sheet is, and what is lent to it.
#[derive(Clone, Copy)]
pub struct Lengths {
    pub sheet: usize,
    pub scratch: usize,
    pub types: usize,
    pub message: usize,
}

// The value of a decimal digit, and 0 of another byte. `to_digit` is a char's, and would be led back to bytes from there.
fn digit(b: u8) -> usize
    ensures upper_bound { result ≤ 9 }
    ensures value { result ≡ digit_of b }
{
    match b {
        b'0'..=b'9' => usize::from(b - b'0'),
        _ => 0,
    }
}

// Five digits of the header, from a position on. In a fold over them it would be left to prove that the total fits.
fn number(head: &[u8; 24], at: usize) -> usize
    requires { at ≤ 19 }
    ensures { result ≡ number_of head.now at }
{
    digit(head[at]) * 10000
        + digit(head[at + 1]) * 1000
        + digit(head[at + 2]) * 100
        + digit(head[at + 3]) * 10
        + digit(head[at + 4])
}

// Reads until the bytes are full or the input ends; how many bytes of it there were. A while: each read gives as many as it likes.
pub fn read_full<R: Read>(input: &mut R, bytes: &mut [u8]) -> io::Result<usize>
    ensures bound { IfOk result (λ n. n ≤ length bytes.new) }
    ensures consumed { IfOk result (λ n. Consumes (R.remaining input.old) (R.remaining input.new) (take n bytes.new)) }
    ensures ended { IfOk result (λ n. n < length bytes.new → IsAtEnd (R.remaining input.new)) }
{
    let mut count = 0;
    while count < bytes.len() {
        let n = input.read(&mut bytes[count..])?;
        if n == 0 {
            return Ok(count);
        }
        count += n;
    }
    Ok(count)
}

// Fills the bytes; whether there were as many.
pub fn filled<R: Read>(input: &mut R, bytes: &mut [u8]) -> io::Result<bool>
    ensures { IfOk result (Fills (R.remaining input.old) (R.remaining input.new) bytes.new) }
{
    Ok(read_full(input, bytes)? == bytes.len())
}

// Reads the next header, if there is one.
#[tactic(auto, unfolding(crate::specs::Frame::lengths_of))]
pub fn header<R: Read>(input: &mut R) -> io::Result<Option<Lengths>>
    ensures { IfOk result (TakesHeader (R.remaining input.old) (R.remaining input.new)) }
{
    let mut head = [0u8; 24];
    if !filled(input, &mut head)? {
        return Ok(None);
    }
    Ok(Some(Lengths {
        sheet: number(&head, 0),
        scratch: number(&head, 6),
        types: number(&head, 12),
        message: number(&head, 18),
    }))
}
