// The verdict call: from the bytes of a sheet and lent buffers to the whole answer.
#![tactic(auto)]

mod judging;

ghost use Rattle.std.specs.Prelude.{◌≡◌, ◌≤◌};
ghost use Rattle.rules.specs.Verdict.{longest};
ghost use Rattle.verdict.specs.Outcome.{outcome};

pub use judging::{judge, judge_lines, tell};
use sheet::{CELLS_PER_LINE, Refused, load};

// Numbers, since C reads it. Number is 0 for acceptance. Place is a line from 1 for 6 to 11 and a span from 12 on. Count is how many lines are marked, length
// how many bytes the message has, whether it fits or not.
#[repr(C)]
#[derive(Clone, Copy)]
pub struct Answer {
    pub number: u32,
    pub place: u32,
    pub count: u32,
    pub length: u32,
}

// The whole call. It asks nothing of the sheet, of the buffers' lengths or of what they hold. Of several guardian sets that are out of
// bound among the state fields it names the first in the sheet, where the rules leave open which (`Allowed` of rules/specs/Verdict).
pub fn verdict(sheet: &[u8], scratch: &mut [u16], types: &mut [u8], message: &mut [u8]) -> Answer
    ensures equals_outcome { record { answer = result; scratch = scratch.new; types = types.new; message = message.new } ≡ outcome sheet.now scratch.old types.old message.old }
    ensures message_fits { result.length ≤ longest }
{
    match load(sheet, scratch, types.len()) {
        Ok(n) => judge_lines(
            sheet,
            &mut scratch[..CELLS_PER_LINE * n],
            &mut types[..n],
            message,
        ),
        Err(Refused { number, line }) => Answer {
            number,
            place: line as u32,
            count: 0,
            length: 0,
        },
    }
}
