// The calls for other languages; `quanta_check_c` exports them.
#![tactic(auto)]

mod load;

ghost use Rattle.std.specs.Prelude.{◌≡◌, ◌≤◌};
ghost use Rattle.rules.specs.Verdict.{longest};
ghost use Rattle.verdict.specs.Outcome.{outcome};

pub use load::{Load, quanta_load};
use verdict::Answer;

// The verdict call.
pub fn quanta_check(
    sheet: &[u8],
    scratch: &mut [u16],
    types: &mut [u8],
    message: &mut [u8],
) -> Answer
    ensures equals_outcome { record { answer = result; scratch = scratch.new; types = types.new; message = message.new } ≡ outcome sheet.now scratch.old types.old message.old }
    ensures message_fits { result.length ≤ longest }
{
    verdict::verdict(sheet, scratch, types, message)
}
