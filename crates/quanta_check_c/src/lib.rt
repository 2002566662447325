// The static library for C and Rust: a slice is a pointer and a length there, and an answer comes back by value.
// An exported function has clauses of its own, so those of `quanta_check` stand here again.
#![tactic(auto)]

ghost use Rattle.std.specs.Prelude.{◌≡◌, ◌≤◌, length};
ghost use Rattle.rules.specs.Verdict.{longest};
ghost use Rattle.sheet.specs.Load.{load};
ghost use Rattle.sheet.specs.Promise.{answer, scratch_after};
ghost use Rattle.verdict.specs.Outcome.{outcome};
ghost use Rattle.quanta_check.specs.Export.{load_of};

use quanta_check::Load;
use verdict::Answer;

// The verdict call.
#[unsafe(no_mangle)]
pub extern "C" fn quanta_check(
    sheet: &[u8],
    scratch: &mut [u16],
    types: &mut [u8],
    message: &mut [u8],
) -> Answer
    ensures equals_outcome { record { answer = result; scratch = scratch.new; types = types.new; message = message.new } ≡ outcome sheet.now scratch.old types.old message.old }
    ensures message_fits { result.length ≤ longest }
{
    quanta_check::quanta_check(sheet, scratch, types, message)
}

// The sheet reader alone.
#[unsafe(no_mangle)]
pub extern "C" fn quanta_load(sheet: &[u8], scratch: &mut [u16], types: usize) -> Load
    ensures value { result ≡ load_of (answer (load sheet.now types (length scratch.old))) }
    ensures scratch_after { scratch.new ≡ scratch_after sheet.now types scratch.old }
{
    quanta_check::quanta_load(sheet, scratch, types)
}
