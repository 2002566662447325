// How a rule answers.
ghost use Rattle.std.specs.Prelude.{◌≡◌};
ghost use Rattle.refusals.specs.Answers.{expected};

use crate::refusal::Refusal;

// Refuses unless the test holds.
pub fn expect(holds: bool, why: Refusal) -> Result<(), Refusal>
    ensures { result ≡ expected holds why }
{
    if holds {
        return Ok(());
    }
    Err(why)
}
