// A refusal of a sheet.
ghost use Rattle.std.specs.Prelude.{◌≡◌};

// A refusal from 1 to 11, and its line: 0 for 1 to 5. The number stands as it is, not as an enum: the written rules, C and the replays
// know a refusal by its number, and an enum would add a table of the numbers, and at each of these callers a proof that it is right.
#[derive(Clone, Copy)]
pub struct Refused {
    pub number: u32,
    pub line: usize,
}

pub fn refuse(number: u32, line: usize) -> Refused
    ensures { result ≡ record { number = number; line = line } }
{
    Refused { number, line }
}
