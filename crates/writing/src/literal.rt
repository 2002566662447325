// The number of a literal's text as Rust prints it.
ghost use Rattle.std.specs.Prelude.{◌≡◌, ◌≤◌, drop, length};
ghost use Rattle.rules.specs.Types.{no_underscores};
ghost use Rattle.writing.specs.Writing.{Adds};
ghost use Rattle.writing.specs.Literal.{AddsLiteral, counting};

use crate::write::Message;
use lookups::zero_digit;

// Where the digits start that count.
fn start_of(text: &[u8]) -> usize
    ensures text_value { drop result text.now ≡ counting text.now }
    ensures upper_bound { result ≤ length text.now }
{
    text.iter()
        .position(|b| !zero_digit(*b))
        .unwrap_or(text.len())
}

impl Message<'_> {
    // Adds a text without its underscores.
    fn add_digits(&mut self, text: &[u8])
        ensures { Adds (no_underscores text.now) self.old self.new }
    {
        for &b in text {
            if b == b'_' {
                continue;
            }
            self.add(&[b]);
        }
    }

    // Adds the number that a literal's text means.
    pub fn add_literal(&mut self, text: &[u8])
        ensures { AddsLiteral text.now self.old self.new }
    {
        let start = start_of(text);
        if text.len() <= start {
            return self.add(b"0");
        }
        self.add_digits(&text[start..]);
    }
}
