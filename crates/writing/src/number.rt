// Numbers of a message, in decimal digits.
ghost use Rattle.std.specs.Prelude.{◌≡◌, ◌≤◌, drop, length};
ghost use Rattle.rules.specs.Text.{digits};
ghost use Rattle.writing.specs.Writing.{Adds};

use crate::write::Message;

// Twenty bytes, of which those from start on are the digits. No `Display`: a formatter would want a `fmt::Write` of `Message`, which is `add`.
#[derive(Clone, Copy)]
struct Digits {
    text: [u8; 20],
    start: usize,
}

fn decimal_of(n: u64) -> Digits
    ensures text_value { drop result.start result.text ≡ digits 39 n }
    ensures start_bound { result.start ≤ 20 }
    ensures text_len { length result.text ≡ 20 }
{
    let mut text = [0u8; 20];
    let mut left = n;
    for start in (0..20).rev() {
        text[start] = 48 + ((left % 10) as u8);
        left /= 10;
        if left == 0 {
            return Digits { text, start };
        }
    }
    Digits { text, start: 0 }
}

impl Message<'_> {
    // Adds the decimal digits of n.
    pub fn add_decimal(&mut self, n: u64)
        ensures { Adds (digits 39 n) self.old self.new }
    {
        let d = decimal_of(n);
        let text = d.text;
        let start = d.start;
        self.add(&text[start..]);
    }
}
