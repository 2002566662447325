// Literals as u128 numbers.
ghost use Rattle.std.specs.Prelude.{◌≡◌, ◌*◌, ◌+◌, ◌-◌, ◌<◌, ◌^◌};
ghost use Rattle.std.specs.Option.{SomeIff};
ghost use Rattle.narrow.specs.Narrow.{exceeds_of};

// The number n with one more digit, which is 0 for a byte below the digits; None where that is no u128.
fn with_digit(n: u128, b: u8) -> Option<u128>
    ensures { SomeIff result (n * 10 + (b - 48) < 2 ^ 128) (n * 10 + (b - 48)) }
{
    n.checked_mul(10)?
        .checked_add(u128::from(b.saturating_sub(b'0')))
}

// Whether the text's number, its underscores left out, is above most; a text that is no u128 has none. By hand: `parse` takes no underscores.
pub fn exceeds(text: &[u8], most: u64) -> bool
    ensures { result ≡ exceeds_of text.now most }
{
    let mut n: u128 = 0;
    for &b in text {
        if b == b'_' {
            continue;
        }
        let Some(m) = with_digit(n, b) else {
            return false;
        };
        n = m;
    }
    u128::from(most) < n
}
