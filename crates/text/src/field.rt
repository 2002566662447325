// The rules of a field: NAME, TEXT, and the decimals SPAN, NSPAN, COUNT and FLAG.
ghost use Rattle.std.specs.Prelude.{◌≡◌};
ghost use Rattle.text.specs.Field.{is_name, is_plain, is_text, number_of, plain};

// Whether b may stand in a TEXT, or in a NAME where letters is true.
fn is_plain_byte(letters: bool, b: u8) -> bool
    ensures { result ≡ plain letters b }
{
    b.is_ascii_digit() | (b == b'_') | (letters & b.is_ascii_alphabetic())
}

// Whether part is 1 to 64 such bytes.
fn is_plain(letters: bool, part: &[u8]) -> bool
    ensures { result ≡ is_plain letters part.now }
{
    if part.is_empty() | (64 < part.len()) {
        return false;
    }
    part.iter().all(|&b| is_plain_byte(letters, b))
}

// Whether part is a NAME.
pub fn is_name(part: &[u8]) -> bool
    ensures { result ≡ is_name part.now }
{
    is_plain(true, part) && !part[0].is_ascii_digit()
}

// Whether part is a TEXT.
pub fn is_text(part: &[u8]) -> bool
    ensures { result ≡ is_text part.now }
{
    is_plain(false, part)
}

// The decimal number that part is, from 0 to most. By hand: `parse` also takes a sign and zeros in front, and wants a text of chars.
pub fn number_of(part: &[u8], most: u32) -> Option<u32>
    ensures { result ≡ number_of most part.now }
{
    if let [] | [b'0', _, ..] = part {
        return None;
    }
    let top = u64::from(most);
    let mut v: u64 = 0;
    for &b in part {
        if !b.is_ascii_digit() {
            return None;
        }
        v = v * 10 + u64::from(b - b'0');
        if top < v {
            return None;
        }
    }
    Some(v as u32)
}
