// Where the pieces of a text end.
ghost use Rattle.std.specs.Prelude.{[], ◌≡◌, ◌+◌, ◌≤◌, count_by, drop, length};
ghost use Rattle.text.specs.Text.{ended, upto};
ghost use Rattle.text.specs.Text.{either as either_of};

fn either(a: u8, b: u8, x: u8) -> bool
    ensures { result ≡ either_of a b x }
{
    (x == a) | (x == b)
}

// Where the first a or b from a position on stands. Where there is none: the length, or the position itself if it is beyond that. No Option,
// since a piece that no byte ends goes on to the end of the text: most callers would put the length for None. Two bytes, which may be the same, and
// no closure, which would owe its promise to each caller's proof. By index, since a position may lie behind the end, where no slice begins.
pub fn find(s: &[u8], from: usize, a: u8, b: u8) -> usize
    ensures { result ≡ from + length (upto (either_of a b) (drop from s.now)) }
{
    for i in from..s.len() {
        if either(a, b, s[i]) {
            return i;
        }
    }
    from.max(s.len())
}

// How many bytes of a part end a piece. A count in a byte, without a branch, is compiled to vector instructions.
fn count_part(part: &[u8], a: u8, b: u8) -> u8
    requires { length part.now ≤ 255 }
    ensures { result ≡ count_by (either_of a b) part.now }
{
    let mut n = 0;
    for &x in part {
        n += u8::from(either(a, b, x));
    }
    n
}

// How many pieces s has, each ended by a or b.
pub fn count(s: &[u8], a: u8, b: u8) -> usize
    ensures { result ≡ length (ended (either_of a b) [] s.now) }
{
    let mut n = 0;
    for part in s.chunks(255) {
        n += usize::from(count_part(part, a, b));
    }
    n
}
