// Fixed byte strings compared against a part of a line.
ghost use Rattle.std.specs.Prelude.{◌≡◌, ◌<◌, IfSome, length};
ghost use Rattle.text.specs.Text.{same};
ghost use Rattle.text.specs.Word.{place_in, split};

use crate::piece::find;

// Whether part and word hold the same bytes.
#[tactic(auto, using(crate::proofs::Words::equal_same))]
pub fn is_word(part: &[u8], word: &[u8]) -> bool
    ensures { result ≡ same part.now word.now }
{
    part == word
}

// The place of part among the words of a table, each of which is ended by a space. A while: the library's split also gives what stands
// behind the last space, which is no word.
pub fn place_in(part: &[u8], table: &[u8]) -> Option<usize>
    ensures place { result ≡ place_in part.now (split table.now) }
    ensures within { IfSome result (λ k. k < length table.now) }
{
    let mut k = 0;
    let mut start = 0;
    while start < table.len() {
        let end = find(table, start, b' ', b' ');
        if table.len() <= end {
            return None;
        }
        if is_word(part, &table[start..end]) {
            return Some(k);
        }
        k += 1;
        start = end + 1;
    }
    None
}
