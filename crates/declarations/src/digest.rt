// Names that speak of a digest, which a Q_Word64 can't hold.
ghost use Rattle.std.specs.Prelude.{◌≡◌, suc, ◌<◌};
ghost use Rattle.rules.specs.Declarations.{contains_any, DIGEST_NAME_TOKENS, refuse_word64_as_digest, starts_with};
ghost use Rattle.rules.specs.Declarations.{lower as lower_of};
ghost use Rattle.rules.specs.Standing.{param_at, type_at};
ghost use Rattle.refusals.specs.Answers.{Answers};
ghost use Rattle.refusals.specs.Refusal.{done_of};
ghost use Rattle.sheet.specs.Scratch.{line_count};
ghost use Rattle.declarations.specs.Tests.{starts_any};

use refusals::{Refusal, expect};
use sheet::LoadedSheet;
use text::is_word;

// Whether s starts with word, small and capital letters alike.
fn starts_with(s: &[u8], word: &[u8]) -> bool
    ensures { result ≡ starts_with (lower_of s.now) word.now }
{
    (word.len() <= s.len())
        & s.iter()
            .zip(word)
            .all(|(a, b)| a.to_ascii_lowercase() == *b)
}

// Whether s starts with a digest word. One behind the other: an array of the words would be laid out at each place of a name.
fn starts_digest(s: &[u8]) -> bool
    ensures { result ≡ starts_any (lower_of s.now) DIGEST_NAME_TOKENS }
{
    starts_with(s, b"digest")
        | (starts_with(s, b"hash")
            | (starts_with(s, b"fingerprint")
                | (starts_with(s, b"checksum")
                    | (starts_with(s, b"commitment") | starts_with(s, b"merkle")))))
}

// Whether a digest word stands at any place of the name.
fn has_digest(name: &[u8]) -> bool
    ensures { result ≡ contains_any (lower_of name.now) DIGEST_NAME_TOKENS }
{
    (0..name.len()).any(|i| starts_digest(&name[i..]))
}

// The field or parameter at line named, whose type stands at the next line.
pub fn refuse_word64_as_digest(sheet: &LoadedSheet<'_>, named: usize) -> Result<(), Refusal>
    requires { named < line_count sheet.now.lines.now }
    ensures { Answers (refuse_word64_as_digest (param_at sheet.now.bytes.now named).name (type_at sheet.now.bytes.now (suc named))) (done_of sheet.now.bytes.now result) }
{
    if !is_word(sheet.name(named + 1), b"Q_Word64") {
        return Ok(());
    }
    expect(!has_digest(sheet.name(named)), Refusal::Digest(named))
}
