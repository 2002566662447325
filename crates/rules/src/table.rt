// How many lines are marked.
ghost use Rattle.std.specs.Prelude.{◌≡◌};
ghost use Rattle.rules.specs.Kept.{count};

pub fn marked(table: &[u8]) -> usize
    ensures { result ≡ count table.now }
{
    table.iter().filter(|m| **m != 0).count()
}
