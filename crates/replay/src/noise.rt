// The noise in lent buffers: a byte that is neither a line's mark nor in a message, and a cell that is not zero.
ghost use Rattle.std.specs.Prelude.{◌≡◌, ◌==◌, ◌≤◌, length};
ghost use Rattle.std.specs.List.{prefix_len, suffix_len};

pub const BYTE: u8 = 165;

pub const CELL: u16 = 42405;

// How many items hold the noise up to the end.
pub fn noise_len<T: Copy + PartialEq>(items: &[T], noise: T) -> usize
    ensures upper_bound { result ≤ length items.now }
    ensures value { result ≡ suffix_len (λ x. T.eq x noise) items.now }
{
    items.iter().rev().take_while(|x| **x == noise).count()
}

// How many cells are zero from the start on.
pub fn zeros(cells: &[u16]) -> usize
    ensures { result ≡ prefix_len (λ c. c == 0) cells.now }
{
    cells.iter().take_while(|c| **c == 0).count()
}
