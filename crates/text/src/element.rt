// A slice filled with one value.
ghost use Rattle.std.specs.Prelude.{◌≡◌, length};
ghost use Rattle.text.specs.Text.{copies};

// The slice's own `fill` says what it writes only where a clone is shown to be the value itself, which each caller would show.
pub fn fill<T: Copy>(cells: &mut [T], x: T)
    ensures { cells.new ≡ copies (length cells.old) x }
{
    for cell in cells {
        *cell = x;
    }
}
