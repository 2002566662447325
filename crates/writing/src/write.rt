// A message is told twice by one code: into an empty buffer, which tells its length, and into the lent one, if it fits.
ghost use Rattle.std.specs.Prelude.{◌++◌, ◌≡◌};
ghost use Rattle.writing.specs.Writing.{Adds, overlay};

// A message of `length` bytes; the buffer has those that it has room for.
#[derive(Drop)]
pub struct Message<'a> {
    buffer: &'a mut [u8],
    pub length: usize,
}

// Writes the piece over the start of the rest, up to its end. By a range: `copy_from_slice` calls memmove, which the archive for C would then want of its host.
fn put(rest: &mut [u8], piece: &[u8])
    ensures { rest.new ≡ overlay rest.old 0 piece.now }
{
    let n = rest.len().min(piece.len());
    for i in 0..n {
        rest[i] = piece[i];
    }
}

// Writes the piece into the rest of the buffer from `at` on. No method: it tells of the buffer alone.
fn write(buffer: &mut [u8], at: usize, piece: &[u8])
    ensures { buffer.new ≡ overlay buffer.old at piece.now }
{
    if buffer.len() < at {
        return;
    }
    put(&mut buffer[at..], piece);
}

impl<'a> Message<'a> {
    // The message of no bytes, to be written into the buffer from its start on.
    pub fn new(buffer: &'a mut [u8]) -> Message<'a>
        ensures same_buffer { result.buffer.ghost_name ≡ buffer.entry.ghost_name }
        ensures unwritten { result.buffer.now ≡ buffer.old }
        ensures no_bytes { result.length ≡ 0 }
    {
        Message { buffer, length: 0 }
    }

    // Adds a piece at the end. A length above the largest usize is told as that.
    pub fn add(&mut self, piece: &[u8])
        ensures { Adds piece.now self.old self.new }
    {
        write(self.buffer, self.length, piece);
        self.length = self.length.saturating_add(piece.len());
    }

    // Adds a name between two texts.
    pub fn say(&mut self, before: &[u8], name: &[u8], after: &[u8])
        ensures { Adds (before.now ++ (name.now ++ after.now)) self.old self.new }
    {
        self.add(before);
        self.add(name);
        self.add(after);
    }
}
