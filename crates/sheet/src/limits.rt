// The limits of a sheet.
pub const MOST_BYTES: usize = 16384;

pub const MOST_LINES: usize = 1024;

// The largest COUNT, FLAG, and SPAN or NSPAN.
pub const MOST_COUNT: u32 = 1024;

pub const MOST_FLAG: u32 = 1;

pub const MOST_SPAN: u32 = 4294967295;
