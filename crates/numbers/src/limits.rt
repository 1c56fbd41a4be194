// The limits of the specification, by the names that `specs/Limits` gives them.
pub const LARGEST_MODULUS: u32 = 16777215; // three bytes

pub const LARGEST_DEGREE: u32 = 32;

pub const MOST_ROWS: usize = 33; // a polynomial of the largest degree bound

pub const MOST_ROOTS: usize = 32; // one for each degree

pub const LARGEST_WIDTH: u32 = 256; // the largest N
