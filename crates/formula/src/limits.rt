// The limits of typed text, by the names that `specs/Limits` gives them.
pub const LONGEST_TEXT: usize = 4096;

pub const MOST_DIGITS: u32 = 9;

pub const LARGEST_POWER: u32 = 255;

pub const DEEPEST_BRACKETS: u32 = 32;
