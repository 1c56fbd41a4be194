// The limits of typed input, by the names that `specs/Limits` gives them.
pub const LONGEST_INPUT: usize = 4160; // the longest polynomial, 4,096 bytes, and a first line of 64

pub const ROWS_LENT: usize = 2112; // 33 rows of 64 words

pub const INPUT_ROOM: usize = 4161; // the bytes that the program reads: one more than the longest input has
