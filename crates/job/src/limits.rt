// The limits of a job, by the names that `specs/Limits` gives them, and the room that they give (`specs/internal/Form`).
pub const MOST_DEGREE: u32 = 12; // of D, and so of the number of roots

pub const MOST_WIDTH: u32 = 64; // of N

pub const HEAD_FIELDS: usize = 6; // p, D, N, r and two offsets

pub const JOB_ROOM: usize = 4096; // the bytes that the program reads: a right file has at most 3,402

pub const ROOTS_ROOM: usize = 12;

pub const ROWS_ROOM: usize = 832; // 13 rows of 64 words
