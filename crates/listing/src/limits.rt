// The room that a job's limits give its sheet, the series of its roots, and its text: the first and the last by the names that `text/specs` gives them.
pub const SHEET_ROOM: usize = 1647; // 11 + 12 + 2 · 12 + 25 · 64

pub const SERIES_ROOM: usize = 768; // 12 · 64

pub const TEXT_ROOM: usize = 9216; // 9 KiB: a text has at most 69 + 9,024 bytes, counting ten digits for each number
