// The bytes of typed text, by name.
pub const BLANK: u8 = 32;

pub const OPEN: u8 = 40;

pub const CLOSE: u8 = 41;

pub const STAR: u8 = 42;

pub const PLUS: u8 = 43;

pub const MINUS: u8 = 45;

pub const ZERO: u8 = 48;

pub const NINE: u8 = 57;

pub const LETTER_X: u8 = 88;

pub const LETTER_Y: u8 = 89;

pub const CARET: u8 = 94;
