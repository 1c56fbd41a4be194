// Formulas: what typed text stands for, and whether a text can be read.
#![tactic(auto)]

ghost use Rattle.std.specs.Prelude.{◌≡◌};
ghost use Rattle.numbers.specs.Refusals.{verdict};
ghost use Rattle.formula.specs.internal.Scan.{kind_of, kind_at};
ghost use Rattle.formula.specs.internal.Survey.{survey_at};

use crate::bytes::{BLANK, CARET, CLOSE, LETTER_X, LETTER_Y, MINUS, NINE, OPEN, PLUS, STAR, ZERO};
use crate::limits::{DEEPEST_BRACKETS, LONGEST_TEXT};
use numbers::refusal::Refusal;

pub mod bytes; // by name
pub mod limits; // how long a text is, how large a power, how deep the brackets
pub mod reader; // the text with a place in it
mod survey; // one pass along the text

// What a byte is.
#[derive(Clone, Copy)]
pub enum Kind {
    Blank,
    Digit(u32),
    LetterX,
    LetterY,
    Plus,
    Minus,
    Star,
    Caret,
    Open,
    Close,
    Other,
}

pub fn kind_of(b: u8) -> Kind
    ensures { result ≡ kind_of b }
{
    match b {
        BLANK => Kind::Blank,
        LETTER_X => Kind::LetterX,
        LETTER_Y => Kind::LetterY,
        PLUS => Kind::Plus,
        MINUS => Kind::Minus,
        STAR => Kind::Star,
        CARET => Kind::Caret,
        OPEN => Kind::Open,
        CLOSE => Kind::Close,
        ZERO..=NINE => Kind::Digit((b - ZERO) as u32),
        _ => Kind::Other,
    }
}

// What stands at a place of a text; past its end, nothing that is read.
pub fn kind_at(text: &[u8], at: usize) -> Kind
    ensures { result ≡ kind_at text.now at }
{
    if at < text.len() {
        kind_of(text[at])
    } else {
        Kind::Other
    }
}

// Whether a text can be read from a place on, and its brackets are not too deep.
pub fn survey_at(text: &[u8], at: usize) -> Result<(), Refusal>
    ensures { verdict result ≡ survey_at text.now at }
{
    if text.len() < at {
        return Err(Refusal::Unreadable);
    }
    let rest = &text[at..];
    let too_long = LONGEST_TEXT < rest.len();
    if too_long || !survey::readable(rest) {
        return Err(Refusal::Unreadable);
    }
    let too_deep = DEEPEST_BRACKETS < survey::brackets(rest);
    if too_deep { Err(Refusal::Deep) } else { Ok(()) }
}
