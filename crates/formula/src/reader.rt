// The text with a place in it. The functions are thin: each takes the reader apart and calls a function on the slice and the number.
ghost use Rattle.std.specs.Prelude.{◌≡◌};
ghost use Rattle.numbers.specs.Refusals.{verdict};
ghost use Rattle.formula.specs.internal.Survey.{survey_at};

use crate::survey_at;
use numbers::refusal::Refusal;

#[derive(Clone, Copy)]
pub struct Reader<'a> {
    pub text: &'a [u8],
    pub at: usize,
}

// At the first byte.
pub fn new<'a>(text: &'a [u8]) -> Reader<'a>
    ensures { (result.text ≡ text.entry) × (result.at ≡ 0) }
{
    Reader { text, at: 0 }
}

// Whether the text can be read from the reader's place on.
pub fn survey<'a>(r: Reader<'a>) -> Result<(), Refusal>
    ensures { verdict result ≡ survey_at r.entry.text.now r.entry.at }
{
    survey_at(r.text, r.at)
}

// Whether the whole text can be read.
pub fn survey_text(text: &[u8]) -> Result<(), Refusal>
    ensures { verdict result ≡ survey_at text.now 0 }
{
    survey(new(text))
}
