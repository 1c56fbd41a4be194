// The first line of an input.
ghost use Rattle.std.specs.Prelude.{◌≡◌, ◌-◌, ◌≤◌, length, drop};
ghost use Rattle.typed.specs.internal.Line.{figures, number_in, begins, order_rest, order_of, told, BlanksAt, NumberAt, LineIs};

use formula::bytes::{BLANK, ZERO};
use formula::limits::MOST_DIGITS;

pub const LINE_FEED: u8 = 10; // the end of a line

// A number as far as it was read: its value, and the place after it.
#[derive(Clone, Copy)]
pub struct Number {
    pub value: u32,
    pub at: usize,
}

// What a first line says, and the place where the text begins.
#[derive(Clone, Copy)]
pub struct Line {
    pub modulus: u32,
    pub terms: u32,
    pub text: usize,
}

// The first place from a place on where no blank stands.
fn after_blanks(input: &[u8], from: usize) -> usize
    requires { from ≤ length input.now }
    ensures { BlanksAt input.now from result }
{
    let rest = &input[from..];
    from + rest.iter().position(|b| *b != BLANK).unwrap_or(rest.len())
}

// The number whose digits stand from one place to another, if these are any.
fn told(from: usize, value: u32, at: usize) -> Option<Number>
    ensures { result ≡ told from value at }
{
    (from < at).then_some(Number { value, at })
}

// The number that stands from a place on, by nine digits at most.
fn figures_at(input: &[u8], from: usize) -> Option<Number>
    requires { from ≤ length input.now }
    ensures { NumberAt (figures 0 0 (drop from input.now)) input.now result }
{
    let mut value = 0;
    for at in from..input.len() {
        let b = input[at];
        if !b.is_ascii_digit() || at - from == MOST_DIGITS as usize {
            return told(from, value, at);
        }
        value = value * 10 + u32::from(b - ZERO);
    }
    told(from, value, input.len())
}

// The same after blanks.
fn number_at(input: &[u8], from: usize) -> Option<Number>
    requires { from ≤ length input.now }
    ensures { NumberAt (number_in (drop from input.now)) input.now result }
{
    figures_at(input, after_blanks(input, from))
}

fn byte_at(input: &[u8], at: usize, b: u8) -> bool
    ensures { result ≡ begins b (drop at input.now) }
{
    at < input.len() && input[at] == b
}

// What an input asks for whose first number is p and whose second one, after a blank, is looked for from a place on.
fn order_from(input: &[u8], p: u32, from: usize) -> Option<Line>
    requires { from ≤ length input.now }
    ensures { LineIs (order_rest p (number_in (drop from input.now))) input.now result }
{
    let second = number_at(input, from)?;
    let end = after_blanks(input, second.at);
    if byte_at(input, end, LINE_FEED) {
        Some(Line {
            modulus: p,
            terms: second.value,
            text: end + 1,
        })
    } else {
        None
    }
}

// What an input asks for, as far as its first line says it.
pub fn order_of(input: &[u8]) -> Option<Line>
    ensures { LineIs (order_of input.now) input.now result }
{
    let first = number_at(input, 0)?;
    if byte_at(input, first.at, BLANK) {
        order_from(input, first.value, first.at + 1)
    } else {
        None
    }
}
