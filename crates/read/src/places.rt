// What stands at a place of the text. These trust their caller where they have a `requires`.
ghost use Rattle.std.specs.Prelude.{◌≡◌, ◌≤◌, length};
ghost use Rattle.formula.specs.internal.Scan.{kind_of, kind_at};
ghost use Rattle.read.specs.internal.Places.{has_byte, sign_of, digit_of, Looked, Started, Counted, Exponent};

use crate::{Number, Sign, Start};
use formula::bytes::{BLANK, MINUS, NINE, PLUS, ZERO};
use formula::limits::{LARGEST_POWER, MOST_DIGITS};

// The first place, from a place on, where no blank stands.
pub fn look(text: &[u8], at: usize) -> usize
    requires { at ≤ length text.now }
    ensures { Looked text.now at result }
{
    let rest = &text[at..];
    at + rest.iter().position(|b| *b != BLANK).unwrap_or(rest.len())
}

pub fn has_byte(text: &[u8], at: usize, b: u8) -> bool
    ensures { result ≡ has_byte text.now at b }
{
    at < text.len() && text[at] == b
}

// The sign at a place, if one stands there.
pub fn sign_at(text: &[u8], at: usize) -> Option<Sign>
    ensures { result ≡ sign_of (kind_at text.now at) }
{
    if has_byte(text, at, PLUS) {
        Some(Sign::Plus)
    } else if has_byte(text, at, MINUS) {
        Some(Sign::Minus)
    } else {
        None
    }
}

// What stands before a sum's first term.
pub fn start_at(text: &[u8], at: usize) -> Start
    requires { at ≤ length text.now }
    ensures { Started text.now at result }
{
    let q = look(text, at);
    match sign_at(text, q) {
        None => Start {
            minus: false,
            at: q,
        },
        Some(sign) => Start {
            minus: sign == Sign::Minus,
            at: q + 1,
        },
    }
}

// The digit that a byte is, if it is one.
fn digit_of(b: u8) -> Option<u32>
    ensures { result ≡ digit_of (kind_of b) }
{
    match b {
        ZERO..=NINE => Some(u32::from(b - ZERO)),
        _ => None,
    }
}

// The digit at a place, if one stands there.
pub fn digit_at(text: &[u8], at: usize) -> Option<u32>
    ensures { result ≡ digit_of (kind_at text.now at) }
{
    if at < text.len() {
        digit_of(text[at])
    } else {
        None
    }
}

// A number, from its second digit on; d is its first. There are at most nine.
pub fn digits_at(text: &[u8], at: usize, d: u32) -> Option<Number>
    requires { (at ≤ length text.now) × (d ≤ 9) }
    ensures { Counted text.now at d result }
{
    let mut value = d;
    for q in at..text.len() {
        let Some(k) = digit_of(text[q]) else {
            return Some(Number { value, at: q });
        };
        if q - at + 1 == MOST_DIGITS as usize {
            return None;
        }
        value = value * 10 + k;
    }
    Some(Number {
        value,
        at: text.len(),
    })
}

// The power that follows a caret, from the place after the caret on: a number up to 255.
pub fn exponent_at(text: &[u8], at: usize) -> Option<Number>
    requires { at ≤ length text.now }
    ensures { Exponent text.now at result }
{
    let q = look(text, at);
    let d = digit_at(text, q)?;
    let r = digits_at(text, q + 1, d)?;
    if r.value <= LARGEST_POWER {
        Some(Number {
            value: r.value,
            at: look(text, r.at),
        })
    } else {
        None
    }
}
