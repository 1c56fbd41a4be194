// Typed polynomials: text to rows.
#![tactic(auto)]

ghost use Rattle.std.specs.Prelude.{◌≡◌, [], ◌∷◌, ◌-◌, ◌*◌, ◌≤◌, ◌<◌, length};
ghost use Rattle.numbers.specs.Refusals.{judge, outcome, outcome_after, written, room_check, verdict, Pass};
ghost use Rattle.numbers.specs.Limits.{most_rows, largest_width};
ghost use Rattle.numbers.specs.internal.Limits.{modulus_bound};
ghost use Rattle.numbers.specs.Words.{word, over, tabulate};
ghost use Rattle.formula.specs.internal.Scan.{State, Stack, scan};
ghost use Rattle.read.specs.Read.{text_checks, ReadOf};

use crate::limits::VALUE_ROOM;
use formula::reader;
use numbers::judge::{check_modulus, outside};
use numbers::limits::LARGEST_WIDTH;
use numbers::refusal::Refusal;

mod evaluate; // the readers of sums, terms and elements
mod limits; // how much room values take
mod longest; // the part that a reader begins with
mod parts; // the steps of the readers that call no reader
mod places; // what stands at a place of the text
mod values; // the values of parts of a formula

// Values are polynomials that are kept modulo p and X^n.
#[derive(Clone, Copy)]
pub struct Ring {
    pub p: u32,
    pub n: usize,
    ghost bounds: { (2 ≤ p) × (p < modulus_bound) × (1 ≤ n) × (n ≤ largest_width) },
}

// A part of a formula that was read: the place after it, and how many rows of its value count.
#[derive(Clone, Copy)]
pub struct Part {
    pub at: usize,
    pub rows: usize,
}

// Where a sum's first term begins, and whether a minus stands before it.
#[derive(Clone, Copy)]
pub struct Start {
    pub minus: bool,
    pub at: usize,
}

// The sign of a term.
#[derive(Clone, Copy, PartialEq, Eq)]
pub enum Sign {
    Plus,
    Minus,
}

// A number that was read: its value and the place after it.
#[derive(Clone, Copy)]
pub struct Number {
    pub value: u32,
    pub at: usize,
}

// Refusals 1, 2, 4, 17 and 18.
fn check_text(p: u32, n: u32, text: &[u8]) -> Result<(), Refusal>
    ensures { verdict result ≡ judge (text_checks p n (length text.now) (scan (State.lead Stack.bottom) text.now)) }
{
    check_modulus(p)?;
    if outside(1, LARGEST_WIDTH, n) {
        return Err(Refusal::Terms);
    }
    reader::survey_text(text)
}

// The rows that count, if `out` has room for them. The answer is the last one's number.
fn hand_over(n: usize, rows: usize, value: &[u32], out: &mut [u32]) -> Result<u32, Refusal>
    requires { (1 ≤ rows) × (rows ≤ most_rows) × (n ≤ largest_width) × (most_rows * n ≤ length value.now) }
    ensures answer { outcome result ≡ outcome_after (judge (room_check (length out.old) (rows * n) ∷ [])) (rows - 1) }
    ensures words { out.new ≡ written (judge (room_check (length out.old) (rows * n) ∷ [])) (over (tabulate (rows * n) (word value.now)) out.old) out.old }
{
    let words = rows * n;
    if out.len() < words {
        return Err(Refusal::Short(words as u32));
    }
    values::put(words, value, out);
    Ok((rows - 1) as u32)
}

// Reads a text that has passed refusals 1 to 18. This stands apart so that the room for the value is cleared only where it is used, and once.
fn read_checked(ring: Ring, text: &[u8], out: &mut [u32]) -> Result<u32, Refusal>
    requires { judge (text_checks ring.p ring.n (length text.now) (scan (State.lead Stack.bottom) text.now)) ≡ Pass }
    ensures { ReadOf ring.p ring.n text.now out.old (outcome result) out.new }
{
    let mut value = [0u32; VALUE_ROOM];
    let Some(part) = evaluate::sum_at(ring, text, 0, &mut value) else {
        return Err(Refusal::High);
    };
    hand_over(ring.n, part.rows, &value, out)
}

// Reads a typed polynomial: its rows modulo p and X^n go to the front of `out`, and the answer is its Y-degree.
pub fn read(p: u32, n: u32, text: &[u8], out: &mut [u32]) -> Result<u32, Refusal>
    ensures { ReadOf p n text.now out.old (outcome result) out.new }
{
    check_text(p, n, text)?;
    let ring = Ring { p, n: n as usize };
    read_checked(ring, text, out)
}
