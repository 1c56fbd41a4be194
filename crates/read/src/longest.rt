// Which part of a sum or of a term is the longest. A reader that begins with that part, before it has values of its own to keep, needs values
// for the other parts alone, and none of these is longer than half: so no more than ten times two values are ever kept, however deep the
// brackets. The value that is read does not depend on the choice.
ghost use Rattle.std.specs.Prelude.{◌≡◌, true, ◌+◌, ◌≤◌, ◌<◌, length};
ghost use Rattle.formula.specs.Limits.{longest_text};

use formula::bytes::{CLOSE, MINUS, OPEN, PLUS, STAR};

// What is looked through: the summands of a sum, or the factors of a term.
#[derive(Clone, Copy, PartialEq, Eq)]
pub enum Parts {
    Summands,
    Factors,
}

// Whether a byte that stands in no bracket ends such a part.
fn ends(b: u8, parts: Parts) -> bool {
    match b {
        PLUS | MINUS | CLOSE => true,
        STAR => parts == Parts::Factors,
        _ => false,
    }
}

// How many brackets are open after a byte.
fn level(b: u8, depth: usize) -> usize
    requires { depth ≤ longest_text }
    ensures { result ≤ depth + 1 }
{
    match b {
        OPEN => depth + 1,
        CLOSE => depth.saturating_sub(1),
        _ => depth,
    }
}

// Where the part ends that begins at a place.
fn end_of(text: &[u8], at: usize, parts: Parts) -> usize
    requires { (at ≤ length text.now) × (length text.now ≤ longest_text) }
    ensures { (at ≤ result) × (result ≤ length text.now) }
{
    let mut depth = 0;
    for q in at..text.len() {
        if depth == 0 && ends(text[q], parts) {
            return q;
        }
        depth = level(text[q], depth);
    }
    text.len()
}

// Whether another such part follows.
fn parted(text: &[u8], at: usize, parts: Parts) -> bool
    ensures { result ≡ true → at < length text.now }
{
    at < text.len()
        && match parts {
            Parts::Summands => text[at] != CLOSE,
            Parts::Factors => text[at] == STAR,
        }
}

// Where the longest part begins, of the sum or the term whose first one stands at a place.
pub fn longest(text: &[u8], at: usize, parts: Parts) -> usize
    requires { (at ≤ length text.now) × (length text.now ≤ longest_text) }
    ensures { (at ≤ result) × (result ≤ length text.now) }
{
    let mut best = at;
    let mut size = 0;
    let mut from = at;
    loop {
        let end = end_of(text, from, parts);
        if size < end - from {
            best = from;
            size = end - from;
        }
        if !parted(text, end, parts) {
            return best;
        }
        from = end + 1;
    }
}
