// The steps of the readers that call no reader: what is not built of sums, and what follows a part that was read. These trust their caller where they
// have a `requires`.
ghost use Rattle.std.specs.Prelude.{◌≡◌, ℕ, ◌*◌, ◌≤◌, length};
ghost use Rattle.numbers.specs.Limits.{most_rows};
ghost use Rattle.formula.specs.internal.Scan.{kind_at};
ghost use Rattle.formula.specs.declared.Kind.TheVariants.{Blank, Open};
ghost use Rattle.read.specs.internal.Parts.{NumberPart, ElementRead, ElementPart, PowerPart, past_star, past_sign, closed_part};

use crate::places::{digit_at, digits_at, exponent_at, has_byte, look, sign_at};
use crate::{Part, Ring, Sign, values};
use formula::bytes::{CARET, CLOSE, LETTER_X, LETTER_Y, STAR};

// A number, from its second digit on; d is its first.
fn number_at(ring: Ring, text: &[u8], at: usize, d: u32, out: &mut [u32]) -> Option<Part>
    requires { (at ≤ length text.now) × (d ≤ 9) × (most_rows * ring.n ≤ length out.old) }
    ensures { NumberPart ring.p ring.n text.now at d result out.new }
{
    let r = digits_at(text, at, d)?;
    values::set_number(ring, r.value, out);
    Some(Part { at: r.at, rows: 1 })
}

// An element that is no bracketed sum.
pub fn simple_at(ring: Ring, text: &[u8], at: usize, out: &mut [u32]) -> Option<Part>
    requires { (at ≤ length text.now) × (most_rows * ring.n ≤ length out.old) }
    ensures { (kind_at text.now at ≡ Blank → ⊥) → (kind_at text.now at ≡ Open → ⊥)
        → ElementPart ring.p ring.n text.now at result out.new }
{
    if has_byte(text, at, LETTER_X) {
        values::set_x(ring, out);
        Some(Part {
            at: at + 1,
            rows: 1,
        })
    } else if has_byte(text, at, LETTER_Y) {
        values::set_y(ring, out);
        Some(Part {
            at: at + 1,
            rows: 2,
        })
    } else {
        let d = digit_at(text, at)?;
        number_at(ring, text, at + 1, d, out)
    }
}

// A sum that a bracket closes.
pub fn closed(text: &[u8], inside: Part) -> Option<Part>
    ensures { result ≡ closed_part text.now inside }
{
    if has_byte(text, inside.at, CLOSE) {
        Some(Part {
            at: inside.at + 1,
            rows: inside.rows,
        })
    } else {
        None
    }
}

// An element that was read, whose value stands in `out`, and what follows it: a written power, or none.
#[inline(never)]
pub fn power(ring: Ring, text: &[u8], element: Part, out: &mut [u32]) -> Option<Part>
    requires { (element.at ≤ length text.now) × (most_rows * ring.n ≤ length out.old)
        × (1 ≤ element.rows) × (element.rows ≤ most_rows) }
    ensures { (at : ℕ) → ElementRead ring.p ring.n text.now at element out.old → PowerPart ring.p ring.n text.now at result out.new }
{
    let q = look(text, element.at);
    if !has_byte(text, q, CARET) {
        return Some(Part {
            at: q,
            rows: element.rows,
        });
    }
    let r = exponent_at(text, q + 1)?;
    let rows = values::raise(ring, r.value, element.rows, out)?;
    Some(Part { at: r.at, rows })
}

// The place after the star that stands at a place, if one does.
pub fn past_star(text: &[u8], at: usize) -> Option<usize>
    ensures { result ≡ past_star text.now at }
{
    if has_byte(text, at, STAR) {
        Some(at + 1)
    } else {
        None
    }
}

// The sign that stands at a place, if one does, and the place after it.
pub fn past_sign(text: &[u8], at: usize) -> Option<(Sign, usize)>
    ensures { result ≡ past_sign text.now at }
{
    let sign = sign_at(text, at)?;
    Some((sign, at + 1))
}
