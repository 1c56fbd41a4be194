// The readers: a sum is built of terms, a term of powers of elements, and an element may be a bracketed sum again. Each starts at a place of
// the text, puts the value of what stands there into rows 0 to 32 of `out`, and answers the place after it and how many rows count; or
// none, where the text cannot be read so or some part is too high. A sum begins with its longest term and a term with its longest element,
// whose value is held in `out` until its turn comes. The functions that keep values of their own are `inline(never)`: else the way down to the longest
// part would take their room too, in each bracket. These trust their caller: they have a `requires`.
ghost use Rattle.std.specs.Prelude.{◌≡◌, ◌*◌, ◌≤◌, length};
ghost use Rattle.numbers.specs.Limits.{most_rows};
ghost use Rattle.formula.specs.Formula.{Lead};
ghost use Rattle.formula.specs.internal.Scan.{State};
ghost use Rattle.read.specs.internal.Places.{is_minus};
ghost use Rattle.read.specs.internal.Parts.{Ready, ElementPart, TermPart, SumPart, Opens};

use crate::limits::VALUE_ROOM;
use crate::longest::{Parts, longest};
use crate::places::{has_byte, look, start_at};
use crate::{Part, Ring, parts, values};
use formula::bytes::OPEN;
use numbers::limits::MOST_ROWS;

#[cycle(element_at_factor_at_product_at_sum_at_summand_at_term_at_total_at)]
fn element_at(ring: Ring, text: &[u8], at: usize, out: &mut [u32]) -> Option<Part>
    requires { Ready ring.n text.now at out.old }
    ensures { ElementPart ring.p ring.n text.now at result out.new }
{
    let q = look(text, at);
    if has_byte(text, q, OPEN) {
        let inside = sum_at(ring, text, q + 1, out)?;
        parts::closed(text, inside)
    } else {
        parts::simple_at(ring, text, q, out)
    }
}

// The element at a place: the one that is held, or one that is read now.
#[cycle(element_at_factor_at_product_at_sum_at_summand_at_term_at_total_at)]
fn factor_at(
    ring: Ring,
    text: &[u8],
    at: usize,
    place: usize,
    held: Option<Part>,
    value: &[u32],
    out: &mut [u32],
) -> Option<Part>
    requires { Ready ring.n text.now at out.old × (most_rows * ring.n ≤ length value.now) × ElementPart ring.p ring.n text.now place held value.now }
    ensures { ElementPart ring.p ring.n text.now at result out.new }
{
    if at == place {
        values::copy(MOST_ROWS * ring.n, value, out);
        held
    } else {
        element_at(ring, text, at, out)
    }
}

// The product of a term's powers, from the left; the value of the element at `place` is held in `out`.
#[inline(never)]
#[cycle(element_at_factor_at_product_at_sum_at_summand_at_term_at_total_at)]
fn product_at(
    ring: Ring,
    text: &[u8],
    at: usize,
    place: usize,
    held: Option<Part>,
    out: &mut [u32],
) -> Option<Part>
    requires { Ready ring.n text.now at out.old × ElementPart ring.p ring.n text.now place held out.old }
    ensures { TermPart ring.p ring.n text.now at result out.new }
{
    let mut product = [0u32; VALUE_ROOM];
    let mut factor = [0u32; VALUE_ROOM];
    let first = factor_at(ring, text, at, place, held, out, &mut product)?;
    let mut run = parts::power(ring, text, first, &mut product)?;
    while let Some(next) = parts::past_star(text, run.at) {
        let element = factor_at(ring, text, next, place, held, out, &mut factor)?;
        let power = parts::power(ring, text, element, &mut factor)?;
        let rows = values::multiply(ring, &mut product, run.rows, &factor, power.rows)?;
        run = Part { at: power.at, rows };
    }
    values::copy(MOST_ROWS * ring.n, &product, out);
    Some(run)
}

#[cycle(element_at_factor_at_product_at_sum_at_summand_at_term_at_total_at)]
fn term_at(ring: Ring, text: &[u8], at: usize, out: &mut [u32]) -> Option<Part>
    requires { Ready ring.n text.now at out.old }
    ensures { TermPart ring.p ring.n text.now at result out.new }
{
    let place = longest(text, at, Parts::Factors);
    let held = element_at(ring, text, place, out);
    product_at(ring, text, at, place, held, out)
}

// A summand: the one that is held, or one that is read now.
#[cycle(element_at_factor_at_product_at_sum_at_summand_at_term_at_total_at)]
fn summand_at(
    ring: Ring,
    text: &[u8],
    at: usize,
    place: usize,
    held: Option<Part>,
    value: &[u32],
    out: &mut [u32],
) -> Option<Part>
    requires { Ready ring.n text.now at out.old × (most_rows * ring.n ≤ length value.now) × TermPart ring.p ring.n text.now place held value.now }
    ensures { TermPart ring.p ring.n text.now at result out.new }
{
    if at == place {
        values::copy(MOST_ROWS * ring.n, value, out);
        held
    } else {
        term_at(ring, text, at, out)
    }
}

// The sum of summands, from the left; the value of that at `place` is held in `out`. Whether a minus stands before the first one is known.
#[inline(never)]
#[cycle(element_at_factor_at_product_at_sum_at_summand_at_term_at_total_at)]
fn total_at(
    ring: Ring,
    text: &[u8],
    at: usize,
    minus: bool,
    place: usize,
    held: Option<Part>,
    out: &mut [u32],
) -> Option<Part>
    requires { Ready ring.n text.now at out.old × TermPart ring.p ring.n text.now place held out.old }
    ensures { (l : Lead) → minus ≡ is_minus l → SumPart ring.p ring.n text.now (Opens l) at result out.new }
{
    let mut total = [0u32; VALUE_ROOM];
    let mut term = [0u32; VALUE_ROOM];
    let mut run = summand_at(ring, text, at, place, held, out, &mut total)?;
    values::lead(ring, minus, &mut total);
    while let Some((sign, next)) = parts::past_sign(text, run.at) {
        let part = summand_at(ring, text, next, place, held, out, &mut term)?;
        let rows = values::join(ring, sign, &mut total, &term);
        run = Part { at: part.at, rows };
    }
    values::copy(MOST_ROWS * ring.n, &total, out);
    Some(run)
}

#[cycle(element_at_factor_at_product_at_sum_at_summand_at_term_at_total_at)]
pub fn sum_at(ring: Ring, text: &[u8], at: usize, out: &mut [u32]) -> Option<Part>
    requires { Ready ring.n text.now at out.old }
    ensures { SumPart ring.p ring.n text.now State.lead at result out.new }
{
    let start = start_at(text, at);
    let place = longest(text, start.at, Parts::Summands);
    let held = term_at(ring, text, place, out);
    total_at(ring, text, start.at, start.minus, place, held, out)
}
