// The checks that operations share, in the order of document 01's table.
ghost use Rattle.std.specs.Prelude.{◌≡◌, not, ◌||◌, ◌++◌, ◌+◌, ◌*◌, ◌<◌, ltb, eqb, length};
ghost use Rattle.numbers.specs.Words.{first_large, outside, rising};
ghost use Rattle.numbers.specs.Limits.{most_rows};
ghost use Rattle.numbers.specs.Refusals.{verdict, judge, modulus_checks, input_checks, operation_checks};

use crate::kernel::least_divisor;
use crate::limits::{LARGEST_MODULUS, LARGEST_WIDTH, MOST_ROWS};
use crate::refusal::Refusal;

// Whether n is below low or above high.
pub fn outside(low: u32, high: u32, n: u32) -> bool
    ensures { result ≡ outside low high n }
{
    n < low || high < n
}

// Refusals 1 and 2.
pub fn check_modulus(p: u32) -> Result<(), Refusal>
    ensures { verdict result ≡ judge (modulus_checks p) }
{
    if outside(2, LARGEST_MODULUS, p) {
        return Err(Refusal::ModulusRange);
    }
    let d = least_divisor(p);
    if d < p {
        return Err(Refusal::Composite(d));
    }
    Ok(())
}

// The position of the first word that is p or more, or the length where there is none.
pub fn first_large(p: u32, s: &[u32]) -> usize
    ensures { result ≡ first_large p s.now }
{
    s.iter().position(|x| p <= *x).unwrap_or(s.len())
}

// Whether each word is larger than the one before it.
pub fn rises(s: &[u32]) -> bool
    ensures { result ≡ rising s.now }
{
    s.is_sorted_by(|x, y| x < y)
}

// The same in two slices, positions of the second counted on from the first.
fn first_large_of_two(p: u32, f: &[u32], g: &[u32]) -> usize
    requires { length f.now + length g.now < 4294967296 }
    ensures { result ≡ first_large p (f.now ++ g.now) }
{
    let i = first_large(p, f);
    if i < f.len() {
        i
    } else {
        i + first_large(p, g)
    }
}

// Whether one of these is the number of rows of no polynomial: a degree bound above the largest.
fn too_many_rows(frows: usize, grows: usize, rows: usize) -> bool
    ensures { result ≡ (ltb most_rows frows || (ltb most_rows grows || ltb most_rows rows)) }
{
    MOST_ROWS < frows || MOST_ROWS < grows || MOST_ROWS < rows
}

// Whether one of two slices has not the words that it should have.
fn other_lengths(f: usize, fwords: usize, g: usize, gwords: usize) -> bool
    ensures { result ≡ (not (eqb f fwords) || not (eqb g gwords)) }
{
    f != fwords || g != gwords
}

// Refusals 1 to 6 for an operation that takes frows rows f and grows rows g of n words each, and gives `rows` rows. Nothing is
// multiplied before the factors are judged.
pub fn check_inputs(
    p: u32,
    n: u32,
    f: &[u32],
    frows: usize,
    g: &[u32],
    grows: usize,
    rows: usize,
) -> Result<(), Refusal>
    ensures { verdict result ≡ judge (input_checks p n f.now frows g.now grows rows) }
{
    check_modulus(p)?;
    if too_many_rows(frows, grows, rows) {
        return Err(Refusal::Degree);
    }
    if outside(1, LARGEST_WIDTH, n) {
        return Err(Refusal::Terms);
    }
    let width = n as usize;
    if other_lengths(f.len(), frows * width, g.len(), grows * width) {
        return Err(Refusal::Rows);
    }
    let at = first_large_of_two(p, f, g);
    if at < f.len() + g.len() {
        return Err(Refusal::Unreduced(at as u32));
    }
    Ok(())
}

// And refusal 10: the output has `room` words.
pub fn check_operation(
    p: u32,
    n: u32,
    f: &[u32],
    frows: usize,
    g: &[u32],
    grows: usize,
    rows: usize,
    room: usize,
) -> Result<(), Refusal>
    ensures { verdict result ≡ judge (operation_checks p n f.now frows g.now grows rows room) }
{
    check_inputs(p, n, f, frows, g, grows, rows)?;
    let words = rows * n as usize;
    if room < words {
        return Err(Refusal::Short(words as u32));
    }
    Ok(())
}
