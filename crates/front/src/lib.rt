// The test of what stands in a sheet before the factors' rows, stage after stage: a stage reads only words whose place the stages before it have found to be
// there.
#![tactic(auto)]

ghost use Rattle.std.specs.Prelude.{◌+◌, ◌*◌, ◌≤◌, length};
ghost use Rattle.numbers.specs.internal.Facts.{Decides};
ghost use Rattle.numbers.specs.Limits.{largest_degree};
ghost use Rattle.layout.specs.Layout.{degree, polynomial_from};
ghost use Rattle.front.specs.internal.Front.{OneTo, HeaderFits, PowersFit, OffsetsFit, Shape, RootsBelow, RootsRise, RowsBelow, PolynomialFits, LengthsFit, Front, RowsSize};

use layout::lengths::{least_length, rows_known};
use layout::{
    LENGTHS_FROM, factors_from, polynomial_from, power_at, read_header, read_offsets, root_at,
    roots_from, total_of,
};
use numbers::judge::check_modulus;
use numbers::limits::{LARGEST_DEGREE, LARGEST_WIDTH};

// Whether n is from 1 to high.
fn one_to(high: usize, n: usize) -> bool
    ensures { Decides result (OneTo high n) }
{
    1 <= n && n <= high
}

// Words 0 to 4 and 10, and room for the lengths, the roots and the powers.
fn header_fits(s: &[u32]) -> bool
    ensures { Decides result (HeaderFits s.now) }
{
    if s.len() < LENGTHS_FROM {
        return false;
    }
    let h = read_header(s);
    if check_modulus(h.p).is_err() {
        return false;
    }
    if !one_to(LARGEST_DEGREE as usize, h.degree) {
        return false;
    }
    if (LARGEST_WIDTH as usize) < h.width {
        return false;
    }
    if h.width < h.reach {
        return false;
    }
    if !one_to(h.reach, h.terms) {
        return false;
    }
    if !one_to(h.degree, h.count) {
        return false;
    }
    polynomial_from(h.degree, h.count) <= s.len()
}

// The powers are 1 or more and come to d.
fn powers_fit(s: &[u32], r: usize, d: usize) -> bool
    requires { (r ≤ largest_degree) × (degree s.now ≤ largest_degree) × (polynomial_from (degree s.now) r ≤ length s.now) }
    ensures { Decides result (PowersFit s.now r d) }
{
    let mut left = d;
    for i in 0..r {
        let m = power_at(s, i) as usize;
        if !one_to(left, m) {
            return false;
        }
        left -= m;
    }
    left == 0
}

// Words 5 to 9, and room for all.
fn offsets_fit(s: &[u32]) -> bool
    requires { HeaderFits s.now }
    ensures { Decides result (OffsetsFit s.now) }
{
    let h = read_header(s);
    let o = read_offsets(s);
    let end = total_of(h.degree, h.width, h.count);
    o.roots == roots_from(h.degree)
        && o.polynomial == polynomial_from(h.degree, h.count)
        && o.factors == factors_from(h.degree, h.width, h.count)
        && o.rest == end
        && o.end == end
        && end <= s.len()
}

// What is to be known before a word past the powers is read.
fn shape_fits(s: &[u32]) -> bool
    ensures { Decides result (Shape s.now) }
{
    if !header_fits(s) {
        return false;
    }
    let h = read_header(s);
    powers_fit(s, h.count, h.degree) && offsets_fit(s)
}

fn roots_below(s: &[u32], r: usize, p: u32) -> bool
    requires { (r ≤ largest_degree) × (degree s.now ≤ largest_degree) × (polynomial_from (degree s.now) r ≤ length s.now) }
    ensures { Decides result (RootsBelow s.now r p) }
{
    (0..r).all(|i| root_at(s, i) < p)
}

fn roots_rise(s: &[u32], r: usize) -> bool
    requires { (r ≤ largest_degree) × (degree s.now ≤ largest_degree) × (polynomial_from (degree s.now) r ≤ length s.now) }
    ensures { Decides result (RootsRise s.now r) }
{
    (1..r).all(|i| root_at(s, i - 1) < root_at(s, i))
}

// Columns from..to − 1 of the rows from word o on are below q. (Below 1 is 0.)
fn rows_below(q: u32, s: &[u32], o: usize, n: usize, rows: usize, from: usize, to: usize) -> bool
    requires { (o + rows * n ≤ length s.now) × (from ≤ to) × (to ≤ n) }
    ensures { Decides result (RowsBelow q s.now o n rows from to) }
{
    rows::kernel::rows_below(q, &s[o..], n, rows, from, to)
}

// The polynomial's words, and its top row.
fn polynomial_fits(s: &[u32]) -> bool
    requires { Shape s.now }
    ensures { Decides result (PolynomialFits s.now) }
{
    let h = read_header(s);
    let n = h.width;
    let from = polynomial_from(h.degree, h.count);
    let top = from + h.degree * n;
    rows_below(h.p, s, from, n, h.degree + 1, 0, n)
        && s[top] == 1
        && rows_below(1, s, top, n, 1, 1, n)
}

// The known lengths with the rows, and their least.
fn lengths_fit(s: &[u32]) -> bool
    requires { Shape s.now }
    ensures { Decides result (LengthsFit s.now) }
{
    let h = read_header(s);
    let lengths = layout::lengths_part(s);
    rows_known(h.width, layout::lower_part(s), lengths)
        && least_length(h.width as u32, lengths) as usize == h.reach
}

// All that stands before the factors' rows.
pub fn front_fits(s: &[u32]) -> bool
    ensures { Decides result (Front s.now) }
{
    if !shape_fits(s) {
        return false;
    }
    let h = read_header(s);
    roots_below(s, h.count, h.p) && roots_rise(s, h.count) && polynomial_fits(s) && lengths_fit(s)
}

// How many words the factors' rows have, where all that stands before them fits.
pub fn rows_size(s: &[u32]) -> Option<usize>
    ensures { RowsSize s.now result }
{
    if !front_fits(s) {
        return None;
    }
    let h = read_header(s);
    Some(h.degree * h.width)
}
