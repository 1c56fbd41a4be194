// The loops over rows, with sums in 64 bits and one reduction for each coefficient. These trust their caller: they have a `requires`, and
// are for the crates of this repository. All are proved for every modulus below 2^24.
ghost use Rattle.std.specs.Prelude.{◌≡◌, ◌+◌, ◌-◌, ◌*◌, ◌%◌, ◌≤◌, ◌<◌, length};
ghost use Rattle.numbers.specs.Words.{word, over, tabulate};
ghost use Rattle.numbers.specs.internal.Facts.{AllBelow};
ghost use Rattle.numbers.specs.internal.Limits.{modulus_bound};
ghost use Rattle.numbers.specs.Limits.{most_rows, largest_width};
ghost use Rattle.rows.specs.Rows.{rows_of, table, mul, line_power, shifted, rows_below};
ghost use Rattle.rows.specs.internal.Passes.{pass_sum, weight_sum, next_weight};

use numbers::judge::first_large;
use numbers::limits::MOST_ROWS;
use series::kernel::dot;

// For the coefficient of Y^j of f · g: row i of f along row j − i of g, for each i that both have, `count` columns of each from column
// `skip` on. At most 33 passes, each of at most 256 products below 2^48.
pub fn passes(
    f: &[u32],
    frows: usize,
    g: &[u32],
    grows: usize,
    n: usize,
    j: usize,
    skip: usize,
    count: usize,
) -> u64
    requires { (length f.now ≡ frows * n) × (length g.now ≡ grows * n) × (frows ≤ most_rows) × (grows ≤ most_rows) × (n ≤ largest_width) × (j < 4096) × (skip + count ≤ n)
        × AllBelow modulus_bound f.now × AllBelow modulus_bound g.now }
    ensures { result ≡ pass_sum (rows_of f.now n frows) (rows_of g.now n grows) j skip count }
{
    let first = (j + 1).saturating_sub(grows);
    let end = frows.min(j + 1);
    let mut sum: u64 = 0;
    for i in first..end {
        let a = i * n + skip;
        let b = (j - i) * n + skip;
        sum += dot(&f[a..], &g[b..], count);
    }
    sum
}

// Row j of f · g.
fn product_row(
    p: u32,
    f: &[u32],
    frows: usize,
    g: &[u32],
    grows: usize,
    n: usize,
    j: usize,
    out: &mut [u32],
)
    requires { (1 ≤ p) × (p < modulus_bound) × (length f.now ≡ frows * n) × (length g.now ≡ grows * n) × (frows ≤ most_rows) × (grows ≤ most_rows) × (n ≤ largest_width)
        × (j < 4096) × (length out.old ≡ n) × AllBelow p f.now × AllBelow p g.now }
    ensures { out.new ≡ tabulate n (mul p (rows_of f.now n frows) (rows_of g.now n grows) j) }
{
    let modulus = p as u64;
    for t in 0..n {
        let sum = passes(f, frows, g, grows, n, j, 0, t + 1);
        out[t] = (sum % modulus) as u32;
    }
}

// f · g.
pub fn multiply(p: u32, f: &[u32], frows: usize, g: &[u32], grows: usize, n: usize, out: &mut [u32])
    requires { (1 ≤ p) × (p < modulus_bound) × (1 ≤ frows) × (1 ≤ grows) × (frows ≤ most_rows) × (grows ≤ most_rows) × (length f.now ≡ frows * n) × (length g.now ≡ grows * n)
        × (n ≤ largest_width) × ((frows + grows - 1) * n ≤ length out.old) × AllBelow p f.now × AllBelow p g.now }
    ensures { out.new ≡ over (table (frows + grows - 1) n (mul p (rows_of f.now n frows) (rows_of g.now n grows))) out.old }
{
    let rows = frows + grows - 1;
    for j in 0..rows {
        let a = j * n;
        let e = a + n;
        product_row(p, f, frows, g, grows, n, j, &mut out[a..e]);
    }
}

// The coefficients of Y^0 of (Y + c)^i, for each i: the powers of c.
fn first_weights(p: u32, c: u32, weights: &mut [u32])
    requires { (2 ≤ p) × (p < modulus_bound) × (c < p) × (1 ≤ length weights.old) }
    ensures { weights.new ≡ tabulate (length weights.old) (λ i. line_power p c i 0) }
{
    weights[0] = 1;
    for i in 1..weights.len() {
        weights[i] = ((c as u64) * (weights[i - 1] as u64) % (p as u64)) as u32;
    }
}

// From the coefficients of Y^j of (Y + c)^i, for each i, to those of Y^(j+1): of (Y + c)^(i+1) it is c times that of (Y + c)^i, and the
// coefficient of Y^j of (Y + c)^i.
fn next_weights(p: u32, c: u32, weights: &mut [u32])
    requires { (1 ≤ p) × (p < modulus_bound) × (c < p) × (1 ≤ length weights.old) × AllBelow p weights.old }
    ensures { weights.new ≡ tabulate (length weights.old) (next_weight p c (word weights.old)) }
{
    let mut before = weights[0];
    weights[0] = 0;
    for i in 1..weights.len() {
        let old = weights[i];
        weights[i] = (((c as u64) * (weights[i - 1] as u64) + before as u64) % (p as u64)) as u32;
        before = old;
    }
}

// Column t of the rows of f, each times its weight, not yet reduced.
fn weighted_sum(f: &[u32], n: usize, weights: &[u32], t: usize) -> u64
    requires { (length weights.now * n ≤ length f.now) × (length weights.now ≤ most_rows) × (n ≤ largest_width) × (t < n) × AllBelow modulus_bound f.now × AllBelow modulus_bound weights.now }
    ensures { result ≡ weight_sum f.now n weights.now t }
{
    let mut sum: u64 = 0;
    for i in 0..weights.len() {
        sum += (f[i * n + t] as u64) * (weights[i] as u64);
    }
    sum
}

// The rows of f, each times its weight, added up.
pub fn combine(p: u32, f: &[u32], n: usize, weights: &[u32], out: &mut [u32])
    requires { (1 ≤ p) × (p < modulus_bound) × (length weights.now * n ≤ length f.now) × (length weights.now ≤ most_rows) × (n ≤ largest_width) × (length out.old ≡ n)
        × AllBelow p f.now × AllBelow p weights.now }
    ensures { out.new ≡ tabulate n (λ t. weight_sum f.now n weights.now t % p) }
{
    let modulus = p as u64;
    for t in 0..n {
        let sum = weighted_sum(f, n, weights, t);
        out[t] = (sum % modulus) as u32;
    }
}

// f(Y + c). The weight of row i of f in row j of the shift is the coefficient of Y^j of (Y + c)^i, which is 0 below row j.
pub fn shift(p: u32, c: u32, f: &[u32], rows: usize, n: usize, out: &mut [u32])
    requires { (2 ≤ p) × (p < modulus_bound) × (c < p) × (1 ≤ rows) × (rows ≤ most_rows) × (n ≤ largest_width) × (length f.now ≡ rows * n) × (rows * n ≤ length out.old) × AllBelow p f.now }
    ensures { out.new ≡ over (table rows n (shifted p rows c (rows_of f.now n rows))) out.old }
{
    let mut weights = [0u32; MOST_ROWS];
    first_weights(p, c, &mut weights[..rows]);
    for j in 0..rows {
        let a = j * n;
        let e = a + n;
        combine(p, &f[a..], n, &weights[j..rows], &mut out[a..e]);
        next_weights(p, c, &mut weights[..rows]);
    }
}

// Whether columns from..to − 1 of the rows are below q. (Below 1 is 0.)
pub fn rows_below(q: u32, s: &[u32], n: usize, rows: usize, from: usize, to: usize) -> bool
    requires { (rows * n ≤ length s.now) × (from ≤ to) × (to ≤ n) }
    ensures { result ≡ rows_below q s.now n rows from to }
{
    for j in 0..rows {
        let a = j * n + from;
        let e = j * n + to;
        if first_large(q, &s[a..e]) < to - from {
            return false;
        }
    }
    true
}
