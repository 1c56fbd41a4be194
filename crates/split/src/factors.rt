// The factors of a polynomial: its roots are split in two near half the degree, until each stands alone with its power.
ghost use Rattle.std.specs.Prelude.{◌≡◌, ℕ, ◌+◌, ◌-◌, ◌*◌, ◌≤◌, ◌<◌, length};
ghost use Rattle.algebra.specs.Sums.{sum_to};
ghost use Rattle.numbers.specs.internal.Facts.{Decides};
ghost use Rattle.numbers.specs.Words.{word};
ghost use Rattle.numbers.specs.Limits.{largest_degree, most_rows, largest_width};
ghost use Rattle.split.specs.internal.Found.{NodeReady, Factored, Spread, RootsListed, Found};

use crate::node::split_node;
use columns::clear;
use series::kernel::repeat;
use solution::product_of;

// The sum of the powers.
fn total(powers: &[u32]) -> usize
    requires { sum_to (length powers.now) (word powers.now) ≤ largest_degree }
    ensures { result ≡ sum_to (length powers.now) (word powers.now) }
{
    let mut sum = 0;
    for power in powers {
        sum += *power as usize;
    }
    sum
}

// How many groups to split off: near half the degree.
fn half(powers: &[u32], degree: usize) -> usize
    requires { (2 ≤ length powers.now) × (length powers.now ≤ largest_degree) × ((i : ℕ) → i < length powers.now → word powers.now i ≤ largest_degree) }
    ensures { (1 ≤ result) × (result < length powers.now) }
{
    let last = powers.len() - 1;
    let mut m = powers[0] as usize;
    for i in 1..last {
        if degree < 2 * m + powers[i] as usize {
            return i;
        }
        m += powers[i] as usize;
    }
    last
}

// The rows of a polynomial become those of its factors, to w terms.
fn factor_rows(p: u32, powers: &[u32], c: &[u32], n: usize, w: usize, rows: &mut [u32])
    requires { NodeReady p n w powers.now c.now rows.old }
    ensures { Factored p n w powers.now c.now rows.old rows.new }
{
    if powers.len() < 2 {
        return;
    }
    let mid = half(powers, c.len());
    let m = total(&powers[..mid]);
    split_node(p, c, m, n, w, rows);
    let seam = m * n;
    factor_rows(p, &powers[..mid], &c[..m], n, w, &mut rows[..seam]);
    factor_rows(p, &powers[mid..], &c[m..], n, w, &mut rows[seam..]);
}

// The roots, each as often as its power says.
fn spread(roots: &[u32], powers: &[u32], c: &mut [u32])
    requires { (length roots.now ≡ length powers.now) × (sum_to (length powers.now) (word powers.now) ≤ largest_degree) × (length c.old ≡ sum_to (length powers.now) (word powers.now)) }
    ensures long { length c.new ≡ length c.old }
    ensures is { Spread roots.now powers.now (length powers.now) c.new }
{
    let mut a = 0;
    for (root, power) in roots.iter().zip(powers) {
        let e = a + *power as usize;
        repeat(*root, &mut c[a..e]);
        a = e;
    }
}

// Whether column 0 of the rows is that of the polynomial in `line`, whose last word is left out.
fn begins(n: usize, line: &[u32], rows: &[u32]) -> bool
    requires { (1 ≤ n) × (n ≤ largest_width) × (1 ≤ length line.now) × (length line.now ≤ most_rows) × (length rows.now ≡ (length line.now - 1) * n) }
    ensures { Decides result ((j : ℕ) → j + 1 < length line.now → word rows.now (j * n) ≡ word line.now j) }
{
    for j in 0..line.len() - 1 {
        if rows[j * n] != line[j] {
            return false;
        }
    }
    true
}

// Whether a monic polynomial is, at X = 0, the product of these powers of Y − c; if so its lower rows become those of its factors, to w terms. `c` and
// `line` are for scratch: a word for each row, and one more.
pub fn find_factors(
    p: u32,
    n: usize,
    roots: &[u32],
    powers: &[u32],
    w: usize,
    c: &mut [u32],
    line: &mut [u32],
    rows: &mut [u32],
) -> bool
    requires { RootsListed p n w roots.now powers.now rows.old × (length c.old ≡ sum_to (length powers.now) (word powers.now)) × (length line.old ≡ sum_to (length powers.now) (word powers.now) + 1) }
    ensures { Found p n w roots.now powers.now rows.old result rows.new }
{
    spread(roots, powers, c);
    product_of(p, c, line);
    if !begins(n, line, rows) {
        return false;
    }
    clear(n, w, c.len(), rows);
    factor_rows(p, powers, c, n, w, rows);
    true
}
