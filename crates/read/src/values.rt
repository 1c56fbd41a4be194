// Values of parts of a formula: rows 0 to 32 at the front of a slice. These trust their caller: they have a `requires`.
ghost use Rattle.std.specs.Prelude.{◌≡◌, ℕ, ◌+◌, ◌-◌, ◌*◌, ◌%◌, ◌≤◌, ◌<◌, length};
ghost use Rattle.numbers.specs.Limits.{most_rows, largest_width};
ghost use Rattle.numbers.specs.internal.Limits.{modulus_bound};
ghost use Rattle.numbers.specs.Words.{word, over, tabulate};
ghost use Rattle.formula.specs.Formula.{Sign, Lead};
ghost use Rattle.read.specs.Value.{Poly, constant, the_x, the_y, single, zero_row, leading, signed, times_of};
ghost use Rattle.read.specs.internal.Places.{is_minus, sign_for};
ghost use Rattle.read.specs.internal.Values.{Stored, RowCount, Kept, Raised, TopRows};

use crate::Ring;
use crate::limits::{PRODUCT_ROOM, VALUE_ROOM};
use numbers::limits::MOST_ROWS;

// v in row i, column k, and 0 elsewhere.
fn set_single(n: usize, i: usize, k: usize, v: u32, out: &mut [u32])
    requires { (1 ≤ n) × (n ≤ largest_width) × (i < most_rows) × (most_rows * n ≤ length out.old) }
    ensures { (j t : ℕ) → j < most_rows → t < n → word out.new (j * n + t) ≡ single i k v j t }
{
    out[..MOST_ROWS * n].fill(0);
    if k < n {
        out[i * n + k] = v;
    }
}

pub fn set_number(ring: Ring, v: u32, out: &mut [u32])
    requires { most_rows * ring.n ≤ length out.old }
    ensures { Stored ring.p ring.n (constant ring.p v) out.new 1 }
{
    set_single(ring.n, 0, 0, v % ring.p, out);
}

pub fn set_x(ring: Ring, out: &mut [u32])
    requires { most_rows * ring.n ≤ length out.old }
    ensures { Stored ring.p ring.n (the_x ring.p) out.new 1 }
{
    set_single(ring.n, 0, 1, 1 % ring.p, out);
}

pub fn set_y(ring: Ring, out: &mut [u32])
    requires { most_rows * ring.n ≤ length out.old }
    ensures { Stored ring.p ring.n (the_y ring.p) out.new 2 }
{
    set_single(ring.n, 1, 0, 1 % ring.p, out);
}

// The first `size` words of s, reduced.
fn reduce(p: u32, size: usize, s: &[u32], out: &mut [u32])
    requires { (1 ≤ p) × (size ≤ length s.now) × (size ≤ length out.old) }
    ensures { (q : ℕ) → q < size → word out.new q ≡ word s.now q % p }
{
    for q in 0..size {
        out[q] = s[q] % p;
    }
}

// The first `size` words of s, where only these are of use.
pub fn copy(size: usize, s: &[u32], out: &mut [u32])
    requires { (size ≤ length s.now) × (size ≤ length out.old) }
    ensures { (q : ℕ) → q < size → word out.new q ≡ word s.now q }
{
    out[..size].copy_from_slice(&s[..size]);
}

// Each of the first `size` words is taken from 0.
fn negate(p: u32, size: usize, out: &mut [u32])
    requires { (1 ≤ p) × (p < modulus_bound) × (size ≤ length out.old) }
    ensures { (q : ℕ) → q < size → word out.new q ≡ (p - word out.old q % p) % p }
{
    for x in out[..size].iter_mut() {
        *x = (p - *x % p) % p;
    }
}

// The sign before a sum's first term.
pub fn lead(ring: Ring, minus: bool, out: &mut [u32])
    requires { most_rows * ring.n ≤ length out.old }
    ensures { (f : Poly) (rows : ℕ) (l : Lead) → minus ≡ is_minus l → Stored ring.p ring.n f out.old rows → Stored ring.p ring.n (leading ring.p l f) out.new rows }
{
    if minus {
        negate(ring.p, MOST_ROWS * ring.n, out);
    }
}

fn zero_row(s: &[u32], from: usize, n: usize) -> bool
    requires { from + n ≤ length s.now }
    ensures { result ≡ zero_row n (λ t. word s.now (from + t)) }
{
    s[from..from + n].iter().all(|c| *c == 0)
}

// How many rows count.
fn top_rows(n: usize, total: usize, s: &[u32]) -> usize
    requires { (1 ≤ total) × (total ≤ 65) × (n ≤ largest_width) × (total * n ≤ length s.now) }
    ensures { TopRows n s.now total result }
{
    for r in (1..total).rev() {
        if !zero_row(s, r * n, n) {
            return r + 1;
        }
    }
    1
}

fn add_words(p: u32, size: usize, out: &mut [u32], g: &[u32])
    requires { (1 ≤ p) × (p < modulus_bound) × (size ≤ length out.old) × (size ≤ length g.now) }
    ensures { (q : ℕ) → q < size → word out.new q ≡ (word out.old q % p + word g.now q % p) % p }
{
    for q in 0..size {
        out[q] = (out[q] % p + g[q] % p) % p;
    }
}

fn subtract_words(p: u32, size: usize, out: &mut [u32], g: &[u32])
    requires { (1 ≤ p) × (p < modulus_bound) × (size ≤ length out.old) × (size ≤ length g.now) }
    ensures { (q : ℕ) → q < size → word out.new q ≡ (word out.old q % p + (p - word g.now q % p)) % p }
{
    for q in 0..size {
        out[q] = (out[q] % p + (p - g[q] % p)) % p;
    }
}

// The next term of a sum.
pub fn join(ring: Ring, sign: crate::Sign, out: &mut [u32], g: &[u32]) -> usize
    requires { (most_rows * ring.n ≤ length out.old) × (most_rows * ring.n ≤ length g.now) }
    ensures { (f h : Poly) (a b : ℕ) (σ : Sign) → sign ≡ sign_for σ → Stored ring.p ring.n f out.old a → Stored ring.p ring.n h g.now b
        → Stored ring.p ring.n (signed ring.p σ f h) out.new result }
{
    match sign {
        crate::Sign::Plus => add_words(ring.p, MOST_ROWS * ring.n, out, g),
        crate::Sign::Minus => subtract_words(ring.p, MOST_ROWS * ring.n, out, g),
    }
    top_rows(ring.n, MOST_ROWS, out)
}

// The next factor of a product; none where the product is too high.
#[inline(never)]
pub fn multiply(ring: Ring, out: &mut [u32], rows: usize, g: &[u32], grows: usize) -> Option<usize>
    requires { (most_rows * ring.n ≤ length out.old) × (most_rows * ring.n ≤ length g.now)
        × (1 ≤ rows) × (rows ≤ most_rows) × (1 ≤ grows) × (grows ≤ most_rows) }
    ensures { RowCount result × ((f h : Poly) → Stored ring.p ring.n f out.old rows → Stored ring.p ring.n h g.now grows → Kept ring.p ring.n (times_of ring.p f h) out.new result) }
{
    let mut a = [0u32; VALUE_ROOM];
    let mut b = [0u32; VALUE_ROOM];
    let mut product = [0u32; PRODUCT_ROOM];
    let used = rows * ring.n;
    let gused = grows * ring.n;
    reduce(ring.p, used, out, &mut a);
    reduce(ring.p, gused, g, &mut b);
    rows::kernel::multiply(
        ring.p,
        &a[..used],
        rows,
        &b[..gused],
        grows,
        ring.n,
        &mut product,
    );
    let count = top_rows(ring.n, rows + grows - 1, &product);
    if MOST_ROWS < count {
        return None;
    }
    copy(MOST_ROWS * ring.n, &product, out);
    Some(count)
}

// The k-th power; none where it or a lower one is too high.
pub fn raise(ring: Ring, k: u32, rows: usize, out: &mut [u32]) -> Option<usize>
    requires { (most_rows * ring.n ≤ length out.old) × (1 ≤ rows) × (rows ≤ most_rows) }
    ensures { (f : Poly) → Stored ring.p ring.n f out.old rows → Raised ring.p ring.n f k out.new result }
{
    let mut base = [0u32; VALUE_ROOM];
    copy(MOST_ROWS * ring.n, out, &mut base);
    set_number(ring, 1, out);
    let mut count = 1;
    for _ in 0..k {
        count = multiply(ring, out, count, &base, rows)?;
    }
    Some(count)
}

// The first `size` words of s, to the front of `out`.
pub fn put(size: usize, s: &[u32], out: &mut [u32])
    requires { (size ≤ length s.now) × (size ≤ length out.old) }
    ensures { out.new ≡ over (tabulate size (word s.now)) out.old }
{
    out[..size].copy_from_slice(&s[..size]);
}
