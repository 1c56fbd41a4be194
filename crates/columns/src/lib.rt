// Columns of rows: loaded, stored, gathered, set; rows made wider or narrower; and one digit of a column, E = q · A + (Y − c) · B, by Horner's scheme: no derivative, no gcd, and
// nothing is divided by but A(c). These trust their caller: they have a `requires`, and are for the crates of this repository. All are proved for every
// modulus below 2^24.
#![tactic(auto)]

ghost use Rattle.std.specs.Prelude.{◌≡◌, ◌+◌, ◌-◌, ◌*◌, ◌%◌, ◌≤◌, ◌<◌, length};
ghost use Rattle.algebra.specs.Prime.{Prime};
ghost use Rattle.numbers.specs.Divisor.{inverse_of};
ghost use Rattle.numbers.specs.Words.{word, over, tabulate, up_to};
ghost use Rattle.numbers.specs.internal.Facts.{AllBelow};
ghost use Rattle.numbers.specs.internal.Limits.{modulus_bound};
ghost use Rattle.numbers.specs.Limits.{most_rows, largest_width};
ghost use Rattle.rows.specs.Rows.{rows_of, table};
ghost use Rattle.columns.specs.internal.Column.{first_only, horner_words, less_multiple, digit_words, line_times, middle_sum, ColumnStored, ColumnsSet};

use numbers::kernel::inverse_of;
use rows::kernel::passes;
use series::kernel::{repeat, word_or_zero};

// Horner's scheme at c, in place: word 0 becomes the value at c, the others the quotient by Y − c.
pub fn horner(p: u32, c: u32, e: &mut [u32])
    requires { (1 ≤ p) × (p < modulus_bound) × (c < p) × (1 ≤ length e.old) × AllBelow p e.old }
    ensures { e.new ≡ horner_words p c e.old }
{
    for j in (0..e.len() - 1).rev() {
        e[j] = ((e[j] as u64 + (c as u64) * (e[j + 1] as u64)) % (p as u64)) as u32;
    }
}

// e − q · a, in place.
pub fn less_multiple(p: u32, q: u32, a: &[u32], e: &mut [u32])
    requires { (1 ≤ p) × (p < modulus_bound) × (length a.now ≤ length e.old) }
    ensures { e.new ≡ less_multiple p q a.now e.old }
{
    for j in 0..a.len() {
        let x = (q as u64) * (a[j] as u64) % (p as u64);
        e[j] = ((e[j] as u64 + (p as u64 - x)) % (p as u64)) as u32;
    }
}

// The next digit of e, in word 0, and in the others what is left: (e − q · A) / (Y − c), with q = e(c) / A(c). `inverse` is 1 / A(c), and a the
// quotient of A by Y − c.
pub fn digit(p: u32, c: u32, inverse: u32, a: &[u32], e: &mut [u32])
    requires { (1 ≤ p) × (p < modulus_bound) × (c < p) × (inverse < p) × (length a.now < length e.old) × AllBelow p a.now × AllBelow p e.old }
    ensures { e.new ≡ digit_words p c inverse a.now e.old }
{
    horner(p, c, e);
    let q = ((e[0] as u64) * (inverse as u64) % (p as u64)) as u32;
    e[0] = q;
    less_multiple(p, q, a, &mut e[1..]);
}

// q + (Y − c) · r, in place, for the words q, r_0, r_1, ..
pub fn line_times(p: u32, c: u32, e: &mut [u32])
    requires { (1 ≤ p) × (p < modulus_bound) × (c < p) × (1 ≤ length e.old) × AllBelow p e.old }
    ensures { e.new ≡ line_times p c e.old }
{
    let last = e.len() - 1;
    for j in 0..last {
        e[j] = ((e[j] as u64 + ((p - c) as u64) * (e[j + 1] as u64)) % (p as u64)) as u32;
    }
}

// x − sum, reduced once.
pub fn less(p: u32, x: u32, sum: u64) -> u32
    requires { (1 ≤ p) × (p < modulus_bound) × (x < p) }
    ensures { result ≡ (x + (p - sum % p)) % p }
{
    let y = (sum % (p as u64)) as u32;
    if y <= x { x - y } else { x + (p - y) }
}

// Column t of f less the products of P's and A's columns between: what the columns t of P and A have to come to.
pub fn gather(
    p: u32,
    f: &[u32],
    low: &[u32],
    m: usize,
    high: &[u32],
    k: usize,
    n: usize,
    t: usize,
    e: &mut [u32],
)
    requires { (1 ≤ p) × (p < modulus_bound) × (m ≤ most_rows) × (k ≤ most_rows) × (n ≤ largest_width) × (1 ≤ t) × (t < n) × (length low.now ≡ m * n) × (length high.now ≡ k * n)
        × (length e.old ≤ most_rows) × (length e.old * n ≤ length f.now) × AllBelow p f.now × AllBelow p low.now × AllBelow p high.now }
    ensures { e.new ≡ tabulate (length e.old)
        (λ j. (word f.now (j * n + t) + (p - middle_sum (rows_of low.now n m) (rows_of high.now n k) j t % p)) % p) }
{
    for j in 0..e.len() {
        let sum = passes(low, m, high, k, n, j, 1, t - 1);
        e[j] = less(p, f[j * n + t], sum);
    }
}

// Column t of the rows in f.
pub fn load_column(f: &[u32], n: usize, t: usize, e: &mut [u32])
    requires { (n ≤ largest_width) × (t < n) × (length e.old ≤ most_rows) × (length e.old * n ≤ length f.now) }
    ensures { e.new ≡ tabulate (length e.old) (λ j. word f.now (j * n + t)) }
{
    for j in 0..e.len() {
        e[j] = f[j * n + t];
    }
}

// Column t of the rows in out becomes e.
pub fn store_column(e: &[u32], n: usize, t: usize, out: &mut [u32])
    requires { (n ≤ largest_width) × (t < n) × (length e.now ≤ most_rows) × (length e.now * n ≤ length out.old) }
    ensures { ColumnStored n t e.now out.old out.new }
{
    for j in 0..e.len() {
        out[j * n + t] = e[j];
    }
}

// From A to what a digit wants: 1 / A(c), and in the words from 1 on the quotient of A by Y − c.
pub fn prepare(p: u32, c: u32, a: &mut [u32]) -> u32
    requires { Prime p × (p < modulus_bound) × (c < p) × (1 ≤ length a.old) × AllBelow p a.old × (1 ≤ word (horner_words p c a.old) 0) }
    ensures inverse { result ≡ inverse_of p (word (horner_words p c a.old) 0) }
    ensures words { a.new ≡ horner_words p c a.old }
{
    horner(p, c, a);
    inverse_of(p, a[0])
}

// first, 0, 0, ..
pub fn start_row(first: u32, row: &mut [u32])
    requires { 1 ≤ length row.old }
    ensures { row.new ≡ tabulate (length row.old) (first_only first) }
{
    repeat(0, row);
    row[0] = first;
}

// The words, over the first of out. By `copy_from_slice` the archive for C would need `memmove` beside `memcpy`.
pub fn copy(words: &[u32], out: &mut [u32])
    requires { length words.now ≤ length out.old }
    ensures { out.new ≡ over words.now out.old }
{
    for i in 0..words.len() {
        out[i] = words[i];
    }
}

// 0 from column w on, in every row.
pub fn clear(n: usize, w: usize, d: usize, rows: &mut [u32])
    requires { (w ≤ n) × (n ≤ largest_width) × (d ≤ most_rows) × (length rows.old ≡ d * n) }
    ensures { ColumnsSet n w n d (λ _ _. 0) rows.old rows.new }
{
    for j in 0..d {
        let a = j * n + w;
        let e = j * n + n;
        repeat(0, &mut rows[a..e]);
    }
}

// Columns h to w − 1 of the rows become those of f.
pub fn put_columns(f: &[u32], n: usize, h: usize, w: usize, d: usize, rows: &mut [u32])
    requires { (h ≤ w) × (w ≤ n) × (n ≤ largest_width) × (d ≤ most_rows) × (length f.now ≡ d * n) × (length rows.old ≡ d * n) }
    ensures { ColumnsSet n h w d (λ j t. word f.now (j * n + t)) rows.old rows.new }
{
    for j in 0..d {
        let a = j * n + h;
        let e = j * n + w;
        copy(&f[a..e], &mut rows[a..e]);
    }
}

// The words of a row that there is room for, and 0 past them.
fn fit_row(row: &[u32], out: &mut [u32])
    ensures { out.new ≡ tabulate (length out.old) (word row.now) }
{
    for t in 0..out.len() {
        out[t] = word_or_zero(row, t);
    }
}

// Rows of n words as rows of w words: cut where these are fewer, and with 0 after them where they are more.
pub fn fit_rows(f: &[u32], n: usize, w: usize, rows: usize, out: &mut [u32])
    requires { (n ≤ largest_width) × (w ≤ largest_width) × (rows ≤ most_rows) × (length f.now ≡ rows * n) × (length out.old ≡ rows * w) }
    ensures { out.new ≡ table rows w (λ j. up_to n (λ t. word f.now (j * n + t))) }
{
    for j in 0..rows {
        let a = j * n;
        let e = a + n;
        let b = j * w;
        let c = b + w;
        fit_row(&f[a..e], &mut out[b..c]);
    }
}
