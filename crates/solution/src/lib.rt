// The solutions of P0 · A + P · A0 = Y^j for every j below the degree, P0 = (Y − c_0) .. (Y − c_(m−1)) for any roots: that for 1 by dividing by one
// Y − c after the other, each next one by multiplying by Y. Nothing is divided by but A0 at P0's roots.
#![tactic(auto)]

ghost use Rattle.std.specs.Prelude.{◌≡◌, ℕ, ◌+◌, ◌-◌, ◌*◌, ◌%◌, ◌≤◌, ◌<◌, length};
ghost use Rattle.algebra.specs.Prime.{Prime};
ghost use Rattle.numbers.specs.Words.{word, tabulate};
ghost use Rattle.numbers.specs.internal.Facts.{AllBelow};
ghost use Rattle.numbers.specs.internal.Limits.{modulus_bound};
ghost use Rattle.numbers.specs.Limits.{most_rows};
ghost use Rattle.columns.specs.internal.Column.{horner_words};
ghost use Rattle.solution.specs.internal.Table.{Expanded, Digit, Digits, Solution, Table, next_word, Lines, FirstSolution, Bases, SplitStart};

use columns::{line_times, load_column, prepare, start_row};

// From digits to coefficients, in place: q_0 + q_1 · (Y − c_0) + q_2 · (Y − c_0)(Y − c_1) + ..
pub fn expand(p: u32, c: &[u32], e: &mut [u32])
    requires { (1 ≤ p) × (p < modulus_bound) × (length c.now ≤ length e.old) × AllBelow p c.now × AllBelow p e.old }
    ensures { Expanded p c.now e.old e.new }
{
    for i in (0..c.len()).rev() {
        line_times(p, c[i], &mut e[i..]);
    }
}

// The next digit of e, in word 0, and in the others what is left: (e − q · a) / (Y − c), with q = e(c) / a(c). b is for scratch.
fn digit(p: u32, c: u32, a: &[u32], b: &mut [u32], e: &mut [u32])
    requires { Prime p × (p < modulus_bound) × (c < p) × (1 ≤ length a.now) × (length a.now ≤ most_rows) × (length a.now ≤ length e.old) × (length b.old ≡ length a.now)
        × AllBelow p a.now × AllBelow p e.old × (1 ≤ word (horner_words p c a.now) 0) }
    ensures scratch { length b.new ≡ length b.old }
    ensures is { Digit p c a.now e.old e.new }
{
    load_column(a, 1, 0, b);
    let inverse = prepare(p, c, b);
    columns::digit(p, c, inverse, &b[1..], e);
}

// A digit for each root.
fn digits(p: u32, c: &[u32], a: &[u32], b: &mut [u32], e: &mut [u32])
    requires { Prime p × (p < modulus_bound) × (1 ≤ length a.now) × (length a.now ≤ most_rows) × (length c.now + length a.now ≤ length e.old + 1) × (length b.old ≡ length a.now)
        × AllBelow p c.now × AllBelow p a.now × AllBelow p e.old × ((l : ℕ) → l < length c.now → 1 ≤ word (horner_words p (word c.now l) a.now) 0) }
    ensures scratch { length b.new ≡ length b.old }
    ensures is { Digits p c.now a.now (length c.now) e.old e.new }
{
    for l in 0..c.len() {
        digit(p, c[l], a, b, &mut e[l..]);
    }
}

// Y · e + q · b, as many words as e has, in place.
fn next_part(p: u32, q: u32, b: &[u32], e: &mut [u32])
    requires { (1 ≤ p) × (p < modulus_bound) × (q ≤ p) × (1 ≤ length e.old) × (length e.old ≤ length b.now) × AllBelow p b.now × AllBelow p e.old }
    ensures { e.new ≡ tabulate (length e.old) (next_word p q b.now e.old) }
{
    let modulus = p as u64;
    for j in (1..e.len()).rev() {
        e[j] = ((e[j - 1] as u64 + (q as u64) * (b[j] as u64)) % modulus) as u32;
    }
    e[0] = ((q as u64) * (b[0] as u64) % modulus) as u32;
}

// (Y − c_0) .. (Y − c_(m−1)).
pub fn product_of(p: u32, c: &[u32], out: &mut [u32])
    requires { (2 ≤ p) × (p < modulus_bound) × (length out.old ≡ length c.now + 1) × AllBelow p c.now }
    ensures { Lines p c.now out.new }
{
    start_row(0, out);
    let last = out.len() - 1;
    out[last] = 1;
    expand(p, c, out);
}

// The solution for 1. b is for scratch.
pub fn first_solution(p: u32, c: &[u32], a: &[u32], b: &mut [u32], out: &mut [u32])
    requires { Prime p × (p < modulus_bound) × (1 ≤ length c.now) × (2 ≤ length a.now) × (length c.now + length a.now ≤ 34) × (length out.old + 1 ≡ length c.now + length a.now) × (length b.old ≡ length a.now)
        × AllBelow p c.now × AllBelow p a.now × ((l : ℕ) → l < length c.now → 1 ≤ word (horner_words p (word c.now l) a.now) 0) }
    ensures scratch { length b.new ≡ length b.old }
    ensures is { FirstSolution p c.now a.now (length a.now - 1) out.new }
{
    start_row(1, out);
    digits(p, c, a, b, out);
    let m = c.len();
    expand(p, c, &mut out[..m]);
}

// From the solution for Y^j to that for Y^(j+1): Y · P_j − q · P0 and Y · A_j + q · A0, with q the last word of P_j.
fn next_solution(p: u32, m: usize, k: usize, p0: &[u32], a0: &[u32], row: &mut [u32])
    requires { Bases p m k p0.now a0.now × (length row.old ≡ m + k) × AllBelow p row.old }
    ensures long { length row.new ≡ m + k }
    ensures below { AllBelow p row.new }
    ensures next { (j : ℕ) → j + 1 < m + k → Solution p m k (word p0.now) (word a0.now) j (word row.old)
        → Solution p m k (word p0.now) (word a0.now) (j + 1) (word row.new) }
{
    let last = m - 1;
    let q = row[last];
    next_part(p, p - q, p0, &mut row[..m]);
    next_part(p, q, a0, &mut row[m..]);
}

// The table of solutions, row after row.
pub fn fill_table(
    p: u32,
    m: usize,
    k: usize,
    p0: &[u32],
    a0: &[u32],
    row: &mut [u32],
    table: &mut [u32],
)
    requires { Bases p m k p0.now a0.now × (length row.old ≡ m + k) × AllBelow p row.old × (length table.old ≡ (m + k) * (m + k))
        × Solution p m k (word p0.now) (word a0.now) 0 (word row.old) }
    ensures { Table p m k (word p0.now) (word a0.now) (m + k) table.new }
{
    let n = m + k;
    for j in 0..n {
        let a = j * n;
        let e = a + n;
        load_column(row, 1, 0, &mut table[a..e]);
        next_solution(p, m, k, p0, a0, row);
    }
}

// The product of the lines, and the table of solutions for it and a0. b and row are for scratch.
pub fn prepare_split(
    p: u32,
    c: &[u32],
    a0: &[u32],
    p0: &mut [u32],
    b: &mut [u32],
    row: &mut [u32],
    table: &mut [u32],
)
    requires { SplitStart p c.now a0.now × (length p0.old ≡ length c.now + 1) × (length b.old ≡ length a0.now) × (length row.old ≡ length c.now + (length a0.now - 1))
        × (length table.old ≡ (length c.now + (length a0.now - 1)) * (length c.now + (length a0.now - 1))) }
    ensures lines { Lines p c.now p0.new }
    ensures size { length table.new ≡ length table.old }
    ensures scratch { length row.new ≡ length row.old }
    ensures is { Table p (length c.now) (length a0.now - 1) (word p0.new) (word a0.now) (length c.now + (length a0.now - 1)) table.new }
{
    product_of(p, c, p0);
    first_solution(p, c, a0, b, row);
    fill_table(p, c.len(), a0.len() - 1, p0, a0, row, table);
}
