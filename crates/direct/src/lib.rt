// The columns of a split along rows. These trust their caller: they have a `requires`, and are for the crates of this repository. All are proved for every
// modulus below 2^24.
#![tactic(auto)]

ghost use Rattle.std.specs.Prelude.{◌≡◌, ◌+◌, ◌*◌, ◌≤◌, ◌<◌, length};
ghost use Rattle.numbers.specs.Words.{tabulate};
ghost use Rattle.numbers.specs.internal.Facts.{AllBelow};
ghost use Rattle.numbers.specs.internal.Limits.{modulus_bound};
ghost use Rattle.numbers.specs.Limits.{most_rows, largest_width};
ghost use Rattle.solution.specs.internal.Table.{left_at, Step, SplitTo, SplitReady};

use columns::{gather, store_column};
use rows::kernel::combine;

// What column t of the rows leaves, once the products of the columns between are taken off.
fn gather_rows(p: u32, m: usize, k: usize, n: usize, t: usize, rows: &[u32], e: &mut [u32])
    requires { (1 ≤ p) × (p < modulus_bound) × (m + k ≤ most_rows) × (n ≤ largest_width) × (1 ≤ t) × (t < n) × (length rows.now ≡ (m + k) * n) × (length e.old ≡ m + k) × AllBelow p rows.now }
    ensures { e.new ≡ tabulate (m + k) (left_at p n m k rows.now t) }
{
    let seam = m * n;
    gather(p, rows, &rows[..seam], m, &rows[seam..], k, n, t, e);
}

// Column t of the split, from the columns before it. e and column are for scratch.
fn split_column(
    p: u32,
    m: usize,
    k: usize,
    table: &[u32],
    n: usize,
    t: usize,
    e: &mut [u32],
    column: &mut [u32],
    rows: &mut [u32],
)
    requires { (1 ≤ p) × (p < modulus_bound) × (m + k ≤ most_rows) × (n ≤ largest_width) × (1 ≤ t) × (t < n) × (length rows.old ≡ (m + k) * n) × (length table.now ≡ (m + k) * (m + k))
        × (length e.old ≡ m + k) × (length column.old ≡ m + k) × AllBelow p rows.old × AllBelow p table.now }
    ensures scratch { length e.new ≡ m + k }
    ensures buffer { length column.new ≡ m + k }
    ensures is { Step p n m k table.now t rows.old rows.new }
{
    gather_rows(p, m, k, n, t, rows, e);
    combine(p, table, m + k, e, column);
    store_column(column, n, t, rows);
}

// Columns h to w − 1 of the split.
pub fn split_columns(
    p: u32,
    m: usize,
    k: usize,
    p0: &[u32],
    a0: &[u32],
    table: &[u32],
    n: usize,
    h: usize,
    w: usize,
    e: &mut [u32],
    column: &mut [u32],
    rows: &mut [u32],
)
    requires { SplitReady p n m k p0.now a0.now table.now h w rows.old × (length e.old ≡ m + k) × (length column.old ≡ m + k) }
    ensures { SplitTo p n m k p0.now a0.now h w rows.old rows.new }
{
    for t in h..w {
        split_column(p, m, k, table, n, t, e, column, rows);
    }
}
