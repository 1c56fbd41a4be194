// A polynomial's rows, split in place: before column t the columns below t hold the two parts, the others still the polynomial. The one core of every
// split: a sheet's factors are split off from column 1 on, a pair from the column where it is to go on.
ghost use Rattle.std.specs.Prelude.{true, ◌≡◌, ℕ, ◌+◌, ◌-◌, ◌*◌, ◌≤◌, ◌<◌, length};
ghost use Rattle.numbers.specs.Words.{word};
ghost use Rattle.numbers.specs.Limits.{most_rows};
ghost use Rattle.solution.specs.internal.Table.{SplitTo, SplitReady, SplitStart, SplitRoom, SplitBy, SplitRoots, Split};

use columns::{load_column, store_column};
use direct::split_columns;
use numbers::limits::MOST_ROWS;
use solution::{prepare_split, product_of};
use tiled::split_tiled;

// A table of solutions for the most rows: 33 · 33 words.
const MOST_CELLS: usize = 1089;

// Tiles pay where the sums are long: not for few rows or few columns.
fn tiles_pay(m: usize, k: usize, w: usize) -> bool
    ensures { result ≡ true → (4 ≤ m) × (4 ≤ k) }
{
    4 <= m && 4 <= k && 16 <= w
}

// Columns h to w − 1 of the split, by tiles where these pay.
fn split_either(
    p: u32,
    m: usize,
    k: usize,
    p0: &[u32],
    a0: &[u32],
    table: &[u32],
    n: usize,
    h: usize,
    w: usize,
    e: &mut [u32],
    column: &mut [u32],
    rows: &mut [u32],
)
    requires { SplitReady p n m k p0.now a0.now table.now h w rows.old × (length e.old ≡ m + k) × (length column.old ≡ m + k) }
    ensures { SplitTo p n m k p0.now a0.now h w rows.old rows.new }
{
    if tiles_pay(m, k, w) {
        split_tiled(p, m, k, p0, a0, table, n, h, w, e, column, rows);
    } else {
        split_columns(p, m, k, p0, a0, table, n, h, w, e, column, rows);
    }
}

// The first m words of p0, and the first k of a0.
fn join(p0: &[u32], a0: &[u32], m: usize, k: usize, e: &mut [u32])
    requires { (length p0.now ≡ m + 1) × (length a0.now ≡ k + 1) × (m + k ≤ most_rows) × (length e.old ≡ m + k) }
    ensures long { length e.new ≡ m + k }
    ensures low { (i : ℕ) → i < m → word e.new i ≡ word p0.now i }
    ensures high { (i : ℕ) → i < k → word e.new (m + i) ≡ word a0.now i }
{
    load_column(p0, 1, 0, &mut e[..m]);
    load_column(a0, 1, 0, &mut e[m..]);
}

// The split that begins with the product of the Y − c and a0. p0, b, row, table and e are for scratch.
fn split_with(
    p: u32,
    c: &[u32],
    a0: &[u32],
    n: usize,
    h: usize,
    w: usize,
    p0: &mut [u32],
    b: &mut [u32],
    row: &mut [u32],
    table: &mut [u32],
    e: &mut [u32],
    rows: &mut [u32],
)
    requires { SplitStart p c.now a0.now × SplitRoom p n h w (length c.now + (length a0.now - 1)) rows.old
        × (length p0.old ≡ length c.now + 1) × (length b.old ≡ length a0.now) × (length row.old ≡ length c.now + (length a0.now - 1))
        × (length table.old ≡ (length c.now + (length a0.now - 1)) * (length c.now + (length a0.now - 1))) × (length e.old ≡ length c.now + (length a0.now - 1)) }
    ensures { SplitBy p n h w c.now a0.now rows.old rows.new }
{
    let m = c.len();
    let k = a0.len() - 1;
    prepare_split(p, c, a0, p0, b, row, table);
    join(p0, a0, m, k, e);
    store_column(e, n, 0, rows);
    split_either(p, m, k, p0, a0, table, n, h, w, e, row, rows);
}

// The split that begins with the product of the Y − c and a0. Columns 1 to h − 1 of the rows hold the two parts already; columns h to w − 1 hold the polynomial,
// and become those of the parts.
pub fn split_by(p: u32, c: &[u32], a0: &[u32], n: usize, h: usize, w: usize, rows: &mut [u32])
    requires { SplitStart p c.now a0.now × SplitRoom p n h w (length c.now + (length a0.now - 1)) rows.old }
    ensures { SplitBy p n h w c.now a0.now rows.old rows.new }
{
    let m = c.len() + 1;
    let k = a0.len();
    let size = c.len() + (k - 1);
    let cells = size * size;
    let mut p0 = [0u32; MOST_ROWS];
    let mut b = [0u32; MOST_ROWS];
    let mut row = [0u32; MOST_ROWS];
    let mut table = [0u32; MOST_CELLS];
    let mut e = [0u32; MOST_ROWS];
    split_with(
        p,
        c,
        a0,
        n,
        h,
        w,
        &mut p0[..m],
        &mut b[..k],
        &mut row[..size],
        &mut table[..cells],
        &mut e[..size],
        rows,
    );
}

// The split of a node: the first m roots against the others. a0 is for scratch.
fn split_roots(p: u32, c: &[u32], m: usize, n: usize, w: usize, a0: &mut [u32], rows: &mut [u32])
    requires { SplitRoots p m c.now × SplitRoom p n 1 w (length c.now) rows.old × (length a0.old ≡ length c.now - m + 1) }
    ensures { Split p n w m c.now rows.old rows.new }
{
    product_of(p, &c[m..], a0);
    split_by(p, &c[..m], a0, n, 1, w, rows);
}

// The split of a node.
pub fn split_node(p: u32, c: &[u32], m: usize, n: usize, w: usize, rows: &mut [u32])
    requires { SplitRoots p m c.now × SplitRoom p n 1 w (length c.now) rows.old }
    ensures { Split p n w m c.now rows.old rows.new }
{
    let k = c.len() - m + 1;
    let mut a0 = [0u32; MOST_ROWS];
    split_roots(p, c, m, n, w, &mut a0[..k], rows);
}
