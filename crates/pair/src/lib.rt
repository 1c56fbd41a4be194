// The Weierstrass pair f = P · A modulo X^w of a row polynomial: P is monic of degree d, the order of f, and is Y^d at X = 0; A has D − d + 1
// rows and is not 0 at X = 0, Y = 0. Rows 0..d−1 of the output are P's rows below Y^d, rows d..D are A's, columns from w up are 0.
#![tactic(auto)]

ghost use Rattle.std.specs.Prelude.{◌≡◌, ℕ, ◌+◌, ◌-◌, ◌*◌, ◌≤◌, ◌<◌, length, eqb};
ghost use Rattle.numbers.specs.Refusals.{judge, outcome, verdict};
ghost use Rattle.numbers.specs.Words.{word, choose};
ghost use Rattle.numbers.specs.internal.Facts.{Decides};
ghost use Rattle.rows.specs.Rows.{rows_of};
ghost use Rattle.solution.specs.internal.Table.{SplitRoom, SplitBy};
ghost use Rattle.pair.specs.Pair.{order_of, PairWords};
ghost use Rattle.pair.specs.Paired.{held, pair_checks, Paired};
ghost use Rattle.pair.specs.Test.{pair_test};
ghost use Rattle.pair.specs.internal.Lifting.{PairGiven, PairStart, leading_column};

use columns::{clear, load_column, put_columns};
use numbers::judge::{check_operation, outside};
use numbers::limits::MOST_ROWS;
use numbers::refusal::Refusal;
use series::kernel::first_nonzero;
use split::node::split_by;

// The most words of a polynomial: 33 rows of 256.
const MOST_WORDS: usize = 8448;

const FEW_WORDS: usize = 512; // to clear the most would take longer than to work a short pair

// The order of f: the first row that is not 0 at X = 0, or the number of rows.
fn order_of(f: &[u32], n: usize, rows: usize) -> usize
    requires { (length f.now ≡ rows * n) × (1 ≤ n) }
    ensures { result ≡ order_of rows (rows_of f.now n rows) }
{
    first_nonzero(f, n, rows)
}

// The first column to be worked: column 0 is f's own.
fn first_column(h: usize) -> usize
    ensures { result ≡ choose (eqb h 0) 1 h }
{
    h.max(1)
}

// The rows' columns h to w − 1 are split: P begins with Y^d, whose roots are 0, and A with column 0 of the rows from d on. a0 is for scratch: a word for
// each of A's rows, and one more.
fn split_rows(
    p: u32,
    d: usize,
    n: usize,
    h: usize,
    w: usize,
    roots: &[u32],
    a0: &mut [u32],
    rows: &mut [u32],
)
    requires { PairStart p d n roots.now (length a0.old) rows.old × SplitRoom p n h w (d + (length a0.old - 1)) rows.old }
    ensures column { a0.new ≡ leading_column d n (length a0.old - 1) rows.old }
    ensures split { SplitBy p n h w roots.now a0.new rows.old rows.new }
{
    let k = a0.len() - 1;
    let seam = d * n;
    load_column(&rows[seam..], n, 0, &mut a0[..k]);
    a0[k] = 0;
    split_by(p, roots, a0, n, h, w, rows);
}

// Whether two parts of the same length have the same words.
fn same_words(a: &[u32], b: &[u32]) -> bool
    requires { length b.now ≡ length a.now }
    ensures { Decides result ((i : ℕ) → i < length a.now → word a.now i ≡ word b.now i) }
{
    a == b
}

// A polynomial that is not 0 at X = 0, with its order: the first row that is not 0 there.
#[derive(Clone, Copy)]
struct Ordered<'a> {
    p: u32,
    f: &'a [u32],
    degree: usize,
    width: usize,
    order: usize,
    ghost given: { PairGiven p degree width f.now order },
}

impl<'a> Ordered<'a> {
    // The pair to w terms, in rows that hold it to h, or for h = 0 anything: columns h to w − 1 of f are put there, and split.
    fn lift(self, h: usize, w: usize, rows: &mut [u32])
        requires { (length rows.old ≡ (self.degree + 1) * self.width) × (1 ≤ h → PairWords self.p self.degree self.width self.f.now h rows.old) × (h ≤ w) × (1 ≤ w) × (w ≤ self.width) }
        ensures long { length rows.new ≡ length rows.old }
        ensures words { PairWords self.entry.p self.entry.degree self.entry.width self.entry.f.now w rows.new }
    {
        if h == w {
            return;
        }
        let n = self.width;
        let count = self.degree + 1;
        clear(n, w, count, rows);
        put_columns(self.f, n, h, w, count, rows);
        let d = self.order;
        if d == 0 {
            return; // P is 1
        }
        let k = count - d + 1;
        let roots = [0u32; MOST_ROWS];
        let mut a0 = [0u32; MOST_ROWS];
        split_rows(
            self.p,
            d,
            n,
            first_column(h),
            w,
            &roots[..d],
            &mut a0[..k],
            rows,
        );
    }

    // Whether the words of s are those of the pair to h terms, which is worked out anew, in rows.
    fn is_worked(self, h: usize, s: &[u32], rows: &mut [u32]) -> bool
        requires { (length s.now ≡ (self.degree + 1) * self.width) × (length rows.old ≡ (self.degree + 1) * self.width) × (1 ≤ h) × (h ≤ self.width) }
        ensures { Decides result (PairWords self.entry.p self.entry.degree self.entry.width self.entry.f.now h s.now) }
    {
        self.lift(0, h, rows);
        same_words(rows, s)
    }

    // Whether the first words of s are those of the pair to h terms.
    fn is_pair(self, h: usize, s: &[u32]) -> bool
        requires { ((self.degree + 1) * self.width ≤ length s.now) × (1 ≤ h) × (h ≤ self.width) }
        ensures { result ≡ pair_test self.entry.p self.entry.degree self.entry.width self.entry.f.now h s.now }
    {
        let end = (self.degree + 1) * self.width;
        if end <= FEW_WORDS {
            let mut few = [0u32; FEW_WORDS];
            return self.is_worked(h, &s[..end], &mut few[..end]);
        }
        let mut rows = [0u32; MOST_WORDS];
        self.is_worked(h, &s[..end], &mut rows[..end])
    }

    // Nothing is continued, or the first words of s are those of the pair to h terms.
    fn is_held(self, h: usize, s: &[u32]) -> bool
        requires { (self.degree + 1) * self.width ≤ length s.now }
        ensures { result ≡ held self.entry.p self.entry.degree self.entry.width self.entry.f.now h s.now }
    {
        h == 0 || (h <= self.width && self.is_pair(h, s))
    }
}

// All refusals, in order.
fn check_pair(p: u32, d: u32, n: u32, f: &[u32], h: u32, w: u32, out: &[u32]) -> Result<(), Refusal>
    ensures { verdict result ≡ judge (pair_checks p d n f.now h w out.now) }
{
    let rows = d as usize + 1;
    check_operation(p, n, f, rows, &f[..0], 0, rows, out.len())?;
    let order = order_of(f, n as usize, rows);
    if rows <= order {
        return Err(Refusal::Flat);
    }
    let given = Ordered {
        p,
        f,
        degree: d as usize,
        width: n as usize,
        order,
    };
    if !given.is_held(h as usize, out) {
        return Err(Refusal::Spoiled);
    }
    if outside(1, n, w) {
        return Err(Refusal::Beyond);
    }
    if w < h {
        return Err(Refusal::Behind);
    }
    Ok(())
}

// The pair of f to w terms, from its first h terms in out; h = 0 starts, whatever out holds. The answer is d, the order of f.
// The contract allows one outcome only, and where h is 1 or more no other columns than h..w − 1 to change: `paired-one` and `paired-keeps` in proofs/OneLaws.
pub fn pair(
    p: u32,
    d: u32,
    n: u32,
    f: &[u32],
    h: u32,
    w: u32,
    out: &mut [u32],
) -> Result<u32, Refusal>
    ensures { Paired p d n f.now h w out.old (outcome result) out.new }
{
    check_pair(p, d, n, f, h, w, out)?;
    let degree = d as usize;
    let width = n as usize;
    let order = order_of(f, width, degree + 1);
    let given = Ordered {
        p,
        f,
        degree,
        width,
        order,
    };
    let end = (degree + 1) * width;
    given.lift(h as usize, w as usize, &mut out[..end]);
    Ok(order as u32)
}
