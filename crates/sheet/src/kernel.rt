// The factors of a sheet, worked out anew, compared with those stored, and stored. These trust their caller: they have a `requires`, and are for the crates
// of this repository. All are proved for every modulus below 2^24.
ghost use Rattle.std.specs.Prelude.{◌≡◌, true, ℕ, ◌+◌, ◌*◌, ◌≤◌, ◌<◌, length};
ghost use Rattle.numbers.specs.Words.{word, up_to};
ghost use Rattle.numbers.specs.internal.Facts.{Decides};
ghost use Rattle.numbers.specs.Limits.{largest_degree, largest_width};
ghost use Rattle.layout.specs.Layout.{degree, width, terms, count};
ghost use Rattle.sheet.specs.Sheet.{Sound};
ghost use Rattle.front.specs.internal.Front.{Front};
ghost use Rattle.sheet.specs.internal.Stages.{Loaded, Computed, WorkedOut, SameTerms};
ghost use Rattle.sheet.specs.internal.Stored.{Stored};

use columns::{copy, load_column};
use numbers::limits::{MOST_ROOTS, MOST_ROWS};
use split::factors::find_factors;

// The roots and the powers that the sheet lists.
fn load_roots(s: &[u32], roots: &mut [u32], powers: &mut [u32])
    requires { Front s.now × (length roots.old ≡ count s.now) × (length powers.old ≡ count s.now) }
    ensures { Loaded s.now roots.new powers.new }
{
    let pairs = layout::roots_part(s, roots.len());
    load_column(pairs, 2, 0, roots);
    load_column(pairs, 2, 1, powers);
}

// With room for the roots, the powers, and what finding the factors wants for scratch.
fn work_with(
    s: &[u32],
    w: usize,
    roots: &mut [u32],
    powers: &mut [u32],
    c: &mut [u32],
    line: &mut [u32],
    rows: &mut [u32],
) -> bool
    requires { Front s.now × (1 ≤ w) × (w ≤ width s.now) × (length roots.old ≡ count s.now) × (length powers.old ≡ count s.now) × (length c.old ≡ degree s.now)
        × (length line.old ≡ degree s.now + 1) × (length rows.old ≡ degree s.now * width s.now) }
    ensures { WorkedOut s.now w result rows.new }
{
    load_roots(s, roots, powers);
    copy(layout::lower_part(s), rows);
    let h = layout::read_header(s);
    find_factors(h.p, h.width, roots, powers, w, c, line, rows)
}

// Whether the sheet's polynomial has factors: whether it is, at X = 0, the product of the powers of Y − c that the sheet lists. If so, `rows` becomes the
// factors' rows, to w terms.
pub fn work_out(s: &[u32], w: usize, rows: &mut [u32]) -> bool
    requires { Front s.now × (1 ≤ w) × (w ≤ width s.now) × (length rows.old ≡ degree s.now * width s.now) }
    ensures { WorkedOut s.now w result rows.new }
{
    let h = layout::read_header(s);
    let d = h.degree;
    let r = h.count;
    let mut roots = [0u32; MOST_ROOTS];
    let mut powers = [0u32; MOST_ROOTS];
    let mut c = [0u32; MOST_ROOTS];
    let mut line = [0u32; MOST_ROWS];
    work_with(
        s,
        w,
        &mut roots[..r],
        &mut powers[..r],
        &mut c[..d],
        &mut line[..d + 1],
        rows,
    )
}

// A word of a row, and 0 from column k on.
fn cut_word(k: usize, row: &[u32], t: usize) -> u32
    requires { t < length row.now }
    ensures { result ≡ up_to k (word row.now) t }
{
    if t < k { row[t] } else { 0 }
}

fn same_row(k: usize, stored: &[u32], computed: &[u32]) -> bool
    requires { (length computed.now ≡ length stored.now) × (k ≤ length stored.now) }
    ensures { Decides result ((t : ℕ) → t < length stored.now → word stored.now t ≡ up_to k (word computed.now) t) }
{
    (0..stored.len()).all(|t| stored[t] == cut_word(k, computed, t))
}

// Whether the stored rows are the computed ones below column k, and 0 from there on.
fn same_terms(n: usize, k: usize, d: usize, stored: &[u32], computed: &[u32]) -> bool
    requires { (n ≤ largest_width) × (d ≤ largest_degree) × (length stored.now ≡ d * n) × (length computed.now ≡ d * n) × (k ≤ n) }
    ensures { Decides result (SameTerms n k d stored.now computed.now) }
{
    for j in 0..d {
        let a = j * n;
        let e = a + n;
        if !same_row(k, &stored[a..e], &computed[a..e]) {
            return false;
        }
    }
    true
}

// Whether the factors' rows are the right ones, so that the sheet is sound. They are worked out anew, in `rows`, to as many terms as the sheet has or more.
pub fn factors_fit(s: &[u32], to: usize, rows: &mut [u32]) -> bool
    requires { Front s.now × (terms s.now ≤ to) × (to ≤ width s.now) × (length rows.old ≡ degree s.now * width s.now) }
    ensures sound { Decides result (Sound s.now) }
    ensures rows { result ≡ true → Computed s.now to rows.new }
{
    if !work_out(s, to, rows) {
        return false;
    }
    let h = layout::read_header(s);
    same_terms(h.width, h.terms, h.degree, layout::factors_part(s), rows)
}

// The factors' rows, and the terms that they have.
pub fn store_rows(w: u32, rows: &[u32], sheet: &mut [u32])
    requires { Front sheet.old × (length rows.now ≡ degree sheet.old * width sheet.old) }
    ensures { Stored sheet.old w rows.now sheet.new }
{
    let h = layout::read_header(sheet);
    let from = layout::factors_from(h.degree, h.width, h.count);
    copy(rows, &mut sheet[from..]);
    layout::set_terms(w, sheet);
}
