// Where the words of a sheet stand: the one place of the code that knows. Header words: 0 p, 1 D, 2 N, 3 k, 4 r, 5 to 7 offsets, 8 and 9 total, 10 the least
// of the known lengths, which follow. These trust their caller: they have a `requires`, and are for the crates of this repository.
#![tactic(auto)]

ghost use Rattle.std.specs.Prelude.{◌≡◌, ℕ, ◌+◌, ◌*◌, ◌≤◌, ◌<◌, length, set};
ghost use Rattle.algebra.specs.Sums.{sum_to};
ghost use Rattle.numbers.specs.Words.{part};
ghost use Rattle.numbers.specs.Limits.{largest_degree, largest_width};
ghost use Rattle.layout.specs.Layout.{terms_at, degree, width, count, known, lengths_from, roots_from, polynomial_from, factors_from, total, root, power, factor_from, factor_part, entry_at};
ghost use Rattle.layout.specs.internal.Places.{HeaderIs, OffsetsAre, Placed};

pub mod lengths; // the known lengths of rows
pub mod writing; // the header, and the roots with their powers, of a fresh sheet

// Where the known lengths begin: the words of the header.
pub const LENGTHS_FROM: usize = 11;

// The most words that the factors' rows have: 32 rows of 256.
pub const FACTORS_ROOM: usize = 8192;

// What the header says but for the offsets, which D, N and r give.
#[derive(Clone, Copy)]
pub struct Header {
    pub p: u32,
    pub degree: usize,
    pub width: usize,
    pub terms: usize,
    pub count: usize,
    pub reach: usize,
}

pub fn read_header(s: &[u32]) -> Header
    requires { lengths_from ≤ length s.now }
    ensures { HeaderIs s.now result }
{
    Header {
        p: s[0],
        degree: s[1] as usize,
        width: s[2] as usize,
        terms: s[3] as usize,
        count: s[4] as usize,
        reach: s[10] as usize,
    }
}

// Where the header says that the parts begin, and where the sheet ends.
#[derive(Clone, Copy)]
pub struct Offsets {
    pub roots: usize,
    pub polynomial: usize,
    pub factors: usize,
    pub rest: usize,
    pub end: usize,
}

pub fn read_offsets(s: &[u32]) -> Offsets
    requires { lengths_from ≤ length s.now }
    ensures { OffsetsAre s.now result }
{
    Offsets {
        roots: s[5] as usize,
        polynomial: s[6] as usize,
        factors: s[7] as usize,
        rest: s[8] as usize,
        end: s[9] as usize,
    }
}

// The terms become w.
pub fn set_terms(w: u32, s: &mut [u32])
    requires { lengths_from ≤ length s.old }
    ensures { s.new ≡ set s.old terms_at w }
{
    s[3] = w;
}

// Row j, column t of the polynomial becomes `entry`.
pub fn set_entry(j: usize, t: usize, entry: u32, s: &mut [u32])
    requires { Placed s.old × (j < degree s.old) × (t < width s.old) }
    ensures { s.new ≡ set s.old (entry_at s.old j t) entry }
{
    let h = read_header(s);
    let at = polynomial_from(h.degree, h.count) + j * h.width + t;
    s[at] = entry;
}

pub fn roots_from(d: usize) -> usize
    requires { d ≤ largest_degree }
    ensures { result ≡ roots_from d }
{
    LENGTHS_FROM + d
}

pub fn polynomial_from(d: usize, r: usize) -> usize
    requires { (d ≤ largest_degree) × (r ≤ largest_degree) }
    ensures { result ≡ polynomial_from d r }
{
    LENGTHS_FROM + d + 2 * r
}

pub fn factors_from(d: usize, n: usize, r: usize) -> usize
    requires { (d ≤ largest_degree) × (n ≤ largest_width) × (r ≤ largest_degree) }
    ensures { result ≡ factors_from d n r }
{
    LENGTHS_FROM + d + 2 * r + (d + 1) * n
}

// T, where the factors' rows end.
pub fn total_of(d: usize, n: usize, r: usize) -> usize
    requires { (d ≤ largest_degree) × (n ≤ largest_width) × (r ≤ largest_degree) }
    ensures { result ≡ total d n r }
{
    LENGTHS_FROM + d + 2 * r + (2 * d + 1) * n
}

// Root i, counted from 0.
pub fn root_at(s: &[u32], i: usize) -> u32
    requires { (i ≤ largest_degree) × (degree s.now ≤ largest_degree) × (polynomial_from (degree s.now) (i + 1) ≤ length s.now) }
    ensures { result ≡ root s.now i }
{
    let d = s[1] as usize;
    s[LENGTHS_FROM + d + 2 * i]
}

// And its power.
pub fn power_at(s: &[u32], i: usize) -> u32
    requires { (i ≤ largest_degree) × (degree s.now ≤ largest_degree) × (polynomial_from (degree s.now) (i + 1) ≤ length s.now) }
    ensures { result ≡ power s.now i }
{
    let d = s[1] as usize;
    s[LENGTHS_FROM + d + 2 * i + 1]
}

// The known length of row j of the polynomial.
pub fn length_at(s: &[u32], j: usize) -> u32
    requires { Placed s.now × (j < degree s.now) }
    ensures { result ≡ known s.now j }
{
    s[LENGTHS_FROM + j]
}

// The rows of the factors before factor i: the sum of their powers.
fn rows_before(s: &[u32], i: usize) -> usize
    requires { (i ≤ largest_degree) × (degree s.now ≤ largest_degree) × (polynomial_from (degree s.now) i ≤ length s.now)
        × ((l : ℕ) → l < i → power s.now l ≤ largest_degree) }
    ensures { result ≡ sum_to i (power s.now) }
{
    let mut sum = 0;
    for l in 0..i {
        sum += power_at(s, l) as usize;
    }
    sum
}

// Where the rows of factor i begin.
pub fn factor_from(s: &[u32], i: usize) -> usize
    requires { Placed s.now × (i < count s.now) }
    ensures { result ≡ factor_from s.now i }
{
    let h = read_header(s);
    let width = h.width;
    factors_from(h.degree, width, h.count) + rows_before(s, i) * width
}

// The rows of factor i.
pub fn factor_part(s: &[u32], i: usize) -> &[u32]
    requires { Placed s.now × (i < count s.now) }
    ensures { result.now ≡ factor_part s.now i }
{
    let h = read_header(s);
    let a = factor_from(s, i);
    let e = a + power_at(s, i) as usize * h.width;
    &s[a..e]
}

// The n words from word a on.
fn words_from(s: &[u32], a: usize, n: usize) -> &[u32]
    requires { a + n ≤ length s.now }
    ensures { result.now ≡ part s.now a n }
{
    let e = a + n;
    &s[a..e]
}

// r roots with their powers.
pub fn roots_part(s: &[u32], r: usize) -> &[u32]
    requires { (r ≤ largest_degree) × (degree s.now ≤ largest_degree) × (polynomial_from (degree s.now) r ≤ length s.now) }
    ensures { result.now ≡ part s.now (roots_from (degree s.now)) (2 * r) }
{
    words_from(s, roots_from(s[1] as usize), 2 * r)
}

// The known lengths of rows 0..D − 1.
pub fn lengths_part(s: &[u32]) -> &[u32]
    requires { (degree s.now ≤ largest_degree) × (roots_from (degree s.now) ≤ length s.now) }
    ensures { result.now ≡ part s.now lengths_from (degree s.now) }
{
    words_from(s, LENGTHS_FROM, s[1] as usize)
}

// The polynomial's rows.
pub fn polynomial_part(s: &[u32]) -> &[u32]
    requires { Placed s.now }
    ensures { result.now ≡ part s.now (polynomial_from (degree s.now) (count s.now)) ((degree s.now + 1) * width s.now) }
{
    let h = read_header(s);
    words_from(
        s,
        polynomial_from(h.degree, h.count),
        (h.degree + 1) * h.width,
    )
}

// The polynomial's rows but for the top one.
pub fn lower_part(s: &[u32]) -> &[u32]
    requires { Placed s.now }
    ensures { result.now ≡ part s.now (polynomial_from (degree s.now) (count s.now)) (degree s.now * width s.now) }
{
    let h = read_header(s);
    words_from(s, polynomial_from(h.degree, h.count), h.degree * h.width)
}

// The rows of all factors.
pub fn factors_part(s: &[u32]) -> &[u32]
    requires { Placed s.now }
    ensures { result.now ≡ part s.now (factors_from (degree s.now) (width s.now) (count s.now)) (degree s.now * width s.now) }
{
    let h = read_header(s);
    words_from(
        s,
        factors_from(h.degree, h.width, h.count),
        h.degree * h.width,
    )
}
