// Opening a sheet: the checks of what is given, and the powers of the roots by repeated division.
ghost use Rattle.std.specs.Prelude.{◌≡◌, not, ◌||◌, ◌++◌, suc, ◌+◌, ◌-◌, ◌*◌, ◌≤◌, ◌<◌, eqb, length};
ghost use Rattle.numbers.specs.Words.{low_word, outside, over, rising, tabulate};
ghost use Rattle.numbers.specs.Refusals.{judge, verdict, Pass};
ghost use Rattle.numbers.specs.Limits.{largest_degree, largest_width, most_rows};
ghost use Rattle.layout.specs.Layout.{rows_at};
ghost use Rattle.rootfinding.specs.internal.Finding.{FoundRoots};
ghost use Rattle.open.specs.internal.Opening.{is_unit, PowersAnswer, given, whole, unlisted_whole};
ghost use Rattle.open.specs.Open.{polynomial_checks, top_checks, list_checks};
ghost use Rattle.open.specs.Find.{first_column};

use layout::lengths::rows_known;
use numbers::judge::{check_modulus, first_large, outside, rises};
use numbers::limits::{LARGEST_DEGREE, LARGEST_WIDTH, MOST_ROWS};
use numbers::refusal::Refusal;
use powers::find_powers;
use rootfinding::find_roots;

// The words are 1, 0, 0, ..
fn is_unit(s: &[u32]) -> bool
    requires { 1 ≤ length s.now }
    ensures { result ≡ is_unit s.now }
{
    s[0] == 1 && s[1..].iter().all(|word| *word == 0)
}

// The position of a root, counted on from the rows: its low word, since a list of roots may be longer than a word counts.
fn position(before: usize, at: usize) -> u32
    requires { before ≤ 100000 }
    ensures { result ≡ low_word (at + before) }
{
    ((at % 4294967296 + before) % 4294967296) as u32
}

// Whether these have not the words that d and n say.
fn other_words(d: u32, n: u32, rows: usize, lengths: usize) -> bool
    requires { (d ≤ largest_degree) × (n ≤ largest_width) }
    ensures { result ≡ (not (eqb rows ((d + 1) * n)) || not (eqb lengths d)) }
{
    rows != ((d + 1) * n) as usize || lengths != d as usize
}

// Whether these are not from 1 to d words that rise.
fn unlisted(d: u32, roots: &[u32]) -> bool
    ensures { result ≡ (outside 1 d (length roots.now) || not (rising roots.now)) }
{
    roots.is_empty() || (d as usize) < roots.len() || !rises(roots)
}

// f at X = 0, over the first words of e.
fn first_column(d: u32, n: u32, rows: &[u32], e: &mut [u32])
    requires { (d ≤ largest_degree) × (1 ≤ n) × (n ≤ largest_width) × (length rows.now ≡ (d + 1) * n) × (length e.old ≡ most_rows) }
    ensures { e.new ≡ over (tabulate (suc d) (λ j. rows_at rows.now 0 n j 0)) e.old }
{
    let size = d as usize + 1;
    columns::load_column(rows, n as usize, 0, &mut e[..size]);
}

// What is lent to open: a polynomial by its modulus, degree, width and rows, how far these are known, and its roots.
#[derive(Clone, Copy)]
pub struct Lent<'a> {
    pub p: u32,
    pub d: u32,
    pub n: u32,
    pub rows: &'a [u32],
    pub lengths: &'a [u32],
    pub roots: &'a [u32],
}

impl<'a> Lent<'a> {
    // Refusals 1 to 6.
    fn check_shape(self) -> Result<(), Refusal>
        ensures { verdict result ≡ judge (polynomial_checks (given self.entry)) }
    {
        check_modulus(self.p)?;
        if outside(1, LARGEST_DEGREE, self.d) {
            return Err(Refusal::Degree);
        }
        if outside(1, LARGEST_WIDTH, self.n) {
            return Err(Refusal::Terms);
        }
        if other_words(self.d, self.n, self.rows.len(), self.lengths.len()) {
            return Err(Refusal::Rows);
        }
        let at = first_large(self.p, self.rows);
        if at < self.rows.len() {
            return Err(Refusal::Unreduced(at as u32));
        }
        let more = first_large(self.p, self.roots);
        if more < self.roots.len() {
            return Err(Refusal::Unreduced(position(at, more)));
        }
        Ok(())
    }

    // Refusals 1 to 7, and 21.
    pub fn check_rows(self) -> Result<(), Refusal>
        ensures { verdict result ≡ judge (polynomial_checks (given self.entry) ++ top_checks (given self.entry)) }
    {
        self.check_shape()?;
        if !rows_known(self.n as usize, self.rows, self.lengths) {
            return Err(Refusal::KnownTerms);
        }
        let a = (self.d * self.n) as usize;
        let e = a + self.n as usize;
        if !is_unit(&self.rows[a..e]) {
            return Err(Refusal::NotMonic);
        }
        Ok(())
    }

    // Refusals 1 to 8, and 21.
    pub fn check_list(self) -> Result<(), Refusal>
        ensures { verdict result ≡ judge (polynomial_checks (given self.entry) ++ list_checks (given self.entry)) }
    {
        self.check_rows()?;
        if unlisted(self.d, self.roots) {
            return Err(Refusal::RootList);
        }
        Ok(())
    }

    // The powers of the roots that give f at X = 0, where there are any: f is given by rows that have passed refusals 1 to 8. How far they are known does not matter.
    pub fn powers_of(self, powers: &mut [u32]) -> bool
        requires { (judge (polynomial_checks (whole self) ++ list_checks (whole self)) ≡ Pass) × (length powers.old ≡ length self.roots.now) }
        ensures { PowersAnswer (whole self.entry) result powers.new }
    {
        let size = self.d as usize + 1;
        let mut e = [0u32; MOST_ROWS];
        first_column(self.d, self.n, self.rows, &mut e);
        find_powers(self.p, self.roots, &mut e[..size], powers)
    }

    // All roots of f at X = 0 and their powers, over the first words of these; f is given by rows that have passed refusals 1 to 7. The answer is their number; there is none where f does not split.
    pub fn roots_of(self, roots: &mut [u32], powers: &mut [u32]) -> Option<usize>
        requires { (judge (polynomial_checks (unlisted_whole self) ++ top_checks (unlisted_whole self)) ≡ Pass)
            × (length roots.old ≡ largest_degree) × (length powers.old ≡ largest_degree) }
        ensures { FoundRoots self.entry.p (first_column (unlisted_whole self.entry)) result roots.new powers.new }
    {
        let size = self.d as usize + 1;
        let mut e = [0u32; MOST_ROWS];
        first_column(self.d, self.n, self.rows, &mut e);
        find_roots(self.p, &e[..size], roots, powers)
    }
}
