// The words of a fresh sheet, with one term: at X = 0 factor i is (Y − c_i)^(m_i).
ghost use Rattle.std.specs.Prelude.{◌≡◌, ◌+◌, ◌*◌, ◌≤◌, ◌<◌, length};
ghost use Rattle.numbers.specs.Words.{word, over};
ghost use Rattle.numbers.specs.Refusals.{outcome};
ghost use Rattle.numbers.specs.internal.Facts.{AllBelow};
ghost use Rattle.numbers.specs.internal.Limits.{modulus_bound};
ghost use Rattle.numbers.specs.Limits.{largest_degree, most_rows, largest_width};
ghost use Rattle.rows.specs.Rows.{table};
ghost use Rattle.hensel.specs.Factors.{root_power, flat};
ghost use Rattle.layout.specs.Layout.{roots_from};
ghost use Rattle.sheet.specs.internal.Content.{size};
ghost use Rattle.open.specs.internal.Opening.{given};
ghost use Rattle.open.specs.internal.Writing.{front_words, degree_of, factor_table, fresh_content, fresh_words, FreshReady, Finished};

use crate::opening::Lent;
use columns::copy;
use layout::LENGTHS_FROM;
use layout::lengths::least_length;
use layout::writing::{write_header, write_roots};
use numbers::limits::MOST_ROWS;
use numbers::refusal::Refusal;
use powers::root_power;

// Rows with this first column, and 0 past it.
fn spread(column: &[u32], n: usize, out: &mut [u32])
    requires { (1 ≤ n) × (n ≤ largest_width) × (length column.now ≤ most_rows) × (length out.old ≡ length column.now * n) }
    ensures { out.new ≡ table (length column.now) n (flat (word column.now)) }
{
    for j in 0..column.len() {
        let a = j * n;
        let e = a + n;
        columns::start_row(column[j], &mut out[a..e]);
    }
}

// The m lower rows of (Y − c)^m.
fn write_factor(p: u32, n: usize, c: u32, m: usize, out: &mut [u32])
    requires { (2 ≤ p) × (p < modulus_bound) × (c < p) × (1 ≤ n) × (n ≤ largest_width) × (m ≤ largest_degree) × (length out.old ≡ m * n) }
    ensures { out.new ≡ table m n (flat (root_power p c m)) }
{
    let rows = m + 1;
    let mut line = [0u32; MOST_ROWS];
    root_power(p, c, &mut line[..rows]);
    spread(&line[..m], n, out);
}

// All factors' rows.
fn write_factors(p: u32, n: usize, roots: &[u32], powers: &[u32], out: &mut [u32])
    requires { (2 ≤ p) × (p < modulus_bound) × AllBelow p roots.now × (length powers.now ≡ length roots.now) × (degree_of powers.now ≤ largest_degree) × (1 ≤ n) × (n ≤ largest_width)
        × (length out.old ≡ degree_of powers.now * n) }
    ensures { out.new ≡ table (degree_of powers.now) n (factor_table p roots.now powers.now) }
{
    let mut at = 0;
    for (root, power) in roots.iter().zip(powers) {
        let m = *power as usize;
        let e = at + m * n;
        write_factor(p, n, *root, m, &mut out[at..e]);
        at = e;
    }
}

impl<'a> Lent<'a> {
    // The header, for r roots, and the known lengths.
    fn write_front(self, r: usize, out: &mut [u32])
        requires { (self.d ≤ largest_degree) × (self.n ≤ largest_width) × (r ≤ largest_degree) × (length self.lengths.now ≡ self.d) × (roots_from self.d ≤ length out.old) }
        ensures { out.new ≡ over (front_words self.entry.p self.entry.d self.entry.n r self.entry.lengths.now) out.old }
    {
        let first = layout::roots_from(self.d as usize);
        write_header(
            self.p,
            self.d,
            self.n,
            1,
            r,
            least_length(self.n, self.lengths),
            out,
        );
        copy(self.lengths, &mut out[LENGTHS_FROM..first]);
    }

    // The sheet of what is given, whose powers are found, over the first words of out.
    fn write_sheet(self, powers: &[u32], total: usize, out: &mut [u32])
        requires { FreshReady (given self) powers.now × (length self.rows.now ≡ (self.d + 1) * self.n) × (length self.lengths.now ≡ self.d)
            × (length powers.now ≡ length self.roots.now) × (total ≡ size (fresh_content (given self) powers.now)) × (total ≤ length out.old) }
        ensures { out.new ≡ over (fresh_words (given self.entry) powers.now) out.old }
    {
        let d = self.d as usize;
        let width = self.n as usize;
        let r = self.roots.len();
        let first = layout::roots_from(d);
        let polynomial = layout::polynomial_from(d, r);
        let factors = layout::factors_from(d, width, r);
        self.write_front(r, out);
        write_roots(self.roots, powers, &mut out[first..polynomial]);
        copy(self.rows, &mut out[polynomial..factors]);
        write_factors(self.p, width, self.roots, powers, &mut out[factors..total]);
    }

    // That sheet, where `out` has room for it; else refusal 10.
    pub fn finish(self, powers: &[u32], out: &mut [u32]) -> Result<u32, Refusal>
        requires { FreshReady (given self) powers.now × (length self.rows.now ≡ (self.d + 1) * self.n) × (length self.lengths.now ≡ self.d)
            × (length powers.now ≡ length self.roots.now) }
        ensures { Finished (given self.entry) powers.now out.old (outcome result) out.new }
    {
        let total = layout::total_of(self.d as usize, self.n as usize, self.roots.len());
        if out.len() < total {
            return Err(Refusal::Short(total as u32));
        }
        self.write_sheet(powers, total, out);
        Ok(total as u32)
    }
}
