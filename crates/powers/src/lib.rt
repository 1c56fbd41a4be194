// Powers of Y − c: found in a polynomial by repeated division, and worked out. These trust their caller: they have a `requires`, and are for the crates of this
// repository. All are proved for every modulus below 2^24.
#![tactic(auto)]

ghost use Rattle.std.specs.Prelude.{◌≡◌, ◌+◌, ◌-◌, ◌*◌, ◌≤◌, ◌<◌, length};
ghost use Rattle.algebra.specs.Prime.{Prime};
ghost use Rattle.numbers.specs.Words.{word, tabulate};
ghost use Rattle.numbers.specs.internal.Facts.{AllBelow, Rising};
ghost use Rattle.numbers.specs.internal.Limits.{modulus_bound};
ghost use Rattle.numbers.specs.Limits.{most_rows};
ghost use Rattle.columns.specs.internal.Column.{horner_word};
ghost use Rattle.powers.specs.internal.Powers.{DividedOut, FoundPowers};
ghost use Rattle.hensel.specs.Factors.{root_power};

use numbers::limits::MOST_ROWS;

// The value at c.
pub fn value(p: u32, c: u32, e: &[u32]) -> u32
    requires { (1 ≤ p) × (p < modulus_bound) × (c < p) }
    ensures { result ≡ horner_word p c (length e.now) (word e.now) 0 }
{
    let mut sum = 0u64;
    for j in (0..e.len()).rev() {
        sum = (e[j] as u64 + (c as u64) * sum) % (p as u64);
    }
    sum as u32
}

// Divides the polynomial from word `at` on by Y − c, as often as nothing is left over. What is left of it stands from the answer on.
fn divide_out(p: u32, c: u32, at: usize, e: &mut [u32]) -> usize
    requires { (1 ≤ p) × (p < modulus_bound) × (c < p) × (at < length e.old) × AllBelow p e.old }
    ensures { DividedOut p c at e.old result e.new }
{
    let last = e.len() - 1;
    for a in at..last {
        if value(p, c, &e[a..]) != 0 {
            return a;
        }
        columns::horner(p, c, &mut e[a..]);
    }
    last
}

// Whether the polynomial in e, whose last word is 1, is a product of powers, all 1 or more, of the roots, which rise; and these powers.
pub fn find_powers(p: u32, roots: &[u32], e: &mut [u32], powers: &mut [u32]) -> bool
    requires { Prime p × (p < modulus_bound) × AllBelow p roots.now × Rising roots.now
        × (length roots.now ≤ length powers.old) × (1 ≤ length e.old) × (length e.old ≤ most_rows) × AllBelow p e.old × (word e.old (length e.old - 1) ≡ 1) }
    ensures { FoundPowers p roots.now e.old result powers.new }
{
    let mut at = 0;
    for i in 0..roots.len() {
        let b = divide_out(p, roots[i], at, e);
        if b <= at {
            return false;
        }
        powers[i] = (b - at) as u32;
        at = b;
    }
    at + 1 == e.len()
}

// (Y − c)^m, m + 1 words: Y^m at Y − c.
pub fn root_power(p: u32, c: u32, line: &mut [u32])
    requires { (2 ≤ p) × (p < modulus_bound) × (c < p) × (1 ≤ length line.old) × (length line.old ≤ most_rows) }
    ensures { line.new ≡ tabulate (length line.old) (root_power p c (length line.old - 1)) }
{
    let rows = line.len();
    let mut power = [0u32; MOST_ROWS];
    power[rows - 1] = 1;
    rows::kernel::shift(p, (p - c) % p, &power[..rows], rows, 1, line);
}
