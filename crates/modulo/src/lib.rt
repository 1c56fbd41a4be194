// Arithmetic modulo a monic polynomial f of degree d over F_p, and a test whether f splits: f has d + 1 words, remainders have d. These trust their caller: they
// have a `requires`, and are for the crates of this repository. All are proved for every modulus below 2^24.
#![tactic(auto)]

ghost use Rattle.std.specs.Prelude.{◌≡◌, false, ◌+◌, ◌-◌, ◌*◌, ◌≤◌, ◌<◌, length};
ghost use Rattle.algebra.specs.Prime.{Prime};
ghost use Rattle.numbers.specs.Limits.{largest_degree};
ghost use Rattle.numbers.specs.internal.Facts.{AllBelow};
ghost use Rattle.numbers.specs.internal.Limits.{modulus_bound};
ghost use Rattle.powers.specs.internal.Powers.{Unsplit};
ghost use Rattle.modulo.specs.internal.Modulo.{sum_bound, turned, PowerOfTwo, ModulusOf, Congruent, Remainder, words_of, times, power, plus, frobenius};

use columns::start_row;
use numbers::limits::MOST_ROOTS;
use series::kernel::{reduce_sums, subtract};

// A sum with two products more.
fn add_products(sum: u64, a: u32, q: u32, c: u32, b: u32) -> u64
    requires { (sum < sum_bound) × (a < modulus_bound) × (q < modulus_bound) × (c < modulus_bound) × (b < modulus_bound) }
    ensures { result ≡ sum + a * q + c * b }
{
    sum + (a as u64) * (q as u64) + (c as u64) * (b as u64)
}

// The monic polynomial f of degree d from 1 to 32, over F_p: its remainders have d words.
#[derive(Clone, Copy)]
pub struct Modulus<'a> {
    pub p: u32,
    pub f: &'a [u32],
    ghost fits: { ModulusOf p f.now (length f.now - 1) },
}

// A power of 2 above n: the least one, so that no digit of n above its highest costs anything.
fn bit_above(n: u32) -> u32
    requires { n < modulus_bound }
    ensures { PowerOfTwo result × (n < result) }
{
    (n + 1).next_power_of_two()
}

impl<'a> Modulus<'a> {
    // Y · acc + c · b, less a multiple of f: only the word that leaves is reduced.
    fn turn(self, c: u32, b: &[u32], acc: &mut [u64])
        requires { (c < self.p) × (length b.now ≡ length acc.old) × (length self.f.now ≡ length acc.old + 1) × AllBelow self.p b.now × AllBelow sum_bound acc.old }
        ensures { acc.new ≡ turned self.entry.p self.entry.f.now c b.now acc.old }
    {
        let p = self.p;
        let f = self.f;
        let q = (acc[acc.len() - 1] % (p as u64)) as u32;
        for j in (1..acc.len()).rev() {
            acc[j] = add_products(acc[j - 1], p - f[j], q, c, b[j]);
        }
        acc[0] = add_products(0, p - f[0], q, c, b[0]);
    }

    // a · b, not reduced: added up from the top coefficient of a down.
    fn product_sums(self, a: &[u32], b: &[u32], acc: &mut [u64])
        requires { (length a.now ≤ largest_degree) × (length b.now ≡ length acc.old) × (length self.f.now ≡ length acc.old + 1) × AllBelow self.p a.now × AllBelow self.p b.now
            × AllBelow 1 acc.old }
        ensures { Congruent self.entry.p self.entry.f.now (times self.entry.p (words_of self.entry.p a.now) (words_of self.entry.p b.now)) acc.new }
    {
        for i in (0..a.len()).rev() {
            self.turn(a[i], b, acc);
        }
    }

    // Squared, in place.
    fn square(self, out: &mut [u32])
        requires { (length self.f.now ≡ length out.old + 1) × AllBelow self.p out.old }
        ensures { Remainder self.entry.p self.entry.f.now (times self.entry.p (words_of self.entry.p out.old) (words_of self.entry.p out.old)) out.new }
    {
        let d = out.len();
        let mut acc = [0u64; MOST_ROOTS];
        self.product_sums(out, out, &mut acc[..d]);
        reduce_sums(self.p, &acc[..d], out);
    }

    // Times Y + c, in place.
    fn times_plus(self, c: u32, out: &mut [u32])
        requires { (c < self.p) × (length self.f.now ≡ length out.old + 1) × AllBelow self.p out.old }
        ensures { Remainder self.entry.p self.entry.f.now (times self.entry.p (plus self.entry.p c) (words_of self.entry.p out.old)) out.new }
    {
        let d = out.len();
        let mut line = [1u32; 2];
        line[0] = c;
        let mut acc = [0u64; MOST_ROOTS];
        self.product_sums(&line, out, &mut acc[..d]);
        reduce_sums(self.p, &acc[..d], out);
    }

    // Squared, and times Y + c where the digit is 1.
    fn digit(self, c: u32, one: u32, out: &mut [u32])
        requires { (c < self.p) × (one < 2) × (length self.f.now ≡ length out.old + 1) × AllBelow self.p out.old }
        ensures { Remainder self.entry.p self.entry.f.now (times self.entry.p (power self.entry.p (plus self.entry.p c) one) (times self.entry.p (words_of self.entry.p out.old) (words_of self.entry.p out.old)))
            out.new }
    {
        self.square(out);
        if one == 1 {
            self.times_plus(c, out);
        }
    }

    // (Y + c)^n modulo f, by the binary digits of n from the highest down.
    pub fn power_of(self, c: u32, n: u32, out: &mut [u32])
        requires { (2 ≤ self.p) × (c < self.p) × (n < modulus_bound) × (length self.f.now ≡ length out.old + 1) }
        ensures { Remainder self.entry.p self.entry.f.now (power self.entry.p (plus self.entry.p c) n) out.new }
    {
        start_row(1, out);
        let mut bit = bit_above(n);
        while 1 < bit {
            bit /= 2;
            self.digit(c, n / bit % 2, out);
        }
    }

    // Y modulo f.
    fn line_of(self, out: &mut [u32])
        requires { (2 ≤ self.p) × (length self.f.now ≡ length out.old + 1) }
        ensures { Remainder self.entry.p self.entry.f.now (plus self.entry.p 0) out.new }
    {
        start_row(1, out);
        self.times_plus(0, out);
    }

    // Y^p − Y modulo f.
    pub fn frobenius_of(self, out: &mut [u32])
        requires { (2 ≤ self.p) × (length self.f.now ≡ length out.old + 1) }
        ensures { Remainder self.entry.p self.entry.f.now (frobenius self.entry.p) out.new }
    {
        let d = out.len();
        let mut y = [0u32; MOST_ROOTS];
        let mut powered = [0u32; MOST_ROOTS];
        self.line_of(&mut y[..d]);
        self.power_of(0, self.p, &mut powered[..d]);
        subtract(self.p, &powered[..d], &y[..d], out);
    }

    // Whether some power of w, d or higher, is 0 modulo f.
    fn vanishes(self, w: &mut [u32]) -> bool
        requires { Prime self.p × (length self.f.now ≡ length w.old + 1) × Remainder self.p self.f.now (frobenius self.p) w.old }
        ensures { result ≡ false → Unsplit self.entry.p self.entry.f.now }
    {
        let d = w.len();
        let mut n = 1usize;
        while n < d {
            self.square(w);
            n *= 2;
        }
        w.iter().all(|x| *x == 0)
    }

    // False only where f does not split; w is Y^p − Y modulo f. Where f splits, it divides (Y^p − Y)^d: each Y − c divides Y^p − Y, by Fermat.
    pub fn may_split(self, w: &[u32]) -> bool
        requires { Prime self.p × (length self.f.now ≡ length w.now + 1) × Remainder self.p self.f.now (frobenius self.p) w.now }
        ensures { result ≡ false → Unsplit self.entry.p self.entry.f.now }
    {
        let d = w.len();
        let mut v = [0u32; MOST_ROOTS];
        columns::copy(w, &mut v);
        self.vanishes(&mut v[..d])
    }
}
