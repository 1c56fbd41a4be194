// The least divisor above 1, and inverses modulo a prime. These trust their caller: they have a `requires`, and are for the crates
// of this repository.
ghost use Rattle.std.specs.Prelude.{◌≡◌, true, ◌*◌, ◌≤◌, ◌<◌, ◌%◌};
ghost use Rattle.algebra.specs.Prime.{Prime};
ghost use Rattle.numbers.specs.Divisor.{least_divisor, inverse_of};
ghost use Rattle.numbers.specs.internal.Limits.{modulus_bound, table_bound, low_bound};
ghost use Rattle.numbers.specs.internal.Primes.{primes_between, first_among, in_table};

use crate::primes::{HIGH_PRIMES, LOW_MODULI, LOW_PRIMES};

// The first of these numbers that divides p, or p. None is tried from the first on whose square is past p.
fn first_among(p: u32, primes: &[u16]) -> u32
    requires { in_table primes.now ≡ true }
    ensures { result ≡ first_among p primes.now }
{
    let mut i = 0;
    loop {
        if i == primes.len() {
            break p;
        }
        let q = primes[i] as u32;
        if p < q * q {
            break p;
        }
        if p % q == 0 {
            break q;
        }
        i += 1;
    }
}

// Among the primes below 256.
fn first_low(p: u32) -> u32
    ensures { result ≡ first_among p (primes_between 2 low_bound) }
{
    first_among(p, &LOW_PRIMES)
}

// Among the primes from 256 up to 4,096. It is a function of its own so that this part of the table is laid out only where it is needed.
fn first_high(p: u32) -> u32
    ensures { result ≡ first_among p (primes_between low_bound table_bound) }
{
    first_among(p, &HIGH_PRIMES)
}

// The first prime that divides p is the least divisor; where none up to the root does, p itself is.
pub fn least_divisor(p: u32) -> u32
    requires { (2 ≤ p) × (p < modulus_bound) }
    ensures { result ≡ least_divisor p }
{
    let d = first_low(p);
    if d < p {
        return d;
    }
    if p < LOW_MODULI {
        return d;
    }
    first_high(p)
}

// The inverse of a modulo the prime p. With p = q * m + r, r is -q times m: so m falls to 1, while c * a stays m modulo p.
pub fn inverse_of(p: u32, a: u32) -> u32
    requires { (1 ≤ a) × (a < p) × (p < modulus_bound) × Prime p }
    ensures { result ≡ inverse_of p a }
{
    let modulus = p as u64;
    let mut m = a as u64;
    let mut c: u64 = 1;
    while 1 < m {
        c = c * (modulus - modulus / m) % modulus;
        m = modulus % m;
    }
    c as u32
}
