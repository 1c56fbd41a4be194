// Series modulo a prime: N words each, in slices that the caller lends. Every operation answers every input: it writes N words to the front of
// `out` and answers N, but for the quotient, which answers how many of them are known; or it refuses, and then `out` is as it was.
#![tactic(auto)]

ghost use Rattle.std.specs.Prelude.{◌≡◌, [], ◌∷◌, length};
ghost use Rattle.numbers.specs.Words.{over};
ghost use Rattle.numbers.specs.Refusals.{judge, outcome, outcome_after, written, verdict};
ghost use Rattle.series.specs.Series.{series_checks, known_checks, inverse_checks, sums, differences, product, quotient};
ghost use Rattle.series.specs.Quotient.{least_power, Divided};

use numbers::judge::{check_inputs, check_operation};
use numbers::refusal::Refusal;

pub mod kernel; // the loops, for callers that have judged

// Refusals 1 to 6, 21 and 10 for operands of which so many terms are known.
fn check_known(
    p: u32,
    n: u32,
    g: &[u32],
    gknown: u32,
    h: &[u32],
    hknown: u32,
    room: usize,
) -> Result<(), Refusal>
    ensures { verdict result ≡ judge (known_checks p n g.now gknown h.now hknown room) }
{
    check_inputs(p, n, g, 1, h, 1, 1)?;
    if !kernel::known_to(g, gknown) {
        return Err(Refusal::KnownTerms);
    }
    if !kernel::known_to(h, hknown) {
        return Err(Refusal::KnownTerms);
    }
    if room < n as usize {
        return Err(Refusal::Short(n));
    }
    Ok(())
}

// g + h. The terms known in both are those of the sum, and 0 stands after them.
pub fn sum(
    p: u32,
    n: u32,
    g: &[u32],
    gknown: u32,
    h: &[u32],
    hknown: u32,
    out: &mut [u32],
) -> Result<u32, Refusal>
    ensures answer { outcome result ≡ outcome_after (judge (known_checks p n g.now gknown h.now hknown (length out.old))) n }
    ensures words { out.new ≡ written (judge (known_checks p n g.now gknown h.now hknown (length out.old)))
        (over (sums p n g.now gknown h.now hknown) out.old) out.old }
{
    check_known(p, n, g, gknown, h, hknown, out.len())?;
    let known = kernel::lesser(gknown, hknown) as usize;
    kernel::add(p, &g[..known], &h[..known], out);
    kernel::repeat(0, &mut out[known..g.len()]);
    Ok(n)
}

// g − h.
pub fn difference(p: u32, n: u32, g: &[u32], h: &[u32], out: &mut [u32]) -> Result<u32, Refusal>
    ensures answer { outcome result ≡ outcome_after (judge (series_checks p n g.now h.now (length out.old))) n }
    ensures words { out.new ≡ written (judge (series_checks p n g.now h.now (length out.old)))
        (over (differences p n g.now h.now) out.old) out.old }
{
    check_operation(p, n, g, 1, h, 1, 1, out.len())?;
    kernel::subtract(p, g, h, out);
    Ok(n)
}

// g · h. The terms known in both are those of the product, and 0 stands after them.
pub fn product(
    p: u32,
    n: u32,
    g: &[u32],
    gknown: u32,
    h: &[u32],
    hknown: u32,
    out: &mut [u32],
) -> Result<u32, Refusal>
    ensures answer { outcome result ≡ outcome_after (judge (known_checks p n g.now gknown h.now hknown (length out.old))) n }
    ensures words { out.new ≡ written (judge (known_checks p n g.now gknown h.now hknown (length out.old)))
        (over (product p n g.now gknown h.now hknown) out.old) out.old }
{
    check_known(p, n, g, gknown, h, hknown, out.len())?;
    let known = kernel::lesser(gknown, hknown) as usize;
    kernel::multiply(p, &g[..known], &h[..known], out);
    kernel::repeat(0, &mut out[known..g.len()]);
    Ok(n)
}

// The least power of X in s, or its length where s is 0.
fn least_power(s: &[u32]) -> usize
    ensures { result ≡ least_power s.now }
{
    kernel::first_nonzero(s, 1, s.len())
}

// f / g. The divisor may begin with zeros, e of them, if it is not 0 and f begins with as many: both are divided by X^e first. The answer is the number of
// terms that are then known, N − e; 0 stands after them. The contract allows one outcome only: `divided-one` in proofs/DividedLaws.
pub fn quotient(p: u32, n: u32, f: &[u32], g: &[u32], out: &mut [u32]) -> Result<u32, Refusal>
    ensures { Divided p n f.now g.now out.old (outcome result) out.new }
{
    check_operation(p, n, f, 1, g, 1, 1, out.len())?;
    let e = least_power(g);
    if e == g.len() {
        return Err(Refusal::NoUnit); // g is 0
    }
    if least_power(f) < e {
        return Err(Refusal::NoUnit);
    }
    kernel::divide_from(p, f, g, e, out);
    Ok((g.len() - e) as u32)
}

// 1 / g.
pub fn inverse(p: u32, n: u32, g: &[u32], out: &mut [u32]) -> Result<u32, Refusal>
    ensures answer { outcome result ≡ outcome_after (judge (inverse_checks p n g.now (length out.old))) n }
    ensures words { out.new ≡ written (judge (inverse_checks p n g.now (length out.old)))
        (over (quotient p n (1 ∷ []) g.now) out.old) out.old }
{
    check_operation(p, n, g, 1, &g[..0], 0, 1, out.len())?;
    if g[0] == 0 {
        return Err(Refusal::NoUnit);
    }
    kernel::divide(p, &[1], g, out);
    Ok(n)
}
