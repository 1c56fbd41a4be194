// How often a monic polynomial over F_p splits into lines Y − c, by the number of its distinct roots. What is counted are all p^D polynomials; the words
// are had by formula: r roots are one of C(p, r) sets, and their powers one of C(D − 1, r − 1) lists with the sum D.
#![tactic(auto)]

ghost use Rattle.std.specs.Prelude.{◌≡◌, ◌+◌, ◌^◌, min, ◌≤◌, ◌<◌, length};
ghost use Rattle.numbers.specs.Words.{over};
ghost use Rattle.numbers.specs.Refusals.{judge, outcome, outcome_after, written, verdict};
ghost use Rattle.numbers.specs.internal.Limits.{modulus_bound};
ghost use Rattle.counts.specs.Counts.{subsets, count_words, most_polynomials, counts_checks};
ghost use Rattle.counts.specs.internal.Counting.{Countable};

use numbers::judge::{check_modulus, outside};
use numbers::limits::LARGEST_DEGREE;
use numbers::refusal::Refusal;

const MOST_POLYNOMIALS: u64 = 65536;

// How many monic polynomials of degree d there are, p^d; one more than are counted where these are too many, so that no product is large.
fn polynomials(p: u32, d: u32) -> u64
    requires { (1 ≤ p) × (p < modulus_bound) }
    ensures { result ≡ min (p ^ d) (most_polynomials + 1) }
{
    (p as u64).saturating_pow(d).min(MOST_POLYNOMIALS + 1)
}

// C(n, i + 1), where c is C(n, i).
fn next_subsets(n: u32, i: u32, c: u64) -> u64
    requires { (n < modulus_bound) × (c ≡ subsets n i) × (c ≤ most_polynomials) }
    ensures { result ≡ subsets n (i + 1) }
{
    if n <= i {
        0
    } else {
        c * (n - i) as u64 / (i as u64 + 1)
    }
}

// The words, at the front of `out`. Word 0 is what the others leave of p^d.
fn write_counts(p: u32, d: u32, out: &mut [u32])
    requires { Countable p d × (d < length out.old) }
    ensures { out.new ≡ over (count_words p d) out.old }
{
    let mut unsplit = polynomials(p, d);
    let mut sets: u64 = 1; // C(p, r)
    let mut powers: u64 = 1; // C(d − 1, r)
    for r in 0..d {
        sets = next_subsets(p, r, sets);
        let split = sets * powers;
        powers = next_subsets(d - 1, r, powers);
        unsplit -= split;
        out[r as usize + 1] = split as u32;
    }
    out[0] = unsplit as u32;
}

// Refusals 1, 2, 3, 24 and 10.
fn check_counts(p: u32, d: u32, room: usize) -> Result<(), Refusal>
    ensures { verdict result ≡ judge (counts_checks p d room) }
{
    check_modulus(p)?;
    if outside(1, LARGEST_DEGREE, d) {
        return Err(Refusal::Degree);
    }
    if MOST_POLYNOMIALS < polynomials(p, d) {
        return Err(Refusal::Many);
    }
    let words = d + 1;
    if room < words as usize {
        return Err(Refusal::Short(words));
    }
    Ok(())
}

// Of the monic polynomials of degree d over F_p: how many do not split, and how many split with 1, 2, .., d distinct roots, as d + 1 words at the
// front of `out`. The answer is d + 1.
pub fn counts(p: u32, d: u32, out: &mut [u32]) -> Result<u32, Refusal>
    ensures answer { outcome result ≡ outcome_after (judge (counts_checks p d (length out.old))) (d + 1) }
    ensures words { out.new ≡ written (judge (counts_checks p d (length out.old))) (over (count_words p d) out.old) out.old }
{
    check_counts(p, d, out.len())?;
    write_counts(p, d, out);
    Ok(d + 1)
}
