// The loops along contiguous words, with sums in 64 bits and one reduction for each coefficient. These trust their caller: they have a
// `requires`, all but `lesser`, `known_to`, `repeat` and `word_or_zero`, and are for the crates of this repository. All are proved for every modulus below 2^24.
ghost use Rattle.std.specs.Prelude.{◌≡◌, ◌*◌, ◌%◌, ◌≤◌, ◌<◌, min, length};
ghost use Rattle.algebra.specs.Prime.{Prime};
ghost use Rattle.numbers.specs.Words.{word, first_nonzero, tabulate, over};
ghost use Rattle.numbers.specs.internal.Facts.{AllBelow};
ghost use Rattle.numbers.specs.internal.Limits.{modulus_bound};
ghost use Rattle.numbers.specs.Limits.{largest_width};
ghost use Rattle.series.specs.Known.{known_to};
ghost use Rattle.series.specs.Series.{sums, differences, product, quotient};
ghost use Rattle.series.specs.Quotient.{least_power, quotient_words};
ghost use Rattle.series.specs.internal.Dot.{dot_sum};

use numbers::kernel::inverse_of;

// One pass along two rows, the second backwards, not yet reduced: at most 256 products below 2^48.
pub fn dot(g: &[u32], h: &[u32], k: usize) -> u64
    requires { (k ≤ length g.now) × (k ≤ length h.now) × (k ≤ largest_width) × AllBelow modulus_bound g.now × AllBelow modulus_bound h.now }
    ensures { result ≡ dot_sum g.now h.now k }
{
    let mut sum: u64 = 0;
    for i in 0..k {
        sum += (g[i] as u64) * (h[k - 1 - i] as u64);
    }
    sum
}

// The first i below count with word i · step other than 0, or count.
pub fn first_nonzero(s: &[u32], step: usize, count: usize) -> usize
    requires { (1 ≤ step) × (count * step ≤ length s.now) }
    ensures { result ≡ first_nonzero count (λ i. word s.now (i * step)) }
{
    for i in 0..count {
        if s[i * step] != 0 {
            return i;
        }
    }
    count
}

// The lesser of two numbers.
pub fn lesser(a: u32, b: u32) -> u32
    ensures { result ≡ min a b }
{
    a.min(b)
}

// Whether a row is known to n terms: n is from 1 to its width, and 0 stands from there on.
pub fn known_to(s: &[u32], n: u32) -> bool
    ensures { result ≡ known_to (length s.now) n (word s.now) }
{
    let known = n as usize;
    1 <= known && known <= s.len() && s[known..].iter().all(|x| *x == 0)
}

// One word, over and over.
pub fn repeat(x: u32, out: &mut [u32])
    ensures { out.new ≡ tabulate (length out.old) (λ _. x) }
{
    out.fill(x)
}

// Word t, or 0 past the end.
pub fn word_or_zero(s: &[u32], t: usize) -> u32
    ensures { result ≡ word s.now t }
{
    s.get(t).copied().unwrap_or(0)
}

// g + h, as many words as g has.
pub fn add(p: u32, g: &[u32], h: &[u32], out: &mut [u32])
    requires { (1 ≤ p) × (p < modulus_bound) × (length h.now ≡ length g.now) × (length g.now ≤ length out.old) × AllBelow p g.now × AllBelow p h.now }
    ensures { out.new ≡ over (sums p (length g.now) g.now (length g.now) h.now (length g.now)) out.old }
{
    let n = g.len();
    for t in 0..n {
        out[t] = (g[t] + h[t]) % p;
    }
}

// g − h, as many words as g has.
pub fn subtract(p: u32, g: &[u32], h: &[u32], out: &mut [u32])
    requires { (1 ≤ p) × (p < modulus_bound) × (length h.now ≡ length g.now) × (length g.now ≤ length out.old) × AllBelow p g.now × AllBelow p h.now }
    ensures { out.new ≡ over (differences p (length g.now) g.now h.now) out.old }
{
    let n = g.len();
    for t in 0..n {
        out[t] = (g[t] + (p - h[t])) % p;
    }
}

// The sums modulo p, as many as there is room for.
pub fn reduce_sums(p: u32, sums: &[u64], out: &mut [u32])
    requires { (1 ≤ p) × (p < modulus_bound) × (length out.old ≤ length sums.now) }
    ensures { out.new ≡ tabulate (length out.old) (λ i. word sums.now i % p) }
{
    let modulus = p as u64;
    for i in 0..out.len() {
        out[i] = (sums[i] % modulus) as u32;
    }
}

// g · h, as many columns as g has.
pub fn multiply(p: u32, g: &[u32], h: &[u32], out: &mut [u32])
    requires { (1 ≤ p) × (p < modulus_bound) × (length g.now ≤ largest_width) × (length h.now ≡ length g.now) × (length g.now ≤ length out.old)
        × AllBelow p g.now × AllBelow p h.now }
    ensures { out.new ≡ over (product p (length g.now) g.now (length g.now) h.now (length g.now)) out.old }
{
    let n = g.len();
    let modulus = p as u64;
    for t in 0..n {
        let sum = dot(g, h, t + 1);
        out[t] = (sum % modulus) as u32;
    }
}

// f / g, as many columns as g has; g's first word is not 0. Each column is made of those before it.
pub fn divide(p: u32, f: &[u32], g: &[u32], out: &mut [u32])
    requires { Prime p × (p < modulus_bound) × (1 ≤ length g.now) × (length g.now ≤ largest_width) × (length g.now ≤ length out.old)
        × AllBelow p f.now × AllBelow p g.now × (1 ≤ word g.now 0) }
    ensures { out.new ≡ over (quotient p (length g.now) f.now g.now) out.old }
{
    let n = g.len();
    let modulus = p as u64;
    let inverse = inverse_of(p, g[0]) as u64;
    for t in 0..n {
        let sum = dot(&g[1..], &out[..t], t);
        let a = word_or_zero(f, t) as u64;
        out[t] = ((a + (modulus - sum % modulus)) * inverse % modulus) as u32;
    }
}

// f / g, where e is the least power of X in g and f has no lower one: both are divided by X^e first, and 0 stands in the last e columns.
pub fn divide_from(p: u32, f: &[u32], g: &[u32], e: usize, out: &mut [u32])
    requires { Prime p × (p < modulus_bound) × (length f.now ≡ length g.now) × (length g.now ≤ largest_width) × (length g.now ≤ length out.old)
        × AllBelow p f.now × AllBelow p g.now × (e ≡ least_power g.now) × (e < length g.now) }
    ensures { out.new ≡ over (quotient_words p (length g.now) f.now g.now) out.old }
{
    let n = g.len();
    let known = n - e;
    divide(p, &f[e..], &g[e..], out);
    repeat(0, &mut out[known..n]);
}
