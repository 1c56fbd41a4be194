// The search: the distinct roots by gcd with Y^p − Y, parted by gcd with (Y + c)^((p − 1)/2) − 1 for c = 0, 1, 2, .. Nothing is promised of what is found, and
// nothing has to be: it is checked afterwards. The contracts here are for safety alone.
ghost use Rattle.std.specs.Prelude.{◌≡◌, ◌+◌, ◌≤◌, ◌<◌, length, IfSome};
ghost use Rattle.algebra.specs.Prime.{Prime};
ghost use Rattle.numbers.specs.Limits.{largest_degree, most_rows};
ghost use Rattle.numbers.specs.internal.Limits.{modulus_bound};

use columns::{copy, less, less_multiple};
use modulo::Modulus;
use numbers::judge::{first_large, outside};
use numbers::kernel::inverse_of;
use numbers::limits::{MOST_ROOTS, MOST_ROWS};

// How many steps are made before the search gives up: a root put in its place, or a try to part a piece. About every second try parts one.
const STEPS: u32 = 1024;

// The number of words up to the last that is not 0.
fn size(s: &[u32]) -> usize
    ensures { result ≤ length s.now }
{
    s.iter()
        .rposition(|word| *word != 0)
        .map_or(0, |last| last + 1)
}

// Divided by the last word.
fn make_monic(p: u32, s: &mut [u32])
    requires { Prime p × (p < modulus_bound) × (1 ≤ length s.old) }
{
    let last = s[s.len() - 1];
    if outside(1, p - 1, last) {
        return;
    }
    let w = inverse_of(p, last);
    for word in s.iter_mut() {
        *word = ((*word as u64) * (w as u64) % (p as u64)) as u32;
    }
}

// Divided in place by the monic polynomial whose lower words are g: the remainder stands below, the quotient above.
fn divide(p: u32, g: &[u32], s: &mut [u32])
    requires { (1 ≤ p) × (p < modulus_bound) }
{
    let m = g.len();
    for i in (m..s.len()).rev() {
        let q = s[i];
        less_multiple(p, q, g, &mut s[i - m..i]);
    }
}

// The remainder of the first n words of a by the first m of b, which become monic. The answer is how many words of a it has.
fn remainder(p: u32, a: &mut [u32], n: usize, b: &mut [u32], m: usize) -> usize
    requires { Prime p × (p < modulus_bound) × (n ≤ length a.old) × (m ≤ length b.old) × (1 ≤ m) × (m ≤ n) }
    ensures { result < m }
{
    make_monic(p, &mut b[..m]);
    divide(p, &b[..m - 1], &mut a[..n]);
    size(&a[..m - 1])
}

// The gcd of a and b, whose degree is lower, over the first words of a. The answer is their number.
fn gcd(p: u32, a: &mut [u32], b: &mut [u32]) -> usize
    requires { Prime p × (p < modulus_bound) }
    ensures { result ≤ length a.old }
{
    let mut n = size(a);
    let mut m = size(b);
    if n < m {
        return 0;
    }
    while 0 < m {
        n = remainder(p, a, n, b, m);
        if n < 1 {
            copy(&b[..m], a);
            return m;
        }
        m = remainder(p, b, m, a, n);
    }
    n
}

// The gcd of f and (Y + c)^((p − 1)/2) − 1, over the first words of g; h is room. The answer is their number.
fn factor(modulus: Modulus, c: u32, h: &mut [u32], g: &mut [u32]) -> usize
    requires { Prime modulus.p × (c < modulus.p) × (length modulus.f.now ≡ length h.old + 1) × (length modulus.f.now ≤ length g.old) }
    ensures { result ≤ length g.old }
{
    let p = modulus.p;
    let one = [1u32; 1];
    modulus.power_of(c, (p - 1) / 2, h);
    less_multiple(p, 1, &one, h);
    copy(modulus.f, g);
    gcd(p, g, h)
}

// The lower words of the factor whose lower words are g, and those of the quotient of f by it.
fn put_parts(p: u32, g: &[u32], f: &mut [u32], piece: &mut [u32])
    requires { (1 ≤ p) × (p < modulus_bound) × (length g.now ≤ length piece.old) × (length piece.old ≤ length f.old) }
{
    let m = g.len();
    let d = piece.len();
    divide(p, g, f);
    copy(g, piece);
    copy(&f[m..d], &mut piece[m..]);
}

// The monic polynomial with these lower words is parted, where Y + c tells some of its roots from the others. Then the lower words of both parts stand in
// place of its own, and the answer is the degree of the first.
fn part(p: u32, c: u32, piece: &mut [u32]) -> Option<usize>
    requires { Prime p × (p < modulus_bound) × (c < p) × (1 ≤ length piece.old) × (length piece.old ≤ largest_degree) }
    ensures { IfSome result (λ m. m < length piece.old) }
{
    let d = piece.len();
    if first_large(p, piece) < d {
        return None;
    }
    let mut f = [0u32; MOST_ROWS];
    let mut g = [0u32; MOST_ROWS];
    let mut h = [0u32; MOST_ROOTS];
    copy(piece, &mut f);
    f[d] = 1;
    let modulus = Modulus { p, f: &f[..d + 1] };
    let n = factor(modulus, c, &mut h[..d], &mut g);
    if n < 2 || d < n {
        return None;
    }
    put_parts(p, &g[..n - 1], &mut f[..d + 1], piece);
    Some(n - 1)
}

// The root of the linear piece at o, put in its place among the roots below, which rise.
fn put_root(p: u32, o: usize, roots: &mut [u32])
    requires { (1 ≤ p) × (p < modulus_bound) × (o < length roots.old) }
{
    let c = less(p, 0, roots[o] as u64);
    let at = roots[..o].iter().position(|root| c <= *root).unwrap_or(o);
    roots.copy_within(at..o, at + 1);
    roots[at] = c;
}

// One step. Below o stand the roots found, from o on the pieces, each one's degree in `sizes` where it begins. The answer is where the next step goes on.
fn step(p: u32, c: u32, o: usize, sizes: &mut [usize], roots: &mut [u32]) -> usize
    requires { Prime p × (p < modulus_bound) × (c < p) × (o < length roots.old) × (length roots.old ≤ largest_degree) × (length sizes.old ≡ largest_degree) }
    ensures { result ≤ length roots.old }
{
    let d = sizes[o];
    if d < 2 {
        put_root(p, o, roots);
        return o + 1;
    }
    if roots.len() - o < d {
        return o;
    }
    let Some(m) = part(p, c, &mut roots[o..o + d]) else {
        return o;
    };
    sizes[o] = m;
    sizes[o + m] = d - m;
    o
}

// From the lower words of the product of all Y − c to the roots c. The answer is how many were found.
fn part_all(p: u32, roots: &mut [u32]) -> usize
    requires { Prime p × (p < modulus_bound) × (length roots.old ≤ largest_degree) }
    ensures { result ≤ length roots.old }
{
    let mut sizes = [0usize; MOST_ROOTS];
    sizes[0] = roots.len();
    let mut o = 0;
    for steps in 0..STEPS {
        if roots.len() <= o {
            break;
        }
        o = step(p, steps % p, o, &mut sizes, roots);
    }
    o
}

// The roots of f that the search finds, over the first words of `roots`; w is Y^p − Y modulo f. The answer is their number.
pub fn candidates(p: u32, f: &[u32], w: &[u32], roots: &mut [u32]) -> usize
    requires { Prime p × (p < modulus_bound) × (length f.now ≤ most_rows) × (length w.now ≤ largest_degree) × (length roots.old ≡ largest_degree) }
    ensures { result ≤ largest_degree }
{
    let mut g = [0u32; MOST_ROWS];
    let mut h = [0u32; MOST_ROOTS];
    copy(f, &mut g);
    copy(w, &mut h);
    let n = gcd(p, &mut g, &mut h);
    if n < 2 {
        return 0;
    }
    copy(&g[..n - 1], roots);
    part_all(p, &mut roots[..n - 1])
}
