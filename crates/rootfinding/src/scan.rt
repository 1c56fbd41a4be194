// The roots by trying every number below p.
ghost use Rattle.std.specs.Prelude.{◌≡◌, true, ◌≤◌, ◌<◌, length, take};
ghost use Rattle.numbers.specs.Limits.{largest_degree};
ghost use Rattle.numbers.specs.internal.Limits.{modulus_bound};
ghost use Rattle.rootfinding.specs.Roots.{is_root, all_roots};
ghost use Rattle.rootfinding.specs.internal.Finding.{Monic, Kept};

use powers::value;

// c as word n, where it is a root. The answer is the number of words then.
fn keep(p: u32, e: &[u32], c: u32, n: usize, roots: &mut [u32]) -> usize
    requires { (1 ≤ p) × (p < modulus_bound) × (c < p) × (is_root p e.now c ≡ true → n < length roots.old) }
    ensures { Kept (is_root p e.now c) c n roots.old result roots.new }
{
    if value(p, c, e) != 0 {
        return n;
    }
    roots[n] = c;
    n + 1
}

// All roots, over the first words of `roots`. The answer is their number.
pub fn scan(p: u32, e: &[u32], roots: &mut [u32]) -> usize
    requires { Monic p e.now × (length roots.old ≡ largest_degree) }
    ensures { (result ≤ length roots.old) × (take result roots.new ≡ all_roots p e.now) }
{
    let mut n = 0;
    for c in 0..p {
        n = keep(p, e, c, n, roots);
    }
    n
}
