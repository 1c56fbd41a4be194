// What was found, checked: the powers of the roots by repeated division.
ghost use Rattle.std.specs.Prelude.{◌≡◌, ◌+◌, ◌≤◌, length};
ghost use Rattle.numbers.specs.Limits.{largest_degree};
ghost use Rattle.rootfinding.specs.internal.Finding.{Monic, SplitAnswer, FoundRoots};

use crate::scan::scan;
use crate::search::candidates;
use columns::copy;
use modulo::Modulus;
use numbers::judge::{first_large, rises};
use numbers::limits::MOST_ROWS;
use powers::find_powers;

// Moduli below this are scanned: that is faster there.
const SEARCHED_FROM: u32 = 256;

// Whether the listed numbers, each once and rising, with some powers give the polynomial, and then with which.
fn certify(p: u32, e: &[u32], roots: &[u32], powers: &mut [u32]) -> bool
    requires { Monic p e.now × (length roots.now ≤ length powers.old) }
    ensures { SplitAnswer p e.now roots.now result powers.new }
{
    if first_large(p, roots) < roots.len() {
        return false;
    }
    if !rises(roots) {
        return false;
    }
    let n = e.len();
    let mut rest = [0u32; MOST_ROWS];
    copy(e, &mut rest);
    find_powers(p, roots, &mut rest[..n], powers)
}

// By trying every number.
fn by_scan(p: u32, e: &[u32], roots: &mut [u32], powers: &mut [u32]) -> Option<usize>
    requires { Monic p e.now × (length roots.old ≡ largest_degree) × (length powers.old ≡ largest_degree) }
    ensures { FoundRoots p e.now result roots.new powers.new }
{
    let n = scan(p, e, roots);
    if certify(p, e, &roots[..n], powers) {
        Some(n)
    } else {
        None
    }
}

// A small p is scanned. Else the split test comes first, and then the search, whose answer is checked: what it does not find is scanned. w is room for Y^p − Y modulo e.
pub fn find_with(
    p: u32,
    e: &[u32],
    w: &mut [u32],
    roots: &mut [u32],
    powers: &mut [u32],
) -> Option<usize>
    requires { Monic p e.now × (length e.now ≡ length w.old + 1) × (length roots.old ≡ largest_degree) × (length powers.old ≡ largest_degree) }
    ensures { FoundRoots p e.now result roots.new powers.new }
{
    if p < SEARCHED_FROM {
        return by_scan(p, e, roots, powers);
    }
    let modulus = Modulus { p, f: e };
    modulus.frobenius_of(w);
    if !modulus.may_split(w) {
        return None;
    }
    let n = candidates(p, e, w, roots);
    if certify(p, e, &roots[..n], powers) {
        Some(n)
    } else {
        by_scan(p, e, roots, powers)
    }
}
