// The roots of a monic polynomial over F_p, with their powers. These trust their caller: they have a `requires`, and are for the crates of this repository.
#![tactic(auto)]

mod finding; // what was found, checked
mod scan; // the roots by trying every number
mod search; // the roots by gcd, unchecked

ghost use Rattle.std.specs.Prelude.{◌≡◌, length};
ghost use Rattle.numbers.specs.Limits.{largest_degree};
ghost use Rattle.rootfinding.specs.internal.Finding.{Monic, FoundRoots};

use finding::find_with;
use numbers::limits::MOST_ROOTS;

// All roots of the monic polynomial in e, rising, over the first words of `roots`, and their powers over the first of `powers`. The answer is their number; there is none
// exactly where the polynomial is no product of powers of Y minus a number.
pub fn find_roots(p: u32, e: &[u32], roots: &mut [u32], powers: &mut [u32]) -> Option<usize>
    requires { Monic p e.now × (length roots.old ≡ largest_degree) × (length powers.old ≡ largest_degree) }
    ensures { FoundRoots p e.now result roots.new powers.new }
{
    let d = e.len() - 1;
    let mut w = [0u32; MOST_ROOTS];
    find_with(p, e, &mut w[..d], roots, powers)
}
