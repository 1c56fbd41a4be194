// The words of a fresh sheet that say where its other words stand: the header, and the roots with their powers.
ghost use Rattle.std.specs.Prelude.{◌≡◌, ◌*◌, ◌≤◌, length};
ghost use Rattle.numbers.specs.Words.{over};
ghost use Rattle.numbers.specs.Limits.{largest_degree, largest_width};
ghost use Rattle.rows.specs.Rows.{table};
ghost use Rattle.layout.specs.Layout.{lengths_from, header_of};
ghost use Rattle.layout.specs.internal.Places.{root_table};

use crate::{factors_from, polynomial_from, roots_from, total_of};

// The header. Nothing stands between the factors and the end, so words 8 and 9 are both T.
pub fn write_header(p: u32, d: u32, n: u32, terms: u32, r: usize, reach: u32, out: &mut [u32])
    requires { (d ≤ largest_degree) × (n ≤ largest_width) × (r ≤ largest_degree) × (lengths_from ≤ length out.old) }
    ensures { out.new ≡ over (header_of p d n terms r reach) out.old }
{
    let roots = roots_from(d as usize) as u32;
    let polynomial = polynomial_from(d as usize, r) as u32;
    let factors = factors_from(d as usize, n as usize, r) as u32;
    let total = total_of(d as usize, n as usize, r) as u32;
    out[0] = p;
    out[1] = d;
    out[2] = n;
    out[3] = terms;
    out[4] = r as u32;
    out[5] = roots;
    out[6] = polynomial;
    out[7] = factors;
    out[8] = total;
    out[9] = total;
    out[10] = reach;
}

// The roots, each with its power.
pub fn write_roots(roots: &[u32], powers: &[u32], out: &mut [u32])
    requires { (length powers.now ≡ length roots.now) × (length roots.now ≤ largest_degree) × (length out.old ≡ length roots.now * 2) }
    ensures { out.new ≡ table (length roots.now) 2 (root_table roots.now powers.now) }
{
    for i in 0..roots.len() {
        out[2 * i] = roots[i];
        out[2 * i + 1] = powers[i];
    }
}
