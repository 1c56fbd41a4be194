// Row polynomials modulo a prime: D + 1 rows of N words each, row j the coefficient of Y^j, in slices that the caller lends. Every
// operation answers every input, by the number of words that it writes to the front of `out` or by a refusal, and then `out` is as it was.
#![tactic(auto)]

ghost use Rattle.std.specs.Prelude.{◌≡◌, ◌+◌, ◌*◌, length};
ghost use Rattle.numbers.specs.Words.{over};
ghost use Rattle.numbers.specs.Refusals.{judge, outcome, outcome_after, written};
ghost use Rattle.series.specs.Series.{differences};
ghost use Rattle.rows.specs.Rows.{rows_checks, product_checks, shift_checks, row_sum, row_product, row_shift};

use numbers::judge::{check_inputs, check_operation};
use numbers::refusal::Refusal;

pub mod kernel; // the loops, for callers that have judged

// f + g.
pub fn sum(p: u32, d: u32, n: u32, f: &[u32], g: &[u32], out: &mut [u32]) -> Result<u32, Refusal>
    ensures answer { outcome result ≡ outcome_after (judge (rows_checks p d n f.now g.now (length out.old))) ((d + 1) * n) }
    ensures words { out.new ≡ written (judge (rows_checks p d n f.now g.now (length out.old)))
        (over (row_sum p d n f.now g.now) out.old) out.old }
{
    let rows = d as usize + 1;
    check_operation(p, n, f, rows, g, rows, rows, out.len())?;
    series::kernel::add(p, f, g, out);
    Ok((d + 1) * n)
}

// f − g.
pub fn difference(
    p: u32,
    d: u32,
    n: u32,
    f: &[u32],
    g: &[u32],
    out: &mut [u32],
) -> Result<u32, Refusal>
    ensures answer { outcome result ≡ outcome_after (judge (rows_checks p d n f.now g.now (length out.old))) ((d + 1) * n) }
    ensures words { out.new ≡ written (judge (rows_checks p d n f.now g.now (length out.old)))
        (over (differences p ((d + 1) * n) f.now g.now) out.old) out.old }
{
    let rows = d as usize + 1;
    check_operation(p, n, f, rows, g, rows, rows, out.len())?;
    series::kernel::subtract(p, f, g, out);
    Ok((d + 1) * n)
}

// f · g, f of degree bound d and g of degree bound e.
pub fn product(
    p: u32,
    d: u32,
    e: u32,
    n: u32,
    f: &[u32],
    g: &[u32],
    out: &mut [u32],
) -> Result<u32, Refusal>
    ensures answer { outcome result ≡ outcome_after (judge (product_checks p d e n f.now g.now (length out.old))) ((d + e + 1) * n) }
    ensures words { out.new ≡ written (judge (product_checks p d e n f.now g.now (length out.old)))
        (over (row_product p d e n f.now g.now) out.old) out.old }
{
    let frows = d as usize + 1;
    let grows = e as usize + 1;
    let rows = d as usize + e as usize + 1;
    check_operation(p, n, f, frows, g, grows, rows, out.len())?;
    kernel::multiply(p, f, frows, g, grows, n as usize, out);
    Ok((d + e + 1) * n)
}

// f(Y + c).
pub fn shift(p: u32, d: u32, n: u32, f: &[u32], c: u32, out: &mut [u32]) -> Result<u32, Refusal>
    ensures answer { outcome result ≡ outcome_after (judge (shift_checks p d n f.now c (length out.old))) ((d + 1) * n) }
    ensures words { out.new ≡ written (judge (shift_checks p d n f.now c (length out.old)))
        (over (row_shift p d n f.now c) out.old) out.old }
{
    let rows = d as usize + 1;
    check_inputs(p, n, f, rows, &f[..0], 0, rows)?;
    let words = (d + 1) * n;
    if p <= c {
        return Err(Refusal::Unreduced(words));
    }
    if out.len() < words as usize {
        return Err(Refusal::Short(words));
    }
    kernel::shift(p, c, f, rows, n as usize, out);
    Ok(words)
}
