// Opening a sheet: from a polynomial to a sheet with one term, with its roots at X = 0 given, or found.
#![tactic(auto)]

ghost use Rattle.std.specs.Prelude.{[]};
ghost use Rattle.numbers.specs.Refusals.{outcome};
ghost use Rattle.sheet.specs.Sheet.{given_of};
ghost use Rattle.open.specs.Open.{Opened};
ghost use Rattle.open.specs.Find.{Found};

use numbers::limits::MOST_ROOTS;
use numbers::refusal::Refusal;
use opening::Lent;

mod opening; // the checks, and the powers of the roots by repeated division
mod writing; // the words of a fresh sheet

// The sheet of the polynomial with these known lengths and roots, over the first T words of `out`. The answer is T.
pub fn open(
    p: u32,
    d: u32,
    n: u32,
    rows: &[u32],
    lengths: &[u32],
    roots: &[u32],
    out: &mut [u32],
) -> Result<u32, Refusal>
    ensures { Opened (given_of p d n rows.now lengths.now roots.now) out.old (outcome result) out.new }
{
    let lent = Lent {
        p,
        d,
        n,
        rows,
        lengths,
        roots,
    };
    lent.check_list()?;
    let count = roots.len();
    let mut powers = [0u32; MOST_ROOTS];
    if lent.powers_of(&mut powers[..count]) {
        return lent.finish(&powers[..count], out);
    }
    Err(Refusal::Unsplit)
}

// The sheet that open would write with the list of all roots of the polynomial at X = 0, which it finds, over the first T words of `out`. The answer is T.
pub fn find(
    p: u32,
    d: u32,
    n: u32,
    rows: &[u32],
    lengths: &[u32],
    out: &mut [u32],
) -> Result<u32, Refusal>
    ensures { Found (given_of p d n rows.now lengths.now []) out.old (outcome result) out.new }
{
    let lent = Lent {
        p,
        d,
        n,
        rows,
        lengths,
        roots: &rows[..0],
    };
    lent.check_rows()?;
    let mut roots = [0u32; MOST_ROOTS];
    let mut powers = [0u32; MOST_ROOTS];
    let Some(r) = lent.roots_of(&mut roots, &mut powers) else {
        return Err(Refusal::Unsplit);
    };
    let found = Lent {
        roots: &roots[..r],
        ..lent
    };
    found.finish(&powers[..r], out)
}
