// The series of a sound sheet. These trust their caller: they have a `requires`, and are for the crates of this repository.
ghost use Rattle.std.specs.Prelude.{◌≡◌, ◌*◌, ◌≤◌, length};
ghost use Rattle.numbers.specs.Refusals.{verdict};
ghost use Rattle.numbers.specs.internal.Facts.{AllBelow};
ghost use Rattle.layout.specs.Layout.{width, count};
ghost use Rattle.sheet.specs.Sheet.{Sound};
ghost use Rattle.simple.specs.Simple.{SeriesRoots, first_multiple};
ghost use Rattle.simple.specs.internal.Factors.{multiple_verdict, AllSimple, negated};

use layout::{power_at, read_header, root_at};
use numbers::refusal::Refusal;

// The place of the first root of power above 1, or r.
fn first_multiple(sheet: &[u32]) -> usize
    requires { Sound sheet.now }
    ensures { result ≡ first_multiple sheet.now }
{
    let h = read_header(sheet);
    (0..h.count)
        .find(|i| 1 < power_at(sheet, *i))
        .unwrap_or(h.count)
}

// Refusal 22.
pub fn check_multiple(sheet: &[u32]) -> Result<(), Refusal>
    requires { Sound sheet.now }
    ensures { verdict result ≡ multiple_verdict sheet.now }
{
    let h = read_header(sheet);
    let i = first_multiple(sheet);
    if i < h.count {
        return Err(Refusal::MultipleRoot(root_at(sheet, i)));
    }
    Ok(())
}

// Minus the words, modulo p.
fn negate(p: u32, words: &[u32], out: &mut [u32])
    requires { (1 ≤ p) × AllBelow p words.now × (length out.old ≡ length words.now) }
    ensures { out.new ≡ negated p words.now }
{
    for i in 0..words.len() {
        out[i] = (p - words[i]) % p;
    }
}

// The series of all roots: where every power is 1, factor i is Y − s for the series s of root i, so s is minus its one lower row.
pub fn write_roots(sheet: &[u32], out: &mut [u32])
    requires { Sound sheet.now × AllSimple sheet.now × (length out.old ≡ count sheet.now * width sheet.now) }
    ensures { SeriesRoots sheet.now out.new }
{
    let h = read_header(sheet);
    negate(h.p, layout::factors_part(sheet), out);
}
