// Sheets whose roots all have power 1: each root goes on to one series s with f(s) = 0.
#![tactic(auto)]

ghost use Rattle.std.specs.Prelude.{◌≡◌, length};
ghost use Rattle.numbers.specs.Refusals.{outcome, verdict};
ghost use Rattle.simple.specs.Simple.{simple_verdict, SimpleRoots};

use crate::kernel::{check_multiple, write_roots};
use layout::read_header;
use numbers::refusal::Refusal;

pub mod kernel; // refusal 22, and the series of a sound sheet

// Refusals 13, 22 and 10.
fn check_simple(sheet: &[u32], room: usize) -> Result<(), Refusal>
    ensures { verdict result ≡ simple_verdict sheet.now room }
{
    if !sheet::test(sheet) {
        return Err(Refusal::Spoiled);
    }
    check_multiple(sheet)?;
    let h = read_header(sheet);
    let words = h.count * h.width;
    if room < words {
        return Err(Refusal::Short(words as u32));
    }
    Ok(())
}

// The series of each root, a row of N words for each, in rising order of the root. The answer is r · N.
pub fn simple_roots(sheet: &[u32], out: &mut [u32]) -> Result<u32, Refusal>
    ensures { SimpleRoots sheet.now out.old (outcome result) out.new }
{
    check_simple(sheet, out.len())?;
    let h = read_header(sheet);
    let words = h.count * h.width;
    write_roots(sheet, &mut out[..words]);
    Ok(words as u32)
}
