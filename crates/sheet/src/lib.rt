// The factor sheet: a polynomial, its roots at X = 0 with their powers, and its Hensel factors to k terms, in words that leave the house and come
// back. Every call judges the words that it is lent; a refusal changes none.
#![tactic(auto)]

ghost use Rattle.std.specs.Prelude.{◌≡◌, ◌<◌, length};
ghost use Rattle.numbers.specs.Words.{over};
ghost use Rattle.numbers.specs.Refusals.{judge, outcome, outcome_after, written, verdict};
ghost use Rattle.layout.specs.Layout.{count};
ghost use Rattle.sheet.specs.Sheet.{Sound};
ghost use Rattle.sheet.specs.Test.{sound_test};
ghost use Rattle.sheet.specs.Reading.{read_verdict, read_factor, read_part, times_checks, times_size, times_words, shifted_checks, shifted_size, shifted_words};
ghost use Rattle.sheet.specs.internal.Shape.{factor_shape};

use front::rows_size;
use numbers::refusal::Refusal;

pub mod kernel; // the factors worked out, for callers that have judged

// A factor's root at X = 0 and its power, which is its degree.
#[derive(Clone, Copy)]
pub struct Factor {
    pub root: u32,
    pub power: u32,
}

// Whether the slice begins with a sound sheet.
pub fn test(sheet: &[u32]) -> bool
    ensures { result ≡ sound_test sheet.now }
{
    let Some(size) = rows_size(sheet) else {
        return false;
    };
    let k = layout::read_header(sheet).terms;
    let mut rows = [0u32; layout::FACTORS_ROOM];
    kernel::factors_fit(sheet, k, &mut rows[..size])
}

// Refusals 13 and 16, which every way to read a factor begins with.
pub fn check_read(sheet: &[u32], i: u32) -> Result<(), Refusal>
    ensures { verdict result ≡ read_verdict sheet.now i }
{
    if !test(sheet) {
        return Err(Refusal::Spoiled);
    }
    let h = layout::read_header(sheet);
    if h.count <= i as usize {
        return Err(Refusal::NoFactor);
    }
    Ok(())
}

// Factor i, counted from 0.
pub fn read_factor(sheet: &[u32], i: u32) -> Result<Factor, Refusal>
    ensures { outcome result ≡ outcome_after (read_verdict sheet.now i) (read_factor sheet.now i) }
{
    check_read(sheet, i)?;
    let at = i as usize;
    Ok(Factor {
        root: layout::root_at(sheet, at),
        power: layout::power_at(sheet, at),
    })
}

// The part of the sheet that holds the rows of factor i; nothing where `read_factor` refuses.
pub fn factor_rows(sheet: &[u32], i: u32) -> &[u32]
    ensures { result.now ≡ read_part (read_verdict sheet.now i) sheet.now i }
{
    if check_read(sheet, i).is_err() {
        return &sheet[..0];
    }
    layout::factor_part(sheet, i as usize)
}

// What a row operation is given with the rows of a factor, but for the rows: modulus, degree bound and width.
#[derive(Clone, Copy)]
struct Shape {
    p: u32,
    bound: u32,
    width: u32,
}

// The leading 1 is not among the rows, so the bound is one below the power.
fn factor_shape(sheet: &[u32], i: usize) -> Shape
    requires { Sound sheet.now × (i < count sheet.now) }
    ensures { result ≡ factor_shape sheet.now i }
{
    let h = layout::read_header(sheet);
    let power = layout::power_at(sheet, i);
    Shape {
        p: h.p,
        bound: power - 1,
        width: h.width as u32,
    }
}

// The rows of factor i, times g, of degree bound e.
pub fn factor_times(
    sheet: &[u32],
    i: u32,
    e: u32,
    g: &[u32],
    out: &mut [u32],
) -> Result<u32, Refusal>
    ensures answer { outcome result ≡ outcome_after (judge (times_checks sheet.now i e g.now (length out.old))) (times_size sheet.now i e) }
    ensures words { out.new ≡ written (judge (times_checks sheet.now i e g.now (length out.old)))
        (over (times_words sheet.now i e g.now) out.old) out.old }
{
    check_read(sheet, i)?;
    let at = i as usize;
    let f = factor_shape(sheet, at);
    let part = layout::factor_part(sheet, at);
    rows::product(f.p, f.bound, e, f.width, part, g, out)
}

// The rows of factor i, at Y + c.
pub fn factor_shift(sheet: &[u32], i: u32, c: u32, out: &mut [u32]) -> Result<u32, Refusal>
    ensures answer { outcome result ≡ outcome_after (judge (shifted_checks sheet.now i c (length out.old))) (shifted_size sheet.now i) }
    ensures words { out.new ≡ written (judge (shifted_checks sheet.now i c (length out.old)))
        (over (shifted_words sheet.now i c) out.old) out.old }
{
    check_read(sheet, i)?;
    let at = i as usize;
    let f = factor_shape(sheet, at);
    let part = layout::factor_part(sheet, at);
    rows::shift(f.p, f.bound, f.width, part, c, out)
}
