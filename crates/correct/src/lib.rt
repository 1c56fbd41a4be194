// Correcting one entry of a sheet's polynomial: the entry is set, and where the terms reach its column the factors are worked out anew.
#![tactic(auto)]

ghost use Rattle.std.specs.Prelude.{◌≡◌, ◌*◌, ◌≤◌, length, OnOk};
ghost use Rattle.numbers.specs.Refusals.{outcome, verdict};
ghost use Rattle.layout.specs.Layout.{degree, width, terms, known};
ghost use Rattle.layout.specs.internal.Places.{Placed};
ghost use Rattle.front.specs.internal.Front.{Front};
ghost use Rattle.sheet.specs.internal.Stages.{SplitFits, Computed};
ghost use Rattle.correct.specs.Correct.{is_entry, correct_verdict, Corrected};

use front::rows_size;
use layout::{read_header, set_entry};
use numbers::refusal::Refusal;
use sheet::kernel::{factors_fit, store_rows, work_out};

// Whether row j, column t can be corrected.
fn is_entry(sheet: &[u32], j: u32, t: u32) -> bool
    requires { Placed sheet.now }
    ensures { result ≡ is_entry (degree sheet.now) (known sheet.now) j t }
{
    if read_header(sheet).degree <= j as usize {
        return false;
    }
    if t < 1 {
        return false;
    }
    t < layout::length_at(sheet, j as usize)
}

// Refusals 13, 20 and 6. Where they pass, `rows` becomes the factors' rows that stand there.
fn check_correct(sheet: &[u32], j: u32, t: u32, entry: u32, rows: &mut [u32]) -> Result<(), Refusal>
    requires { Front sheet.now × (length rows.old ≡ degree sheet.now * width sheet.now) }
    ensures verdict { verdict result ≡ correct_verdict sheet.now j t entry }
    ensures rows { OnOk result (Computed sheet.now (terms sheet.now) rows.new) }
{
    let h = read_header(sheet);
    if !factors_fit(sheet, h.terms, rows) {
        return Err(Refusal::Spoiled);
    }
    if !is_entry(sheet, j, t) {
        return Err(Refusal::Entry);
    }
    if h.p <= entry {
        return Err(Refusal::Unreduced(0));
    }
    Ok(())
}

// The factors' rows of a sheet with an entry in column t that is new: `rows` has them already where the terms do not reach that column.
fn work_again(sheet: &[u32], t: u32, rows: &mut [u32])
    requires { Front sheet.now × SplitFits sheet.now × (length rows.old ≡ degree sheet.now * width sheet.now)
        × (terms sheet.now ≤ t → Computed sheet.now (terms sheet.now) rows.old) }
    ensures { Computed sheet.now (terms sheet.now) rows.new }
{
    let k = read_header(sheet).terms;
    if (t as usize) < k {
        work_out(sheet, k, rows);
    }
}

// For a sheet whose words before the factors' rows fit, with room for these rows.
fn correct_with(
    sheet: &mut [u32],
    j: u32,
    t: u32,
    entry: u32,
    rows: &mut [u32],
) -> Result<u32, Refusal>
    requires { Front sheet.old × (length rows.old ≡ degree sheet.old * width sheet.old) }
    ensures { Corrected sheet.old j t entry (outcome result) sheet.new }
{
    check_correct(sheet, j, t, entry, rows)?;
    let k = read_header(sheet).terms as u32;
    set_entry(j as usize, t as usize, entry, sheet);
    work_again(sheet, t, rows);
    store_rows(k, rows, sheet);
    Ok(k)
}

// The sheet with `entry` in row j, column t of its polynomial, worked to as many terms as before. The answer is their number.
pub fn correct(sheet: &mut [u32], j: u32, t: u32, entry: u32) -> Result<u32, Refusal>
    ensures { Corrected sheet.old j t entry (outcome result) sheet.new }
{
    let Some(size) = rows_size(sheet) else {
        return Err(Refusal::Spoiled);
    };
    let mut rows = [0u32; layout::FACTORS_ROOM];
    correct_with(sheet, j, t, entry, &mut rows[..size])
}
