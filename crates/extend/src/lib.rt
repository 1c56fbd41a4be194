// Extending a sheet: its factors to more terms. They are worked out once, to the terms wanted: below the terms there they are compared with those
// stored, and then all are stored.
#![tactic(auto)]

ghost use Rattle.std.specs.Prelude.{◌≡◌, ◌*◌, ◌≤◌, length, OnOk};
ghost use Rattle.numbers.specs.Refusals.{outcome, verdict};
ghost use Rattle.layout.specs.Layout.{degree, width};
ghost use Rattle.front.specs.internal.Front.{Front};
ghost use Rattle.sheet.specs.internal.Stages.{Computed};
ghost use Rattle.extend.specs.Extend.{Extended, extend_verdict};

use front::rows_size;
use layout::read_header;
use numbers::judge::outside;
use numbers::refusal::Refusal;
use sheet::kernel::{factors_fit, store_rows};

// The terms to work out of a sheet that has k and can have up to n: w where it can have them, else k.
fn terms_to(k: usize, n: usize, w: usize) -> usize
    requires { k ≤ n }
    ensures low { k ≤ result }
    ensures high { result ≤ n }
    ensures is { k ≤ w → w ≤ n → result ≡ w }
{
    if k <= w {
        if w <= n {
            return w;
        }
    }
    k
}

// Refusals 13, 14 and 15. Where they pass, `rows` becomes the factors' rows to w terms.
fn check_extend(sheet: &[u32], w: u32, rows: &mut [u32]) -> Result<(), Refusal>
    requires { Front sheet.now × (length rows.old ≡ degree sheet.now * width sheet.now) }
    ensures verdict { verdict result ≡ extend_verdict sheet.now w }
    ensures rows { OnOk result (Computed sheet.now w rows.new) }
{
    let h = read_header(sheet);
    let to = terms_to(h.terms, h.reach, w as usize);
    if !factors_fit(sheet, to, rows) {
        return Err(Refusal::Spoiled);
    }
    if outside(1, h.reach as u32, w) {
        return Err(Refusal::Beyond);
    }
    if (w as usize) < h.terms {
        return Err(Refusal::Behind);
    }
    Ok(())
}

// For a sheet whose words before the factors' rows fit, with room for these rows.
fn extend_with(sheet: &mut [u32], w: u32, rows: &mut [u32]) -> Result<u32, Refusal>
    requires { Front sheet.old × (length rows.old ≡ degree sheet.old * width sheet.old) }
    ensures { Extended sheet.old w (outcome result) sheet.new }
{
    check_extend(sheet, w, rows)?;
    store_rows(w, rows, sheet);
    Ok(w)
}

// The sheet with w terms, from the terms there. The answer is w.
pub fn extend(sheet: &mut [u32], w: u32) -> Result<u32, Refusal>
    ensures { Extended sheet.old w (outcome result) sheet.new }
{
    let Some(size) = rows_size(sheet) else {
        return Err(Refusal::Spoiled);
    };
    let mut rows = [0u32; layout::FACTORS_ROOM];
    extend_with(sheet, w, &mut rows[..size])
}
