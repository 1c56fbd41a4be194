// Reading a factor: root, power, and where its rows stand in the sheet.
ghost use Rattle.std.specs.Prelude.{◌≡◌, ◌≤◌, ◌<◌, length};
ghost use Rattle.numbers.specs.Words.{over};
ghost use Rattle.numbers.specs.Refusals.{judge, verdict};
ghost use Rattle.layout.specs.Layout.{count};
ghost use Rattle.sheet.specs.Sheet.{Sound};
ghost use Rattle.capi.specs.Factor.{factor_checks, factor_words};

use numbers::refusal::Refusal;

// Refusals 10, 13 and 16.
pub fn check_factor(sheet: &[u32], i: u32, room: usize) -> Result<(), Refusal>
    ensures { verdict result ≡ judge (factor_checks sheet.now i room) }
{
    if room < 4 {
        return Err(Refusal::Short(4));
    }
    sheet::check_read(sheet, i)
}

// Root, power, and start and length of the rows.
pub fn put_factor(sheet: &[u32], i: u32, out: &mut [u32])
    requires { Sound sheet.now × (i < count sheet.now) × (4 ≤ length out.old) }
    ensures { out.new ≡ over (factor_words sheet.now i) out.old }
{
    let at = i as usize;
    let h = layout::read_header(sheet);
    let root = layout::root_at(sheet, at);
    let power = layout::power_at(sheet, at);
    let start = layout::factor_from(sheet, at) as u32;
    out[0] = root;
    out[1] = power;
    out[2] = start;
    out[3] = power * h.width as u32;
}
