// The text of what is given, handing a text over, and a job's text for a program. These trust their caller: they have a `requires`, and are for the crates of this repository.
ghost use Rattle.std.specs.Prelude.{◌≡◌, ◌≤◌, length};
ghost use Rattle.numbers.specs.Words.{over};
ghost use Rattle.numbers.specs.Refusals.{accepted, outcome, outcome_after, written};
ghost use Rattle.layout.specs.Layout.{degree, width};
ghost use Rattle.sheet.specs.Sheet.{Sound, whole_of};
ghost use Rattle.job.specs.Limits.{most_degree, most_width};
ghost use Rattle.text.specs.Limits.{text_room};
ghost use Rattle.text.specs.declared.Profile.TheVariants.{Roots};
ghost use Rattle.listing.specs.internal.Writing.{OpenedJob, WroteSheet, WroteGiven};
ghost use Rattle.listing.specs.Listing.{room_verdict, Listed};

use crate::limits::{SERIES_ROOM, SHEET_ROOM};
use job::limits::ROOTS_ROOM;
use numbers::refusal::Refusal;
use series::kernel::repeat;
use simple::kernel::{check_multiple, write_roots};
use text::Profile;

// The sheet of a job, whose rows are all known to N; roots that are not listed are found.
fn open_known(
    p: u32,
    d: u32,
    n: u32,
    rows: &[u32],
    roots: &[u32],
    sheet: &mut [u32],
) -> Result<u32, Refusal>
    requires { d ≤ most_degree }
    ensures { OpenedJob (whole_of p d n rows.now roots.now) sheet.old (outcome result) sheet.new }
{
    let size = d as usize;
    let mut lengths = [0u32; ROOTS_ROOM];
    repeat(n, &mut lengths[..size]);
    if roots.len() < 1 {
        return open::find(p, d, n, rows, &lengths[..size], sheet);
    }
    open::open(p, d, n, rows, &lengths[..size], roots, sheet)
}

// The text of a sheet's roots: refusal 22, or their series.
fn write_series(sheet: &[u32], out: &mut [u8]) -> usize
    requires { Sound sheet.now × (degree sheet.now ≤ most_degree) × (width sheet.now ≤ most_width) × (text_room ≤ length out.old) }
    ensures { WroteSheet Roots sheet.now out.old result out.new }
{
    if let Err(r) = check_multiple(sheet) {
        return text::put_refused(r, out);
    }
    let h = layout::read_header(sheet);
    let words = h.count * h.width;
    let mut series = [0u32; SERIES_ROOM];
    write_roots(sheet, &mut series[..words]);
    text::put_roots(sheet, &series[..words], out)
}

// The text of a sheet.
fn write_sheet(profile: Profile, sheet: &[u32], out: &mut [u8]) -> usize
    requires { Sound sheet.now × (degree sheet.now ≤ most_degree) × (width sheet.now ≤ most_width) × (text_room ≤ length out.old) }
    ensures { WroteSheet profile sheet.now out.old result out.new }
{
    match profile {
        Profile::Factors => text::put_listing(sheet, out),
        Profile::Roots => write_series(sheet, out),
    }
}

// The text of what is given.
pub fn write_given(
    profile: Profile,
    p: u32,
    d: u32,
    n: u32,
    rows: &[u32],
    roots: &[u32],
    out: &mut [u8],
) -> usize
    requires { (d ≤ most_degree) × (n ≤ most_width) × (text_room ≤ length out.old) }
    ensures { WroteGiven profile (whole_of p d n rows.now roots.now) out.old result out.new }
{
    let mut sheet = [0u32; SHEET_ROOM];
    if let Err(r) = open_known(p, d, n, rows, roots, &mut sheet) {
        return text::put_refused(r, out);
    }
    let _ = extend::extend(&mut sheet, n);
    write_sheet(profile, &sheet, out)
}

// A text, if `out` has room for all of it.
pub fn hand_over(text: &[u8], out: &mut [u8]) -> Result<u32, Refusal>
    requires { length text.now ≤ text_room }
    ensures answer { outcome result ≡ outcome_after (room_verdict text.now out.old) (length text.now) }
    ensures bytes { out.new ≡ written (room_verdict text.now out.old) (over text.now out.old) out.old }
{
    let long = text.len() as u32;
    if out.len() < text.len() {
        return Err(Refusal::Short(long));
    }
    text::put(text, 0, out);
    Ok(long)
}

// What a job comes to, in a buffer that has room for every text, and how long it is.
pub fn reply(profile: Profile, job: &[u8], text: &mut [u8]) -> usize
    requires { text_room ≤ length text.old }
    ensures { Listed profile job.now text.old (accepted result) text.new }
{
    match crate::list_as(profile, job, text) {
        Ok(long) => long as usize,
        Err(_) => 0,
    }
}
