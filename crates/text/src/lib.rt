// Putting the listing's text into a buffer, piece after piece: each function is given the place to begin at and answers the place after what it put.
#![tactic(auto)]

ghost use Rattle.std.specs.Prelude.{◌++◌, ◌+◌, ◌*◌, ◌≤◌, ◌<◌, length};
ghost use Rattle.numbers.specs.Limits.{largest_modulus};
ghost use Rattle.numbers.specs.Refusals.{number, detail};
ghost use Rattle.numbers.specs.internal.Facts.{AllBelow};
ghost use Rattle.signed.specs.Signed.{signed_of};
ghost use Rattle.layout.specs.Layout.{rows_at, lengths_from, modulus, degree, width, terms, count, power};
ghost use Rattle.job.specs.Limits.{most_degree, most_width};
ghost use Rattle.text.specs.Limits.{text_room};
ghost use Rattle.text.specs.internal.Rooms.{refusal_room, head_room, root_room, row_room, factors_room};
ghost use Rattle.text.specs.Decimal.{digits};
ghost use Rattle.text.specs.internal.Putting.{Puts, Entries, Listable};
ghost use Rattle.text.specs.Text.{signed_text, number_text, more_numbers, join_to, row_name, row_line, row_lines, root_line, head_line, factor_text, listing_text, roots_text, refused_text};

use numbers::refusal::Refusal;

// What a listing shows of a sheet: its factors, or its roots as series.
#[derive(Clone, Copy)]
pub enum Profile {
    Factors,
    Roots,
}

// A byte string.
pub fn put(bytes: &[u8], at: usize, out: &mut [u8]) -> usize
    requires { at + length bytes.now ≤ length out.old }
    ensures { Puts (length bytes.now) bytes.now at out.old result out.new }
{
    let end = at + bytes.len();
    out[at..end].copy_from_slice(bytes);
    end
}

// A number has at most ten digits. They are found from the last one on, so they are put down in their order only once all are there.
pub fn put_decimal(v: u32, at: usize, out: &mut [u8]) -> usize
    requires { at + 10 ≤ length out.old }
    ensures { Puts 10 (digits v) at out.old result out.new }
{
    let mut found = [0u8; 10];
    let mut first: usize = 10;
    let mut rest = v;
    while rest >= 10 {
        first -= 1;
        found[first] = (48 + rest % 10) as u8;
        rest /= 10;
    }
    first -= 1;
    found[first] = (48 + rest) as u8;
    put(&found[first..], at, out)
}

// A name, and a number after it.
fn put_named(name: &[u8], v: u32, at: usize, out: &mut [u8]) -> usize
    requires { at + (length name.now + 10) ≤ length out.old }
    ensures { Puts (length name.now + 10) (name.now ++ digits v) at out.old result out.new }
{
    let after_name = put(name, at, out);
    put_decimal(v, after_name, out)
}

// An entry v as its signed number: no longer than an unsigned one, since it has fewer digits than ten.
fn put_signed(p: u32, v: u32, at: usize, out: &mut [u8]) -> usize
    requires { (v < p) × (p ≤ largest_modulus) × (at + 11 ≤ length out.old) }
    ensures { Puts 10 (signed_text (signed_of p v)) at out.old result out.new }
{
    let x = signed::representative(p, v);
    if x < 0 {
        let after_minus = put(b"-", at, out);
        put_decimal((-x) as u32, after_minus, out)
    } else {
        put_decimal(x as u32, at, out)
    }
}

// An entry v.
fn put_number(profile: Profile, p: u32, v: u32, at: usize, out: &mut [u8]) -> usize
    requires { (v < p) × (p ≤ largest_modulus) × (at + 11 ≤ length out.old) }
    ensures { Puts 10 (number_text profile p v) at out.old result out.new }
{
    match profile {
        Profile::Factors => put_decimal(v, at, out),
        Profile::Roots => put_signed(p, v, at, out),
    }
}

// Entries, each after a blank. A byte more than they fill is asked for: after a sign `put_decimal` still wants room for ten digits.
fn put_more(profile: Profile, p: u32, words: &[u32], at: usize, out: &mut [u8]) -> usize
    requires { AllBelow p words.now × (p ≤ largest_modulus) × (at + (11 * length words.now + 1) ≤ length out.old) }
    ensures { Puts (11 * length words.now) (more_numbers profile p words.now) at out.old result out.new }
{
    let mut place = at;
    for v in words {
        let after_blank = put(b" ", place, out);
        place = put_number(profile, p, *v, after_blank, out);
    }
    place
}

// What the line of row j begins with.
fn put_name(profile: Profile, j: u32, at: usize, out: &mut [u8]) -> usize
    requires { at + 13 ≤ length out.old }
    ensures { Puts 13 (row_name profile j) at out.old result out.new }
{
    match profile {
        Profile::Factors => {
            let after_power = put_named(b"Y^", j, at, out);
            put(b":", after_power, out)
        }
        Profile::Roots => put(b"Y =", at, out),
    }
}

// The line of row j.
fn put_row(profile: Profile, p: u32, j: u32, row: &[u32], at: usize, out: &mut [u8]) -> usize
    requires { AllBelow p row.now × (p ≤ largest_modulus) × (at + (15 + 11 * length row.now) ≤ length out.old) }
    ensures { Puts (15 + 11 * length row.now) (row_line profile p j row.now) at out.old result out.new }
{
    let after_name = put_name(profile, j, at, out);
    let after_row = put_more(profile, p, row, after_name, out);
    put(b"\n", after_row, out)
}

// A factor's first line.
fn put_root(root: u32, power: u32, at: usize, out: &mut [u8]) -> usize
    requires { at + root_room ≤ length out.old }
    ensures { Puts root_room (root_line root power) at out.old result out.new }
{
    let after_root = put_named(b"root ", root, at, out);
    let after_power = put_named(b" power ", power, after_root, out);
    put(b"\n", after_power, out)
}

// Line 1 of a sheet's listing.
fn put_head(sheet: &[u32], out: &mut [u8]) -> usize
    requires { (lengths_from ≤ length sheet.now) × (head_room ≤ length out.old) }
    ensures { Puts head_room (head_line (modulus sheet.now) (terms sheet.now) (degree sheet.now) (count sheet.now)) 0 out.old result out.new }
{
    let h = layout::read_header(sheet);
    let after_mod = put_named(b"mod ", h.p, 0, out);
    let after_terms = put_named(b" terms ", h.terms as u32, after_mod, out);
    let after_degree = put_named(b" degree ", h.degree as u32, after_terms, out);
    let after_count = put_named(b" factors ", h.count as u32, after_degree, out);
    put(b"\n", after_count, out)
}

// The line of a refusal.
pub fn put_refusal(number: u32, detail: u32, out: &mut [u8]) -> usize
    requires { refusal_room ≤ length out.old }
    ensures { Puts refusal_room (refused_text number detail) 0 out.old result out.new }
{
    let after_number = put_named(b"refused ", number, 0, out);
    let after_detail = put_named(b" ", detail, after_number, out);
    put(b"\n", after_detail, out)
}

// The same of a refusal by its name.
pub fn put_refused(refusal: Refusal, out: &mut [u8]) -> usize
    requires { refusal_room ≤ length out.old }
    ensures { Puts refusal_room (refused_text (number refusal) (detail refusal)) 0 out.old result out.new }
{
    put_refusal(refusal.number(), refusal.detail(), out)
}

// The lines of m rows of n words, which stand in `words` from word `from` on.
fn put_rows(
    profile: Profile,
    p: u32,
    words: &[u32],
    from: usize,
    n: usize,
    m: usize,
    at: usize,
    out: &mut [u8],
) -> usize
    requires { Entries p words.now from n m × (n ≤ most_width) × (m ≤ most_degree) × (from + m * n ≤ length words.now) × (at + row_room * m ≤ length out.old) }
    ensures { Puts (row_room * m) (row_lines profile p n m (rows_at words.now from n)) at out.old result out.new }
{
    let mut place = at;
    for j in 0..m {
        let start = from + j * n;
        let end = start + n;
        place = put_row(profile, p, j as u32, &words[start..end], place, out);
    }
    place
}

// The lines of factor i.
fn put_factor(sheet: &[u32], i: usize, at: usize, out: &mut [u8]) -> usize
    requires { Listable sheet.now × (i < count sheet.now) × (at + (root_room + row_room * power sheet.now i) ≤ length out.old) }
    ensures { Puts (root_room + row_room * power sheet.now i) (factor_text sheet.now i) at out.old result out.new }
{
    let h = layout::read_header(sheet);
    let power = layout::power_at(sheet, i);
    let from = layout::factor_from(sheet, i);
    let after_root = put_root(layout::root_at(sheet, i), power, at, out);
    put_rows(
        Profile::Factors,
        h.p,
        sheet,
        from,
        h.width,
        power as usize,
        after_root,
        out,
    )
}

// The lines of all factors.
fn put_factors(sheet: &[u32], at: usize, out: &mut [u8]) -> usize
    requires { Listable sheet.now × (at + factors_room ≤ length out.old) }
    ensures { Puts factors_room (join_to (count sheet.now) (factor_text sheet.now)) at out.old result out.new }
{
    let h = layout::read_header(sheet);
    let mut place = at;
    for i in 0..h.count {
        place = put_factor(sheet, i, place, out);
    }
    place
}

// The listing of a sheet.
pub fn put_listing(sheet: &[u32], out: &mut [u8]) -> usize
    requires { Listable sheet.now × (text_room ≤ length out.old) }
    ensures { Puts text_room (listing_text sheet.now) 0 out.old result out.new }
{
    let after_head = put_head(sheet, out);
    put_factors(sheet, after_head, out)
}

// The listing of a sheet's roots, whose series are the rows of `series`.
pub fn put_roots(sheet: &[u32], series: &[u32], out: &mut [u8]) -> usize
    requires { Listable sheet.now × Entries (modulus sheet.now) series.now 0 (width sheet.now) (count sheet.now) × (count sheet.now * width sheet.now ≤ length series.now)
        × (text_room ≤ length out.old) }
    ensures { Puts text_room (roots_text sheet.now series.now) 0 out.old result out.new }
{
    let h = layout::read_header(sheet);
    let after_head = put_head(sheet, out);
    put_rows(
        Profile::Roots,
        h.p,
        series,
        0,
        h.width,
        h.count,
        after_head,
        out,
    )
}
