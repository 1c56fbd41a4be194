// The engine for C and Rust: every public operation under a plain name. A slice is a pointer and a count; the result is the outcome in 64 bits.
#![tactic(auto)]

ghost use Rattle.std.specs.Prelude.{◌≡◌, cond, [], ◌∷◌, ◌+◌, ◌-◌, ◌*◌, length};
ghost use Rattle.numbers.specs.Words.{over, low_word};
ghost use Rattle.numbers.specs.Refusals.{judge, outcome, refused, outcome_after, written, Leaves, number, detail};
ghost use Rattle.residues.specs.Number.{sum_of, difference_of, product_of, inverse_number};
ghost use Rattle.series.specs.Series.{series_checks, known_checks, inverse_checks, sums, differences, product, quotient};
ghost use Rattle.series.specs.Quotient.{least_power, quotient_checks, QuotientDone};
ghost use Rattle.rows.specs.Rows.{rows_checks, product_checks, shift_checks, row_sum, row_product, row_shift};
ghost use Rattle.pair.specs.Paired.{pair_checks, PairDone};
ghost use Rattle.pair.specs.Pair.{order};
ghost use Rattle.layout.specs.Layout.{width, terms, count};
ghost use Rattle.sheet.specs.Sheet.{Given, given_of};
ghost use Rattle.sheet.specs.Test.{sound_test};
ghost use Rattle.sheet.specs.Reading.{times_checks, times_size, times_words, shifted_checks, shifted_size, shifted_words};
ghost use Rattle.simple.specs.Simple.{simple_verdict, RootsDone};
ghost use Rattle.open.specs.Open.{open_verdict, needed, OpenDone};
ghost use Rattle.open.specs.Find.{with_roots, find_verdict};
ghost use Rattle.extend.specs.Extend.{extend_verdict, ExtendDone};
ghost use Rattle.correct.specs.Correct.{correct_verdict, CorrectDone};
ghost use Rattle.calls.specs.Replay.{call_count, calls_to, answer_count, replay_verdict, ReplayLeaves};
ghost use Rattle.counts.specs.Counts.{count_words, counts_checks};
ghost use Rattle.read.specs.Read.{ReadOf};
ghost use Rattle.text.specs.declared.Profile.TheVariants.{Factors, Roots};
ghost use Rattle.listing.specs.Listing.{Listed};
ghost use Rattle.typed.specs.Key.{Keyed};
ghost use Rattle.capi.specs.Packed.{packed, packed_number, Packs};
ghost use Rattle.capi.specs.Factor.{factor_checks, factor_words};

use numbers::refusal::Refusal;
use residues::Number;

mod factor; // reading a factor

fn pack_refusal(r: Refusal) -> u64
    ensures { result ≡ packed (refused (number r) (detail r)) }
{
    (r.number() as u64) * 4294967296 + r.detail() as u64
}

fn pack(a: Result<u32, Refusal>) -> u64
    ensures { result ≡ packed (outcome a) }
{
    match a {
        Ok(n) => n as u64,
        Err(r) => pack_refusal(r),
    }
}

fn pack_number(a: Result<Number, Refusal>) -> u64
    ensures { result ≡ packed_number (outcome a) }
{
    match a {
        Ok(n) => n.value as u64,
        Err(r) => pack_refusal(r),
    }
}

#[unsafe(no_mangle)]
pub extern "C" fn bk_sum(p: u32, value: u32, other: u32) -> u64
    ensures { result ≡ packed_number (sum_of (record { p = p; value = value }) other) }
{
    pack_number(Number { p, value }.sum(other))
}

#[unsafe(no_mangle)]
pub extern "C" fn bk_difference(p: u32, value: u32, other: u32) -> u64
    ensures { result ≡ packed_number (difference_of (record { p = p; value = value }) other) }
{
    pack_number(Number { p, value }.difference(other))
}

#[unsafe(no_mangle)]
pub extern "C" fn bk_product(p: u32, value: u32, other: u32) -> u64
    ensures { result ≡ packed_number (product_of (record { p = p; value = value }) other) }
{
    pack_number(Number { p, value }.product(other))
}

#[unsafe(no_mangle)]
pub extern "C" fn bk_inverse(p: u32, value: u32) -> u64
    ensures { result ≡ packed_number (inverse_number (record { p = p; value = value })) }
{
    pack_number(Number { p, value }.inverse())
}

#[unsafe(no_mangle)]
pub extern "C" fn bk_series_sum(
    p: u32,
    n: u32,
    g: &[u32],
    gknown: u32,
    h: &[u32],
    hknown: u32,
    out: &mut [u32],
) -> u64
    ensures answer { result ≡ packed (outcome_after (judge (known_checks p n g.now gknown h.now hknown (length out.old))) n) }
    ensures words { out.new ≡ written (judge (known_checks p n g.now gknown h.now hknown (length out.old)))
        (over (sums p n g.now gknown h.now hknown) out.old) out.old }
{
    pack(series::sum(p, n, g, gknown, h, hknown, out))
}

#[unsafe(no_mangle)]
pub extern "C" fn bk_series_difference(p: u32, n: u32, g: &[u32], h: &[u32], out: &mut [u32]) -> u64
    ensures answer { result ≡ packed (outcome_after (judge (series_checks p n g.now h.now (length out.old))) n) }
    ensures words { out.new ≡ written (judge (series_checks p n g.now h.now (length out.old)))
        (over (differences p n g.now h.now) out.old) out.old }
{
    pack(series::difference(p, n, g, h, out))
}

#[unsafe(no_mangle)]
pub extern "C" fn bk_series_product(
    p: u32,
    n: u32,
    g: &[u32],
    gknown: u32,
    h: &[u32],
    hknown: u32,
    out: &mut [u32],
) -> u64
    ensures answer { result ≡ packed (outcome_after (judge (known_checks p n g.now gknown h.now hknown (length out.old))) n) }
    ensures words { out.new ≡ written (judge (known_checks p n g.now gknown h.now hknown (length out.old)))
        (over (product p n g.now gknown h.now hknown) out.old) out.old }
{
    pack(series::product(p, n, g, gknown, h, hknown, out))
}

#[unsafe(no_mangle)]
pub extern "C" fn bk_series_quotient(p: u32, n: u32, g: &[u32], h: &[u32], out: &mut [u32]) -> u64
    ensures answer { result ≡ packed (outcome_after (judge (quotient_checks p n g.now h.now (length out.old))) (n - least_power h.now)) }
    ensures words { Leaves (judge (quotient_checks p n g.now h.now (length out.old)))
        (QuotientDone p n g.now h.now out.old out.new) out.old out.new }
{
    pack(series::quotient(p, n, g, h, out))
}

#[unsafe(no_mangle)]
pub extern "C" fn bk_series_inverse(p: u32, n: u32, g: &[u32], out: &mut [u32]) -> u64
    ensures answer { result ≡ packed (outcome_after (judge (inverse_checks p n g.now (length out.old))) n) }
    ensures words { out.new ≡ written (judge (inverse_checks p n g.now (length out.old)))
        (over (quotient p n (1 ∷ []) g.now) out.old) out.old }
{
    pack(series::inverse(p, n, g, out))
}

#[unsafe(no_mangle)]
pub extern "C" fn bk_rows_sum(p: u32, d: u32, n: u32, f: &[u32], g: &[u32], out: &mut [u32]) -> u64
    ensures answer { result ≡ packed (outcome_after (judge (rows_checks p d n f.now g.now (length out.old))) ((d + 1) * n)) }
    ensures words { out.new ≡ written (judge (rows_checks p d n f.now g.now (length out.old)))
        (over (row_sum p d n f.now g.now) out.old) out.old }
{
    pack(rows::sum(p, d, n, f, g, out))
}

#[unsafe(no_mangle)]
pub extern "C" fn bk_rows_difference(
    p: u32,
    d: u32,
    n: u32,
    f: &[u32],
    g: &[u32],
    out: &mut [u32],
) -> u64
    ensures answer { result ≡ packed (outcome_after (judge (rows_checks p d n f.now g.now (length out.old))) ((d + 1) * n)) }
    ensures words { out.new ≡ written (judge (rows_checks p d n f.now g.now (length out.old)))
        (over (differences p ((d + 1) * n) f.now g.now) out.old) out.old }
{
    pack(rows::difference(p, d, n, f, g, out))
}

#[unsafe(no_mangle)]
pub extern "C" fn bk_rows_product(
    p: u32,
    d1: u32,
    d2: u32,
    n: u32,
    f: &[u32],
    g: &[u32],
    out: &mut [u32],
) -> u64
    ensures answer { result ≡ packed (outcome_after (judge (product_checks p d1 d2 n f.now g.now (length out.old))) ((d1 + d2 + 1) * n)) }
    ensures words { out.new ≡ written (judge (product_checks p d1 d2 n f.now g.now (length out.old)))
        (over (row_product p d1 d2 n f.now g.now) out.old) out.old }
{
    pack(rows::product(p, d1, d2, n, f, g, out))
}

#[unsafe(no_mangle)]
pub extern "C" fn bk_rows_shift(p: u32, d: u32, n: u32, f: &[u32], c: u32, out: &mut [u32]) -> u64
    ensures answer { result ≡ packed (outcome_after (judge (shift_checks p d n f.now c (length out.old))) ((d + 1) * n)) }
    ensures words { out.new ≡ written (judge (shift_checks p d n f.now c (length out.old)))
        (over (row_shift p d n f.now c) out.old) out.old }
{
    pack(rows::shift(p, d, n, f, c, out))
}

#[unsafe(no_mangle)]
pub extern "C" fn bk_pair(p: u32, d: u32, n: u32, f: &[u32], h: u32, w: u32, out: &mut [u32]) -> u64
    ensures answer { result ≡ packed (outcome_after (judge (pair_checks p d n f.now h w out.old)) (order d n f.now)) }
    ensures words { Leaves (judge (pair_checks p d n f.now h w out.old)) (PairDone p d n f.now w out.old out.new) out.old out.new }
{
    pack(pair::pair(p, d, n, f, h, w, out))
}

#[unsafe(no_mangle)]
pub extern "C" fn bk_sheet_open(
    p: u32,
    d: u32,
    n: u32,
    f: &[u32],
    lengths: &[u32],
    roots: &[u32],
    out: &mut [u32],
) -> u64
    ensures answer { (let g : Given = given_of p d n f.now lengths.now roots.now in
        result ≡ packed (outcome_after (open_verdict g (length out.old)) (needed g))) }
    ensures words { (let g : Given = given_of p d n f.now lengths.now roots.now in
        Leaves (open_verdict g (length out.old)) (OpenDone g out.old out.new (needed g)) out.old out.new) }
{
    pack(open::open(p, d, n, f, lengths, roots, out))
}

#[unsafe(no_mangle)]
pub extern "C" fn bk_sheet_find(
    p: u32,
    d: u32,
    n: u32,
    f: &[u32],
    lengths: &[u32],
    out: &mut [u32],
) -> u64
    ensures answer { (let g : Given = given_of p d n f.now lengths.now [] in
        result ≡ packed (outcome_after (find_verdict g (length out.old)) (needed (with_roots g)))) }
    ensures words { (let g : Given = given_of p d n f.now lengths.now [] in
        Leaves (find_verdict g (length out.old)) (OpenDone (with_roots g) out.old out.new (needed (with_roots g))) out.old out.new) }
{
    pack(open::find(p, d, n, f, lengths, out))
}

#[unsafe(no_mangle)]
pub extern "C" fn bk_sheet_extend(sheet: &mut [u32], w: u32) -> u64
    ensures answer { result ≡ packed (outcome_after (extend_verdict sheet.old w) w) }
    ensures words { Leaves (extend_verdict sheet.old w) (ExtendDone sheet.old w sheet.new) sheet.old sheet.new }
{
    pack(extend::extend(sheet, w))
}

// Row j, column t of the polynomial becomes `entry`.
#[unsafe(no_mangle)]
pub extern "C" fn bk_sheet_correct(sheet: &mut [u32], j: u32, t: u32, entry: u32) -> u64
    ensures answer { result ≡ packed (outcome_after (correct_verdict sheet.old j t entry) (terms sheet.old)) }
    ensures words { Leaves (correct_verdict sheet.old j t entry) (CorrectDone sheet.old j t entry sheet.new) sheet.old sheet.new }
{
    pack(correct::correct(sheet, j, t, entry))
}

// 1 for a sound sheet.
#[unsafe(no_mangle)]
pub extern "C" fn bk_sheet_test(sheet: &[u32]) -> u64
    ensures { result ≡ cond (sound_test sheet.now) 1 0 }
{
    sheet::test(sheet) as u64
}

// Root, power, start and length of factor i.
#[unsafe(no_mangle)]
pub extern "C" fn bk_sheet_factor(sheet: &[u32], i: u32, out: &mut [u32]) -> u64
    ensures answer { result ≡ packed (outcome_after (judge (factor_checks sheet.now i (length out.old))) 4) }
    ensures words { out.new ≡ written (judge (factor_checks sheet.now i (length out.old)))
        (over (factor_words sheet.now i) out.old) out.old }
{
    if let Err(r) = factor::check_factor(sheet, i, out.len()) {
        return pack_refusal(r);
    }
    factor::put_factor(sheet, i, out);
    4
}

// The roots of a sheet as series, all of which have power 1.
#[unsafe(no_mangle)]
pub extern "C" fn bk_sheet_roots(sheet: &[u32], out: &mut [u32]) -> u64
    ensures answer { result ≡ packed (outcome_after (simple_verdict sheet.now (length out.old)) (count sheet.now * width sheet.now)) }
    ensures words { Leaves (simple_verdict sheet.now (length out.old)) (RootsDone sheet.now out.old out.new) out.old out.new }
{
    pack(simple::simple_roots(sheet, out))
}

// The rows of factor i, times g, of degree bound e.
#[unsafe(no_mangle)]
pub extern "C" fn bk_sheet_factor_times(
    sheet: &[u32],
    i: u32,
    e: u32,
    g: &[u32],
    out: &mut [u32],
) -> u64
    ensures answer { result ≡ packed (outcome_after (judge (times_checks sheet.now i e g.now (length out.old))) (times_size sheet.now i e)) }
    ensures words { out.new ≡ written (judge (times_checks sheet.now i e g.now (length out.old)))
        (over (times_words sheet.now i e g.now) out.old) out.old }
{
    pack(sheet::factor_times(sheet, i, e, g, out))
}

// The rows of factor i, at Y + c.
#[unsafe(no_mangle)]
pub extern "C" fn bk_sheet_factor_shift(sheet: &[u32], i: u32, c: u32, out: &mut [u32]) -> u64
    ensures answer { result ≡ packed (outcome_after (judge (shifted_checks sheet.now i c (length out.old))) (shifted_size sheet.now i)) }
    ensures words { out.new ≡ written (judge (shifted_checks sheet.now i c (length out.old)))
        (over (shifted_words sheet.now i c) out.old) out.old }
{
    pack(sheet::factor_shift(sheet, i, c, out))
}

// A list of calls, five words each: words lent, kind, and w, 0, 0 for an extend, or j, t, entry for a correction. Two words are written for each call.
#[unsafe(no_mangle)]
pub extern "C" fn bk_sheet_replay(sheet: &mut [u32], calls: &[u32], answers: &mut [u32]) -> u64
    ensures answer { result ≡ packed (outcome_after (replay_verdict (length sheet.old) calls.now (length answers.old)) (low_word (answer_count calls.now))) }
    ensures words { ReplayLeaves (replay_verdict (length sheet.old) calls.now (length answers.old))
        (calls_to (call_count calls.now) calls.now) sheet.old sheet.new answers.old answers.new }
{
    pack(calls::replay(sheet, calls, answers))
}

#[unsafe(no_mangle)]
pub extern "C" fn bk_counts(p: u32, d: u32, out: &mut [u32]) -> u64
    ensures answer { result ≡ packed (outcome_after (judge (counts_checks p d (length out.old))) (d + 1)) }
    ensures words { out.new ≡ written (judge (counts_checks p d (length out.old))) (over (count_words p d) out.old) out.old }
{
    pack(counts::counts(p, d, out))
}

// A typed polynomial. The answer is its Y-degree.
#[unsafe(no_mangle)]
pub extern "C" fn bk_read(p: u32, n: u32, text: &[u8], out: &mut [u32]) -> u64
    ensures { Packs result (λ a. ReadOf p n text.now out.old a out.new) }
{
    pack(read::read(p, n, text, out))
}

// The listing of a job file. The answer is its number of bytes.
#[unsafe(no_mangle)]
pub extern "C" fn bk_list(job: &[u8], out: &mut [u8]) -> u64
    ensures { Packs result (λ a. Listed Factors job.now out.old a out.new) }
{
    pack(listing::list(job, out))
}

// The listing of a job's roots as series. The answer is its number of bytes.
#[unsafe(no_mangle)]
pub extern "C" fn bk_list_roots(job: &[u8], out: &mut [u8]) -> u64
    ensures { Packs result (λ a. Listed Roots job.now out.old a out.new) }
{
    pack(listing::list_roots(job, out))
}

// The answer key of typed input. The answer is its number of bytes.
#[unsafe(no_mangle)]
pub extern "C" fn bk_key(input: &[u8], out: &mut [u8]) -> u64
    ensures { Packs result (λ a. Keyed input.now out.old a out.new) }
{
    pack(typed::key(input, out))
}
