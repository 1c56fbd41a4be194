// Examples of document 01 and neighbours of theirs that are not proved as theorems: each line of the output is one call and its outcome,
// held to the stored output, which a second program computed.
#![tactic(auto)]

ghost use Rattle.std.specs.Prelude.{◌≡◌, ◌+◌, ◌*◌, ◌≤◌, length};
ghost use Rattle.numbers.specs.Words.{part, over};
ghost use Rattle.numbers.specs.Refusals.{judge, outcome, outcome_after, written};
ghost use Rattle.numbers.specs.Limits.{largest_width};
ghost use Rattle.rows.specs.Rows.{product_checks, row_product};

use numbers::limits::{LARGEST_DEGREE, MOST_ROOTS};
use numbers::refusal::Refusal;
use residues::Number;
use std::io;
use std::io::Print;

// The value, or the refusal.
fn say_number(rt: &HostRuntime, a: Result<Number, Refusal>) -> io::Result<()> {
    match a {
        Ok(number) => println!(rt; "{number}"),
        Err(refusal) => println!(rt; "{refusal}"),
    }
}

// All four operations on one pair of words.
fn all_four(rt: &HostRuntime, p: u32, value: u32, other: u32) -> io::Result<()> {
    let a = Number { p, value };
    print!(rt; "sum ")?;
    say_number(rt, a.sum(other))?;
    print!(rt; "difference ")?;
    say_number(rt, a.difference(other))?;
    print!(rt; "product ")?;
    say_number(rt, a.product(other))?;
    print!(rt; "inverse ")?;
    say_number(rt, a.inverse())
}

fn say_list(rt: &HostRuntime, words: &[u32]) -> io::Result<()> {
    for word in words {
        print!(rt; " {word}")?;
    }
    println!(rt;)
}

// What a call answered, and every word that it was lent.
fn say_words(rt: &HostRuntime, a: Result<u32, Refusal>, out: &[u32]) -> io::Result<()> {
    match a {
        Ok(n) => print!(rt; "done {n}:")?,
        Err(refusal) => print!(rt; "{refusal}:")?,
    }
    say_list(rt, out)
}

// Two series of n words that stand somewhere in a larger slice, multiplied where they stand.
fn product_of_parts(
    p: u32,
    n: u32,
    words: &[u32],
    a: usize,
    b: usize,
    out: &mut [u32],
) -> Result<u32, Refusal>
    requires { (n ≤ largest_width) × (a + n ≤ length words.now) × (b + n ≤ length words.now) }
    ensures answer { outcome result ≡ outcome_after (judge (product_checks p 0 0 n (part words.now a n) (part words.now b n) (length out.old))) ((0 + 0 + 1) * n) }
    ensures words { out.new ≡ written (judge (product_checks p 0 0 n (part words.now a n) (part words.now b n) (length out.old)))
        (over (row_product p 0 0 n (part words.now a n) (part words.now b n)) out.old) out.old }
{
    let x = a + n as usize;
    let y = b + n as usize;
    rows::product(p, 0, 0, n, &words[a..x], &words[b..y], out)
}

// One call, and its outcome with the words that it leaves.
fn say_sum(
    rt: &HostRuntime,
    p: u32,
    n: u32,
    g: &[u32],
    gknown: u32,
    h: &[u32],
    hknown: u32,
    out: &mut [u32],
) -> io::Result<()> {
    let answer = series::sum(p, n, g, gknown, h, hknown, out);
    say_words(rt, answer, out)
}

fn say_product(
    rt: &HostRuntime,
    p: u32,
    n: u32,
    g: &[u32],
    gknown: u32,
    h: &[u32],
    hknown: u32,
    out: &mut [u32],
) -> io::Result<()> {
    let answer = series::product(p, n, g, gknown, h, hknown, out);
    say_words(rt, answer, out)
}

fn say_quotient(
    rt: &HostRuntime,
    p: u32,
    n: u32,
    g: &[u32],
    h: &[u32],
    out: &mut [u32],
) -> io::Result<()> {
    let answer = series::quotient(p, n, g, h, out);
    say_words(rt, answer, out)
}

fn say_pair(
    rt: &HostRuntime,
    p: u32,
    d: u32,
    n: u32,
    f: &[u32],
    h: u32,
    w: u32,
    out: &mut [u32],
) -> io::Result<()> {
    let answer = pair::pair(p, d, n, f, h, w, out);
    say_words(rt, answer, out)
}

fn say_known(
    rt: &HostRuntime,
    p: u32,
    d: u32,
    n: u32,
    f: &[u32],
    lengths: &[u32],
    roots: &[u32],
    sheet: &mut [u32],
) -> io::Result<()> {
    let answer = open::open(p, d, n, f, lengths, roots, sheet);
    say_words(rt, answer, sheet)
}

// All rows known to n terms.
fn say_open(
    rt: &HostRuntime,
    p: u32,
    d: u32,
    n: u32,
    f: &[u32],
    roots: &[u32],
    sheet: &mut [u32],
) -> io::Result<()> {
    let lengths = [n; MOST_ROOTS];
    let count = d.min(LARGEST_DEGREE) as usize;
    say_known(rt, p, d, n, f, &lengths[..count], roots, sheet)
}

fn say_extend(rt: &HostRuntime, sheet: &mut [u32], w: u32) -> io::Result<()> {
    let answer = extend::extend(sheet, w);
    say_words(rt, answer, sheet)
}

fn say_correct(rt: &HostRuntime, sheet: &mut [u32], j: u32, t: u32, entry: u32) -> io::Result<()> {
    let answer = correct::correct(sheet, j, t, entry);
    say_words(rt, answer, sheet)
}

fn series_examples(rt: &HostRuntime) -> io::Result<()> {
    let g = [1u32, 2, 3];
    let h = [4u32, 5, 6];
    let mut out = [9u32; 4];
    say_sum(rt, 7, 3, &g, 3, &h, 3, &mut out)?;
    say_words(rt, series::difference(7, 3, &g, &h, &mut out), &out)?;
    say_product(rt, 7, 3, &g, 3, &h, 3, &mut out)?;
    say_quotient(rt, 7, 3, &g, &h, &mut out)?;
    say_words(rt, series::inverse(7, 3, &h, &mut out), &out)
}

// 1 + 2X, known to two terms, with 3 + 2X + X²: the lesser count decides, either way round. A term past a count, a count of 0 and one of 4 are 21; so they are
// where there is no room besides, and a word too large comes first.
fn known_counts(rt: &HostRuntime) -> io::Result<()> {
    let g = [1u32, 2, 0];
    let h = [3u32, 2, 1];
    let mut out = [9u32; 4];
    say_sum(rt, 7, 3, &g, 2, &h, 3, &mut out)?;
    say_product(rt, 7, 3, &g, 2, &h, 3, &mut out)?;
    say_product(rt, 7, 3, &h, 3, &g, 2, &mut out)?;
    say_product(rt, 7, 3, &g, 2, &h, 2, &mut out)?;
    say_sum(rt, 7, 3, &g, 0, &h, 3, &mut out)?;
    say_sum(rt, 7, 3, &g, 3, &h, 4, &mut out)?;
    let mut short = [9u32; 2];
    say_product(rt, 7, 3, &g, 1, &h, 3, &mut short)?;
    let large = [3u32, 7, 0];
    say_product(rt, 7, 3, &large, 1, &h, 3, &mut short)
}

// X + X² by X, zeros by 5X + 6X², and more with X in common; zeros by zeros are refused.
fn common_powers(rt: &HostRuntime) -> io::Result<()> {
    let x = [0u32, 1, 0];
    let zeros = [0u32, 0, 0];
    let line = [0u32, 5, 6];
    let square = [0u32, 0, 6];
    let mut out = [9u32; 4];
    say_quotient(rt, 7, 3, &[0, 1, 1], &x, &mut out)?;
    say_quotient(rt, 7, 3, &zeros, &line, &mut out)?;
    say_quotient(rt, 7, 3, &square, &[0, 0, 2], &mut out)?;
    say_quotient(rt, 7, 3, &square, &line, &mut out)?;
    say_quotient(rt, 7, 3, &zeros, &zeros, &mut out)
}

// Two refusals at once: the one with the lower number is given, and no word changes.
fn series_refusals(rt: &HostRuntime) -> io::Result<()> {
    let g = [1u32, 2, 3];
    let zero = [0u32, 5, 6];
    let large = [4u32, 9, 7];
    let mut out = [9u32; 4];
    let mut short = [9u32; 2];
    say_quotient(rt, 7, 3, &g, &zero, &mut out)?;
    say_quotient(rt, 7, 3, &g, &zero, &mut short)?;
    say_words(rt, series::inverse(7, 3, &zero, &mut short), &short)?;
    say_product(rt, 7, 3, &g, 3, &large, 3, &mut out)?;
    say_product(rt, 7, 3, &large, 3, &g, 3, &mut out)?;
    say_product(rt, 7, 4, &g, 4, &large, 4, &mut out)?;
    say_product(rt, 7, 257, &g, 257, &large, 257, &mut out)?;
    say_product(rt, 6, 0, &g, 0, &large, 0, &mut out)
}

fn row_examples(rt: &HostRuntime) -> io::Result<()> {
    // (Y + 1 + X) and (Y² + 3X Y + 2) over 5, two terms
    let f = [1u32, 1, 1, 0];
    let g = [2u32, 0, 0, 3, 1, 0];
    let mut out = [9u32; 9];
    say_words(rt, rows::product(5, 1, 2, 2, &f, &g, &mut out), &out)?;
    say_words(rt, rows::shift(5, 2, 2, &g, 3, &mut out), &out)?;
    say_words(rt, rows::shift(5, 2, 2, &g, 5, &mut out), &out)?;
    say_words(rt, rows::sum(5, 1, 2, &f, &f, &mut out), &out)?;
    say_words(
        rt,
        rows::product(5, 4294967295, 1, 2, &f, &f, &mut out),
        &out,
    )?;
    say_words(rt, rows::product(5, 17, 16, 2, &f, &f, &mut out), &out)?;
    say_words(rt, product_of_parts(5, 2, &g, 1, 3, &mut out), &out)
}

fn pair_examples(rt: &HostRuntime) -> io::Result<()> {
    let mut out = [9u32; 13];
    // X + Y + Y² over 5, to 4 terms; to 2 terms over these, and then on to 4
    let f = [0u32, 1, 0, 0, 1, 0, 0, 0, 1, 0, 0, 0];
    say_pair(rt, 5, 2, 4, &f, 0, 4, &mut out)?;
    say_pair(rt, 5, 2, 4, &f, 0, 2, &mut out)?;
    say_pair(rt, 5, 2, 4, &f, 2, 4, &mut out)?;
    // behind, beyond, both, spoiled, from past the last term, no further
    say_pair(rt, 5, 2, 4, &f, 4, 3, &mut out)?;
    say_pair(rt, 5, 2, 4, &f, 4, 5, &mut out)?;
    say_pair(rt, 5, 2, 4, &f, 4, 0, &mut out)?;
    say_pair(rt, 5, 2, 4, &f, 3, 4, &mut out)?;
    say_pair(rt, 5, 2, 4, &f, 5, 4, &mut out)?;
    say_pair(rt, 5, 2, 4, &f, 4, 4, &mut out)
}

// Flat before beyond, over the pair from before; short before flat; order D; D = 0; A whose top row is 0 at X = 0.
fn pair_shapes(rt: &HostRuntime) -> io::Result<()> {
    let mut out = [0u32, 1, 1, 2, 1, 4, 4, 3, 1, 0, 0, 0, 9];
    let flat = [0u32, 1, 0, 0, 0, 3, 0, 0, 0, 0, 0, 2];
    say_pair(rt, 5, 2, 4, &flat, 0, 0, &mut out)?;
    let mut short = [9u32; 11];
    say_pair(rt, 5, 2, 4, &flat, 0, 0, &mut short)?;
    let top = [0u32, 2, 1, 0, 0, 3, 4, 1, 3, 1, 0, 2];
    say_pair(rt, 5, 2, 4, &top, 0, 4, &mut out)?;
    let alone = [3u32, 1, 4, 1];
    say_pair(rt, 5, 0, 4, &alone, 0, 4, &mut out)?;
    let falling = [0u32, 1, 2, 0, 1, 0, 3, 1, 0, 1, 0, 4];
    say_pair(rt, 5, 2, 4, &falling, 0, 4, &mut out)
}

// X + (1 + X³) Y + (1 + X) Y² over 2, to 256 terms: p far below the number of terms.
fn long_pair(rt: &HostRuntime) -> io::Result<()> {
    let mut f = [0u32; 768];
    let mut out = [9u32; 769];
    f[1] = 1;
    f[256] = 1;
    f[259] = 1;
    f[512] = 1;
    f[513] = 1;
    say_pair(rt, 2, 2, 256, &f, 0, 256, &mut out)
}

fn say_test(rt: &HostRuntime, s: &[u32]) -> io::Result<()> {
    if sheet::test(s) {
        println!(rt; "sound")
    } else {
        println!(rt; "not sound")
    }
}

// A sheet of which only the first words are lent.
fn extend_front(s: &mut [u32], lent: usize, w: u32) -> Result<u32, Refusal>
    requires { lent ≤ length s.old }
{
    extend::extend(&mut s[..lent], w)
}

// Document 01's job, Y² − 1 − X over 7, with one word past the sheet's end: worked on in two goes, refused, shortened, damaged.
fn job_sheet(rt: &HostRuntime) -> io::Result<()> {
    let f = [6u32, 6, 0, 0, 0, 0, 1, 0, 0];
    let roots = [1u32, 6];
    let mut short = [99u32; 31];
    say_open(rt, 7, 2, 3, &f, &roots, &mut short)?;
    let mut s = [99u32; 33];
    say_open(rt, 7, 2, 3, &f, &roots, &mut s)?;
    say_test(rt, &s)?;
    say_extend(rt, &mut s, 2)?;
    say_extend(rt, &mut s, 3)?;
    say_extend(rt, &mut s, 2)?;
    say_extend(rt, &mut s, 4)?;
    say_words(rt, extend_front(&mut s, 31, 3), &s)?;
    say_list(rt, sheet::factor_rows(&s, 1))?;
    s[27] = 5;
    say_test(rt, &s)?;
    say_extend(rt, &mut s, 3)
}

// The same sheet, corrected in column 1 before it has that term, after it, and back again: to Y² − 1 − 2X, to Y² − 1 − X. Column 2 is corrected while it has two
// terms, which leaves them. Column 0, column 3, row 2 and the number 7 are refused, and 7 in row 2 for the row.
fn job_correct(rt: &HostRuntime) -> io::Result<()> {
    let f = [6u32, 6, 0, 0, 0, 0, 1, 0, 0];
    let roots = [1u32, 6];
    let mut s = [99u32; 33];
    say_open(rt, 7, 2, 3, &f, &roots, &mut s)?;
    say_correct(rt, &mut s, 0, 1, 5)?;
    say_extend(rt, &mut s, 2)?;
    say_correct(rt, &mut s, 0, 1, 6)?;
    say_correct(rt, &mut s, 1, 2, 3)?;
    say_extend(rt, &mut s, 3)?;
    say_correct(rt, &mut s, 1, 2, 0)?;
    say_correct(rt, &mut s, 0, 1, 5)?;
    say_correct(rt, &mut s, 0, 0, 5)?;
    say_correct(rt, &mut s, 0, 3, 5)?;
    say_correct(rt, &mut s, 2, 1, 7)?;
    say_correct(rt, &mut s, 0, 1, 7)?;
    s[3] = 2;
    say_correct(rt, &mut s, 2, 1, 7)
}

// The same sheet, worked on by a list of calls: accepted, too few words lent, accepted, behind, beyond, corrected, no such entry, too large.
fn job_calls(rt: &HostRuntime) -> io::Result<()> {
    let f = [6u32, 6, 0, 0, 0, 0, 1, 0, 0];
    let roots = [1u32, 6];
    let mut s = [99u32; 33];
    say_open(rt, 7, 2, 3, &f, &roots, &mut s)?;
    let mut calls = [
        33u32, 0, 2, 0, 0, 31, 0, 3, 0, 0, 32, 0, 3, 0, 0, 33, 0, 2, 0, 0, 33, 0, 4, 0, 0, 32, 1,
        0, 1, 5, 33, 1, 2, 1, 5, 33, 1, 0, 1, 7,
    ];
    let mut answers = [9u32; 17];
    say_words(rt, calls::replay(&mut s, &calls, &mut answers), &answers)?;
    say_list(rt, &s)?;
    let mut few = [9u32; 15];
    say_words(rt, calls::replay(&mut s, &calls, &mut few), &few)?;
    // a call that lends more than there is, one of kind 2, an extend with a word too much, and a list with a word too few
    calls[0] = 34;
    say_words(rt, calls::replay(&mut s, &calls, &mut answers), &answers)?;
    calls[0] = 33;
    calls[1] = 2;
    say_words(rt, calls::replay(&mut s, &calls, &mut answers), &answers)?;
    calls[1] = 0;
    calls[4] = 1;
    say_words(rt, calls::replay(&mut s, &calls, &mut answers), &answers)?;
    calls[4] = 0;
    say_words(
        rt,
        calls::replay(&mut s, &calls[..39], &mut answers),
        &answers,
    )
}

// The rows of a factor of power 2 over 5, with 4 terms, passed on where they stand in the sheet: at Y + 3, and times 1 + X. 5 is not below 5; there is no
// factor 3, which is refused before that.
fn pass_on(rt: &HostRuntime, s: &[u32], i: u32) -> io::Result<()> {
    let line = [1u32, 1, 0, 0];
    let mut out = [9u32; 9];
    say_words(rt, sheet::factor_shift(s, i, 3, &mut out), &out)?;
    say_words(rt, sheet::factor_times(s, i, 0, &line, &mut out), &out)?;
    say_words(rt, sheet::factor_shift(s, i, 5, &mut out), &out)?;
    say_words(rt, sheet::factor_shift(s, 3, 5, &mut out), &out)
}

// Y (Y − 1)² (Y − 3) over 5 at X = 0, four terms: a double root, and p barely above the degree.
fn three_roots(rt: &HostRuntime) -> io::Result<()> {
    let f = [
        0u32, 1, 2, 3, 2, 4, 0, 1, 2, 0, 3, 0, 0, 2, 2, 2, 1, 0, 0, 0,
    ];
    let roots = [0u32, 1, 3];
    let mut s = [9u32; 58];
    say_open(rt, 5, 4, 4, &f, &roots, &mut s)?;
    say_extend(rt, &mut s, 4)?;
    say_test(rt, &s)?;
    pass_on(rt, &s, 1)?;
    // more terms than columns; the last word of the factors changed
    s[3] = 5;
    say_test(rt, &s)?;
    s[3] = 4;
    s[56] = 1;
    say_test(rt, &s)
}

// The job again, row 0 known to two terms: it is worked to two, not to three, and may not claim that more is known.
fn short_row(rt: &HostRuntime) -> io::Result<()> {
    let f = [6u32, 6, 0, 0, 0, 0, 1, 0, 0];
    let roots = [1u32, 6];
    let lengths = [2u32, 3];
    let mut s = [99u32; 33];
    say_known(rt, 7, 2, 3, &f, &lengths, &roots, &mut s)?;
    say_extend(rt, &mut s, 3)?;
    say_extend(rt, &mut s, 2)?;
    say_test(rt, &s)?;
    s[10] = 3;
    say_test(rt, &s)?;
    s[11] = 3;
    say_test(rt, &s)
}

// A length of 0, one of 4, and one that leaves a word past it: 21, before a root list that falls. One length for two rows is 5.
fn length_refusals(rt: &HostRuntime) -> io::Result<()> {
    let f = [6u32, 6, 0, 0, 0, 0, 1, 0, 0];
    let falling = [6u32, 1];
    let mut s = [9u32; 3];
    let none = [0u32, 3];
    say_known(rt, 7, 2, 3, &f, &none, &falling, &mut s)?;
    let beyond = [2u32, 4];
    say_known(rt, 7, 2, 3, &f, &beyond, &falling, &mut s)?;
    let cut = [1u32, 3];
    say_known(rt, 7, 2, 3, &f, &cut, &falling, &mut s)?;
    let fine = [2u32, 1];
    say_known(rt, 7, 2, 3, &f, &fine, &falling, &mut s)?;
    let one = [2u32];
    say_known(rt, 7, 2, 3, &f, &one, &falling, &mut s)
}

// Y^32 with one term passes, a degree bound of 33 or 0 doesn't.
fn largest_degree(rt: &HostRuntime) -> io::Result<()> {
    let mut f = [0u32; 33];
    f[32] = 1;
    let roots = [0u32];
    let mut s = [9u32; 111];
    say_open(rt, 7, 33, 1, &f, &roots, &mut s)?;
    say_open(rt, 7, 0, 1, &f, &roots, &mut s)?;
    say_open(rt, 7, 32, 1, &f, &roots, &mut s)
}

// Y + X with 256 terms passes, 257 terms don't; its root is worked to the last term, and not beyond.
fn most_terms(rt: &HostRuntime) -> io::Result<()> {
    let mut f = [0u32; 512];
    f[1] = 1;
    f[256] = 1;
    let roots = [0u32];
    let mut s = [9u32; 783];
    say_open(rt, 7, 1, 257, &f, &roots, &mut s)?;
    say_open(rt, 7, 1, 256, &f, &roots, &mut s)?;
    say_extend(rt, &mut s, 257)?;
    say_extend(rt, &mut s, 256)
}

// What open refuses, Y² − 1 over 7 with two terms: refusals 6 to 9.
fn open_refusals(rt: &HostRuntime) -> io::Result<()> {
    let f = [6u32, 0, 0, 0, 1, 0];
    let mut s = [9u32; 3];
    let one = [1u32];
    say_open(rt, 7, 2, 2, &f, &one, &mut s)?;
    let large = [1u32, 7];
    say_open(rt, 7, 2, 2, &f, &large, &mut s)?;
    let falling = [6u32, 1];
    say_open(rt, 7, 2, 2, &f, &falling, &mut s)?;
    let many = [1u32, 2, 6];
    say_open(rt, 7, 2, 2, &f, &many, &mut s)?;
    let both = [1u32, 6];
    say_open(rt, 7, 2, 2, &f, &both, &mut s)
}

// The same, not monic, with a root list that falls; a root too large comes before both.
fn two_refusals(rt: &HostRuntime) -> io::Result<()> {
    let mut s = [9u32; 3];
    let falling = [6u32, 1];
    let double = [6u32, 0, 0, 0, 2, 0];
    say_open(rt, 7, 2, 2, &double, &falling, &mut s)?;
    let worse = [6u32, 8];
    say_open(rt, 7, 2, 2, &double, &worse, &mut s)
}

fn main(rt: HostRuntime) -> io::Result<()> {
    all_four(&rt, 7, 3, 5)?;
    all_four(&rt, 65521, 65520, 65520)?;
    all_four(&rt, 16777213, 16777212, 16777212)?;
    // an offender in each place, and two at once
    all_four(&rt, 7, 7, 5)?;
    all_four(&rt, 7, 6, 7)?;
    all_four(&rt, 7, 8, 9)?;
    // 0 has no inverse; refusals 1 and 2 come first
    all_four(&rt, 7, 0, 0)?;
    all_four(&rt, 91, 0, 200)?;
    all_four(&rt, 1, 0, 0)?;
    all_four(&rt, 65536, 70000, 0)?;
    all_four(&rt, 16777215, 0, 0)?;
    all_four(&rt, 16777216, 0, 0)?;
    all_four(&rt, 4294967295, 4294967295, 4294967295)?;
    all_four(&rt, 2, 1, 1)?;
    series_examples(&rt)?;
    known_counts(&rt)?;
    common_powers(&rt)?;
    series_refusals(&rt)?;
    row_examples(&rt)?;
    pair_examples(&rt)?;
    pair_shapes(&rt)?;
    long_pair(&rt)?;
    job_sheet(&rt)?;
    job_correct(&rt)?;
    job_calls(&rt)?;
    short_row(&rt)?;
    length_refusals(&rt)?;
    three_roots(&rt)?;
    largest_degree(&rt)?;
    most_terms(&rt)?;
    open_refusals(&rt)?;
    two_refusals(&rt)
}
