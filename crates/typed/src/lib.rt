// Typed input to an answer key: a line `MODULUS TERMS`, and a polynomial after it.
#![tactic(auto)]

ghost use Rattle.std.specs.Prelude.{◌≡◌, ◌-◌, ◌≤◌, length, take, drop};
ghost use Rattle.numbers.specs.Refusals.{judge, outcome, verdict};
ghost use Rattle.job.specs.Limits.{most_width};
ghost use Rattle.text.specs.Limits.{text_room};
ghost use Rattle.typed.specs.Limits.{rows_lent};
ghost use Rattle.typed.specs.Order.{unended};
ghost use Rattle.typed.specs.Key.{order_checks, Keyed};
ghost use Rattle.typed.specs.internal.Writing.{WroteRows, WroteTyped, WroteKey};

use crate::limits::{LONGEST_INPUT, ROWS_LENT};
use crate::line::LINE_FEED;
use job::limits::{MOST_DEGREE, MOST_WIDTH};
use listing::limits::TEXT_ROOM;
use numbers::judge::{check_modulus, outside};
use numbers::refusal::Refusal;
use text::Profile;

pub mod limits; // how long an input is, and the words lent for rows
pub mod line; // the first line

// Refusals 1, 2 and 4.
fn check_order(p: u32, n: u32) -> Result<(), Refusal>
    ensures { verdict result ≡ judge (order_checks p n) }
{
    check_modulus(p)?;
    if outside(1, MOST_WIDTH, n) {
        return Err(Refusal::Terms);
    }
    Ok(())
}

// The text of a polynomial of degree d, whose rows begin `rows`: refusal 3, or what its roots, which are found, give.
fn write_rows(p: u32, d: u32, n: u32, rows: &[u32], out: &mut [u8]) -> usize
    requires { (n ≤ most_width) × (rows_lent ≤ length rows.now) × (text_room ≤ length out.old) }
    ensures { WroteRows p d n rows.now out.old result out.new }
{
    if outside(1, MOST_DEGREE, d) {
        return text::put_refused(Refusal::Degree, out);
    }
    let m = ((d + 1) * n) as usize;
    listing::kernel::write_given(Profile::Factors, p, d, n, &rows[..m], &rows[..0], out)
}

// The text of an order.
fn write_typed(p: u32, n: u32, typed: &[u8], out: &mut [u8]) -> usize
    requires { text_room ≤ length out.old }
    ensures { WroteTyped p n typed.now out.old result out.new }
{
    if let Err(r) = check_order(p, n) {
        return text::put_refused(r, out);
    }
    let mut rows = [0u32; ROWS_LENT];
    match read::read(p, n, typed, &mut rows) {
        Err(r) => text::put_refused(r, out),
        Ok(d) => write_rows(p, d, n, &rows, out),
    }
}

// Where the text that begins at a place ends: a line feed at the very end is left off.
fn text_end(input: &[u8], from: usize) -> usize
    requires { from ≤ length input.now }
    ensures { (from ≤ result) × (result ≤ length input.now) × (take (result - from) (drop from input.now) ≡ unended (drop from input.now)) }
{
    let end = input.len();
    if from < end {
        if input[end - 1] == LINE_FEED {
            return end - 1;
        }
    }
    end
}

// The text of an input.
fn write_key(input: &[u8], out: &mut [u8]) -> usize
    requires { text_room ≤ length out.old }
    ensures { WroteKey input.now out.old result out.new }
{
    if LONGEST_INPUT < input.len() {
        return text::put_refused(Refusal::Unreadable, out);
    }
    let Some(line) = line::order_of(input) else {
        return text::put_refused(Refusal::Unreadable, out);
    };
    let end = text_end(input, line.text);
    write_typed(line.modulus, line.terms, &input[line.text..end], out)
}

// The answer key of typed input, or the line of its refusal. The answer is the number of bytes.
pub fn key(input: &[u8], out: &mut [u8]) -> Result<u32, Refusal>
    ensures { Keyed input.now out.old (outcome result) out.new }
{
    let mut bytes = [0u8; TEXT_ROOM];
    let long = write_key(input, &mut bytes);
    listing::kernel::hand_over(&bytes[..long], out)
}
