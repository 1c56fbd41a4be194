// Lists of calls on one sheet, extends and corrections: what several goes leave is what demand 3 says.
#![tactic(auto)]

ghost use Rattle.std.specs.Prelude.{◌≡◌, ℕ, ◌+◌, ◌*◌, ◌≤◌, ◌<◌, length, set};
ghost use Rattle.numbers.specs.Words.{low_word, all_to};
ghost use Rattle.numbers.specs.Refusals.{outcome, verdict};
ghost use Rattle.calls.specs.Calls.{Does};
ghost use Rattle.calls.specs.Replay.{call_words, call_count, call_at, call_fits, answer_count, replay_verdict, Replayed};
ghost use Rattle.calls.specs.internal.Making.{put_answer, CallsMade};

use numbers::refusal::Refusal;

// The words that say a call: words lent, kind, and then w, 0, 0 or j, t, entry.
const CALL_WORDS: usize = 5;

// The kinds of calls.
const EXTEND: u32 = 0;

const CORRECT: u32 = 1;

// What 32 bits keep of twice n.
fn twice(n: usize) -> u32
    ensures { result ≡ low_word (2 * n) }
{
    (2 * (n % 2147483648)) as u32
}

// Whether call i can be made on a slice of so many words.
fn call_fits(size: usize, calls: &[u32], i: usize) -> bool
    requires { call_words * i + call_words ≤ length calls.now }
    ensures { result ≡ call_fits size calls.now i }
{
    let from = CALL_WORDS * i;
    let corrects = calls[from + 1] == CORRECT;
    calls[from] as usize <= size
        && (corrects || (calls[from + 1] == EXTEND && calls[from + 3] == 0 && calls[from + 4] == 0))
}

fn calls_fit(size: usize, calls: &[u32]) -> bool
    ensures { result ≡ all_to (call_count calls.now) (call_fits size calls.now) }
{
    (0..calls.len() / CALL_WORDS).all(|i| call_fits(size, calls, i))
}

// Refusals 5 and 10.
fn check_calls(size: usize, calls: &[u32], room: usize) -> Result<(), Refusal>
    ensures { verdict result ≡ replay_verdict size calls.now room }
{
    if calls.len() % CALL_WORDS != 0 {
        return Err(Refusal::Rows);
    }
    if !calls_fit(size, calls) {
        return Err(Refusal::Rows);
    }
    let count = calls.len() / CALL_WORDS;
    if room / 2 < count {
        return Err(Refusal::Short(twice(count)));
    }
    Ok(())
}

// The two words of call i.
fn put_pair(first: u32, second: u32, i: usize, answers: &mut [u32])
    requires { 2 * i + 2 ≤ length answers.old }
    ensures { answers.new ≡ set (set answers.old (2 * i) first) (2 * i + 1) second }
{
    answers[2 * i] = first;
    answers[2 * i + 1] = second;
}

// The answer of call i.
fn put_answer(answer: Result<u32, Refusal>, i: usize, answers: &mut [u32])
    requires { 2 * i + 2 ≤ length answers.old }
    ensures { answers.new ≡ put_answer (outcome answer) i answers.old }
{
    match answer {
        Ok(w) => put_pair(0, w, i, answers),
        Err(r) => put_pair(r.number(), r.detail(), i, answers),
    }
}

// Call i, on the words that it is lent.
fn make_call(calls: &[u32], i: usize, sheet: &mut [u32]) -> Result<u32, Refusal>
    requires { call_words * i + call_words ≤ length calls.now }
    ensures { Does (call_at calls.now i).asked sheet.old (outcome result) sheet.new }
{
    let from = CALL_WORDS * i;
    if calls[from + 1] == EXTEND {
        return extend::extend(sheet, calls[from + 2]);
    }
    correct::correct(sheet, calls[from + 2], calls[from + 3], calls[from + 4])
}

// Each call finds the words that the one before it left.
fn make_calls(calls: &[u32], sheet: &mut [u32], answers: &mut [u32])
    requires { (answer_count calls.now ≤ length answers.old) × ((i : ℕ) → i < call_count calls.now → (call_at calls.now i).lent ≤ length sheet.old) }
    ensures { CallsMade (call_count calls.now) calls.now sheet.old sheet.new answers.old answers.new }
{
    for i in 0..calls.len() / CALL_WORDS {
        let words = calls[CALL_WORDS * i] as usize;
        let answer = make_call(calls, i, &mut sheet[..words]);
        put_answer(answer, i, answers);
    }
}

// Makes the calls of a list on a sheet, each lent so many of its first words, and writes their answers: 0 and the number accepted, or the refusal's number
// and detail.
pub fn replay(sheet: &mut [u32], calls: &[u32], answers: &mut [u32]) -> Result<u32, Refusal>
    ensures { Replayed calls.now sheet.old answers.old (outcome result) sheet.new answers.new }
{
    check_calls(sheet.len(), calls, answers.len())?;
    make_calls(calls, sheet, answers);
    Ok(twice(calls.len() / CALL_WORDS))
}
