// One pass along the text that decides whether it can be read, with no recursion: brackets are counted.
ghost use Rattle.std.specs.Prelude.{◌≡◌, ℕ, ◌+◌, ◌≤◌, ◌<◌, length};
ghost use Rattle.formula.specs.internal.Survey.{at, failed, capped, whole, blank_next, digit_next, letter_next, sign_next, star_next, caret_next, open_next, close_next, glance_next, is_read, deepest, Deeper};
ghost use Rattle.formula.specs.internal.Scan.{State, Stack, scan};

use crate::bytes::{CLOSE, OPEN};
use crate::limits::{LARGEST_POWER, MOST_DIGITS};
use crate::{Kind, kind_of};

// Where the pass stands.
#[derive(Clone, Copy, PartialEq, Eq)]
pub enum Mode {
    Begin, // a sum begins
    Want, // an element must come
    Number, // within a number
    After, // an element has ended
    Caret, // a power must come
    Power, // within a power
    Done, // a power has ended
    Stuck, // the text cannot be read
}

// The mode, digits and value of the number that is read, where 256 stands for all above 255, and the brackets that are open. Each byte of the text makes
// one of these: so the fields are as small as they can be, and leave no gap to copy.
#[derive(Clone, Copy)]
pub struct Glance {
    pub mode: Mode,
    pub digits: u8,
    pub value: u16,
    pub depth: u16,
}

fn state_of(mode: Mode, digits: u8, value: u16, depth: u16) -> Glance
    ensures { result ≡ at mode digits value depth }
{
    Glance {
        mode,
        digits,
        value,
        depth,
    }
}

fn stuck() -> Glance
    ensures { result ≡ failed }
{
    state_of(Mode::Stuck, 0, 0, 0)
}

fn cap(v: u32) -> u16
    ensures { result ≡ capped v }
{
    v.min(LARGEST_POWER + 1) as u16
}

fn is_whole(mode: Mode, value: u16) -> bool
    ensures { result ≡ whole (at mode 0 value 0) }
{
    match mode {
        Mode::Number | Mode::After | Mode::Done => true,
        Mode::Power => u32::from(value) <= LARGEST_POWER, // 256 stands for all above
        _ => false,
    }
}

fn after_blank(g: Glance) -> Glance
    ensures { result ≡ blank_next g }
{
    match g.mode {
        Mode::Number => state_of(Mode::After, 0, 0, g.depth), // the number has ended
        Mode::Power if u32::from(g.value) <= LARGEST_POWER => state_of(Mode::Done, 0, 0, g.depth),
        Mode::Power => stuck(),
        _ => g,
    }
}

fn after_digit(g: Glance, d: u32) -> Glance
    requires { (d ≤ 9) × (g.value ≤ 256) }
    ensures { result ≡ digit_next g d }
{
    match g.mode {
        Mode::Begin | Mode::Want => state_of(Mode::Number, 1, 0, g.depth),
        Mode::Number if u32::from(g.digits) < MOST_DIGITS => {
            state_of(Mode::Number, g.digits + 1, 0, g.depth)
        }
        Mode::Caret => state_of(Mode::Power, 1, cap(d), g.depth),
        Mode::Power if u32::from(g.digits) < MOST_DIGITS => state_of(
            Mode::Power,
            g.digits + 1,
            cap(u32::from(g.value) * 10 + d),
            g.depth,
        ),
        _ => stuck(),
    }
}

fn after_letter(g: Glance) -> Glance
    ensures { result ≡ letter_next g }
{
    match g.mode {
        Mode::Begin | Mode::Want => state_of(Mode::After, 0, 0, g.depth),
        _ => stuck(),
    }
}

fn after_sign(g: Glance) -> Glance
    ensures { result ≡ sign_next g }
{
    if g.mode == Mode::Begin || is_whole(g.mode, g.value) {
        state_of(Mode::Want, 0, 0, g.depth)
    } else {
        stuck()
    }
}

fn after_star(g: Glance) -> Glance
    ensures { result ≡ star_next g }
{
    if is_whole(g.mode, g.value) {
        state_of(Mode::Want, 0, 0, g.depth)
    } else {
        stuck()
    }
}

fn after_caret(g: Glance) -> Glance
    ensures { result ≡ caret_next g }
{
    match g.mode {
        Mode::Number | Mode::After => state_of(Mode::Caret, 0, 0, g.depth), // not after a power
        _ => stuck(),
    }
}

fn after_open(g: Glance) -> Glance
    requires { g.depth < 65535 }
    ensures { result ≡ open_next g }
{
    match g.mode {
        Mode::Begin | Mode::Want => state_of(Mode::Begin, 0, 0, g.depth + 1),
        _ => stuck(),
    }
}

fn after_close(g: Glance) -> Glance
    ensures { result ≡ close_next g }
{
    if is_whole(g.mode, g.value) && 0 < g.depth {
        state_of(Mode::After, 0, 0, g.depth - 1)
    } else {
        stuck()
    }
}

// One byte more.
fn next(g: Glance, k: Kind) -> Glance
    requires { (g.depth < 65535) × (g.value ≤ 256) × ((d : ℕ) → k ≡ Kind.Digit d → d ≤ 9) }
    ensures { result ≡ glance_next g k }
{
    match k {
        Kind::Digit(d) => after_digit(g, d),
        Kind::Blank => after_blank(g),
        Kind::LetterX | Kind::LetterY => after_letter(g),
        Kind::Plus | Kind::Minus => after_sign(g),
        Kind::Star => after_star(g),
        Kind::Caret => after_caret(g),
        Kind::Open => after_open(g),
        Kind::Close => after_close(g),
        Kind::Other => stuck(),
    }
}

// Whether the grammar derives the text.
pub fn readable(text: &[u8]) -> bool
    requires { length text.now ≤ 4096 }
    ensures { result ≡ is_read (scan (State.lead Stack.bottom) text.now) }
{
    let mut g = state_of(Mode::Begin, 0, 0, 0);
    for b in text {
        g = next(g, kind_of(*b));
    }
    is_whole(g.mode, g.value) && g.depth == 0
}

// How many brackets are open, and the most that were.
#[derive(Clone, Copy)]
pub struct Depth {
    pub level: u32,
    pub most: u32,
}

fn deeper(b: u8, level: u32, most: u32) -> Depth
    requires { level < 4294967295 }
    ensures { Deeper b level most result }
{
    match b {
        OPEN => Depth {
            level: level + 1,
            most: most.max(level + 1),
        },
        CLOSE => Depth {
            level: level.saturating_sub(1),
            most,
        },
        _ => Depth { level, most },
    }
}

// How deep the brackets of a text stand within each other.
pub fn brackets(text: &[u8]) -> u32
    requires { length text.now ≤ 4096 }
    ensures { result ≡ deepest 0 0 text.now }
{
    let mut level: u32 = 0;
    let mut most: u32 = 0;
    for b in text {
        let d = deeper(*b, level, most);
        level = d.level;
        most = d.most;
    }
    most
}
