// Why a call is refused. An operation answers a `Result` whose error is a refusal.
ghost use Rattle.std.specs.Prelude.{◌≡◌};
ghost use Rattle.numbers.specs.Refusals.{number, detail};

use std::fmt;

// The rows of the table of refusals, with what the detail word of each tells.
#[derive(Clone, Copy, Debug, PartialEq, Eq)]
pub enum Refusal {
    ModulusRange,
    Composite(u32), // its least divisor above 1
    Degree,
    Terms,
    Rows,
    Unreduced(u32), // where the first word stands that is p or more
    NotMonic,
    RootList,
    Unsplit,
    Short(u32), // how many words, or bytes, are needed
    Flat,
    NoUnit,
    Spoiled,
    Beyond,
    Behind,
    NoFactor,
    Unreadable,
    Deep,
    High,
    Entry,
    KnownTerms,
    MultipleRoot(u32), // the least one
    Many,
}

impl Refusal {
    // Its number in the table.
    pub fn number(self) -> u32
        ensures { result ≡ number self }
    {
        match self {
            Refusal::ModulusRange => 1,
            Refusal::Composite(_) => 2,
            Refusal::Degree => 3,
            Refusal::Terms => 4,
            Refusal::Rows => 5,
            Refusal::Unreduced(_) => 6,
            Refusal::NotMonic => 7,
            Refusal::RootList => 8,
            Refusal::Unsplit => 9,
            Refusal::Short(_) => 10,
            Refusal::Flat => 11,
            Refusal::NoUnit => 12,
            Refusal::Spoiled => 13,
            Refusal::Beyond => 14,
            Refusal::Behind => 15,
            Refusal::NoFactor => 16,
            Refusal::Unreadable => 17,
            Refusal::Deep => 18,
            Refusal::High => 19,
            Refusal::Entry => 20,
            Refusal::KnownTerms => 21,
            Refusal::MultipleRoot(_) => 22,
            Refusal::Many => 24,
        }
    }

    // Its detail word: 0 where it has nothing to tell.
    pub fn detail(self) -> u32
        ensures { result ≡ detail self }
    {
        match self {
            Refusal::Composite(divisor) => divisor,
            Refusal::Unreduced(position) => position,
            Refusal::Short(needed) => needed,
            Refusal::MultipleRoot(root) => root,
            _ => 0,
        }
    }
}

impl fmt::Display for Refusal {
    fn fmt<W: fmt::Write>(&self, f: &mut fmt::Formatter<W>) -> fmt::Result {
        write!(f, "refused {} {}", self.number(), self.detail())
    }
}
