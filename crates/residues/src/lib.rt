// A number modulo p, together with its p. Anyone can fill one in, so every operation judges what it holds.
#![tactic(auto)]

ghost use Rattle.std.specs.Prelude.{◌≡◌, ◌≤◌, length};
ghost use Rattle.numbers.specs.Refusals.{judge, outcome, verdict};
ghost use Rattle.residues.specs.Number.{operand_checks, sum_of, difference_of, product_of, inverse_number};

use numbers::judge::{check_modulus, first_large};
use numbers::kernel::inverse_of;
use numbers::refusal::Refusal;
use std::fmt;

#[derive(Clone, Copy)]
pub struct Number {
    pub p: u32,
    pub value: u32,
}

// Refusals 1, 2 and 6.
fn check_operands(p: u32, operands: &[u32]) -> Result<(), Refusal>
    requires { length operands.now ≤ 2 }
    ensures { verdict result ≡ judge (operand_checks p operands.now) }
{
    check_modulus(p)?;
    let at = first_large(p, operands);
    if at < operands.len() {
        return Err(Refusal::Unreduced(at as u32));
    }
    Ok(())
}

impl Number {
    pub fn sum(self, other: u32) -> Result<Number, Refusal>
        ensures { outcome result ≡ sum_of self other }
    {
        let Number { p, value } = self;
        check_operands(p, &[value, other])?;
        Ok(Number {
            p,
            value: (value + other) % p,
        })
    }

    pub fn difference(self, other: u32) -> Result<Number, Refusal>
        ensures { outcome result ≡ difference_of self other }
    {
        let Number { p, value } = self;
        check_operands(p, &[value, other])?;
        Ok(Number {
            p,
            value: (value + (p - other)) % p,
        })
    }

    pub fn product(self, other: u32) -> Result<Number, Refusal>
        ensures { outcome result ≡ product_of self other }
    {
        let Number { p, value } = self;
        check_operands(p, &[value, other])?;
        let v = (value as u64) * (other as u64) % (p as u64);
        Ok(Number { p, value: v as u32 })
    }

    pub fn inverse(self) -> Result<Number, Refusal>
        ensures { outcome result ≡ inverse_number self }
    {
        let Number { p, value } = self;
        check_operands(p, &[value])?;
        if value == 0 {
            return Err(Refusal::NoUnit);
        }
        Ok(Number {
            p,
            value: inverse_of(p, value),
        })
    }
}

impl fmt::Display for Number {
    fn fmt<W: fmt::Write>(&self, f: &mut fmt::Formatter<W>) -> fmt::Result {
        write!(f, "{} mod {}", self.value, self.p)
    }
}
