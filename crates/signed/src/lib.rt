// Numbers modulo p as people write them, with a sign. It trusts its caller: it has a `requires`, and is for the crates of this repository.
#![tactic(auto)]

ghost use Rattle.std.specs.Prelude.{◌≤◌, ◌<◌};
ghost use Rattle.numbers.specs.Limits.{largest_modulus};
ghost use Rattle.signed.specs.Signed.{IsSigned};

// The one number above −p/2 and up to p/2 that is congruent to v.
pub fn representative(p: u32, v: u32) -> i32
    requires { (v < p) × (p ≤ largest_modulus) }
    ensures { IsSigned p v result }
{
    if v <= p - v {
        return v as i32;
    }
    -((p - v) as i32)
}
