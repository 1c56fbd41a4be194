// Numbers modulo a prime, and the refusals by which every operation of the engine judges its input.
#![tactic(auto)]

pub mod limits; // how large a modulus, a degree and a series can be
pub mod refusal; // the refusal, and the answers that carry it
mod primes; // the table in which divisors are searched
pub mod kernel; // the least divisor above 1, and inverses modulo a prime: for callers that have judged
pub mod judge; // the checks that operations share
