// The split: a polynomial in two parts, and so its factors, to so many terms, for any modulus and roots of any power. These trust their caller: they have a `requires`,
// and are for the crates of this repository. All are proved for every modulus below 2^24.
#![tactic(auto)]

pub mod factors; // from the polynomial to its factors
pub mod node; // one polynomial in two parts
