// Long sums of products, eight at a time. These trust their caller: they have a `requires`, and are for the crates of this repository. All are proved for every
// modulus below 2^24.
#![tactic(auto)]

pub mod tile; // eight sums at a time
pub mod weights; // the rows of a table, each times its weight
