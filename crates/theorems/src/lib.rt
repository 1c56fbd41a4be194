// The end theorems and the starred examples: definitions and proofs, and no function. `specs/Theorems` is the list.

#![tactic(auto)]
