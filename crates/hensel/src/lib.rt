// Hensel factors by their conditions: definitions and laws, and no function. `specs/Factors` is what the contracts of the sheet's calls cite.

#![tactic(auto)]
