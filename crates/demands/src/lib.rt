// What the calls promise together: the three demands as theorems over the calls' contracts (specs/). There is no code
// here.
#![tactic(auto)]
