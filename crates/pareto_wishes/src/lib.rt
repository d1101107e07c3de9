// Dominance told wish by wish, with the substitutable values of each wish (specs/). No code.
#![tactic(auto)]
