// The window machine as a definition (specs/), and its theorems (specs/Laws/). There is no code here.
#![tactic(auto)]
