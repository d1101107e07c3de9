// Mathematics of a log whose rows are put in another order: the theorem in specs/Theorems.antt. There is no code here.
#![tactic(auto)]
