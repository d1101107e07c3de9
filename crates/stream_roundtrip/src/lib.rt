// Reading and writing undo each other: the theorems stand in specs/Theorems.antt. There is no code here.
#![tactic(auto)]
