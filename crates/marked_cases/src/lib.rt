// The marked cases of document 01 as one table, proved about the definitions: the statement in specs/Question.antt, the
// table in specs/Table.antt, the proof in specs/Proof.antt. There is no code here.
#![tactic(auto)]
