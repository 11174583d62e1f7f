// Document 01's checked examples. There is no code here: specs/Table.antt has the table, proofs/Checked.antt the one proof.
#![tactic(auto)]
