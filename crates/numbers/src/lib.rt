// Document 01's numbers on both sides, as theorems: specs/Numbers.antt.
#![tactic(auto)]
