// Algorithm 2 of document 000 as a statement, and that document 01's algorithm takes what it allows. There is no code here: read specs/ and
// proofs/Exactly.antt.
#![tactic(auto)]
