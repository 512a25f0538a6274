// The documents' bench examples, worked out by the checker from the definitions: proofs/Starred.antt. There is no code here.
#![tactic(auto)]
