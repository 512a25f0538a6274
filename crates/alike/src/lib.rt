// Bytes of a sector that is not data mean nothing, to any call and to the claim about power cuts: definitions and proofs. There is no code here.
#![tactic(auto)]
