// Power cuts: the claim about every list of calls, and its proof. There is no code here.
#![tactic(auto)]
