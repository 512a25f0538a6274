// The claim about roles, and its proof. There is no code here.
#![tactic(auto)]
