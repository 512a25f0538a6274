// Worked days of a host program: what its promises ask for can hold. There is no code here.
#![tactic(auto)]
