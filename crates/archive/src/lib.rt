// A later save never alters what an earlier entry shows: the claim, and its proof. There is no code here.
#![tactic(auto)]
