// Lists of calls with power cuts, worked out by the checker from the definitions (proofs/Lists.antt), and what the claims about power cuts,
// times and earlier entries give for them (proofs/Drawn.antt, proofs/Dated.antt, proofs/Viewed.antt). There is no code here.
#![tactic(auto)]
