// The theorem of a run of calls (document 01, "A run of calls"): specs/Demand3.antt states it, proofs/Demand3.antt proves it.
// specs/WholeCalls.antt has the sentences about whole calls, specs/Worthless.antt wrong calls that the theorem is false of.
// All are about the definitions of `rules`; no code is here.
#![tactic(auto)]
