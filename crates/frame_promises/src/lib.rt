// The theorem of a run of calls on a frame table (request P2): specs/BoundedWait.antt states it, proofs/BoundedWait.antt proves it.
// specs/Worthless.antt has wrong tables that the theorem is false of. All is about the definitions of `frames`; no code is here.
#![tactic(auto)]
