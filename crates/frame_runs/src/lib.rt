// The theorem of a run, of the code of dance shows: specs/Runs.antt says it, proofs/Runs.antt proves it from what each call promises.
#![tactic(auto)]
