// The theorems of a run, of the code: specs/Runs.antt says them, proofs/Runs.antt proves them from what each call of the table promises.
#![tactic(auto)]
