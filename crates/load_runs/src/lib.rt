// Every load is a run of calls, and its listing prints that run's answers: specs/ says it, proofs/ has the theorem.
#![tactic(auto)]
