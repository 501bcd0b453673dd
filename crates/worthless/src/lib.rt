// Wrong tables, each refused by a theorem of `promises`: specs/ has the tables, proofs/ shows what each breaks.
#![tactic(auto)]
