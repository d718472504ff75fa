// The worked examples of document 01: definitions and proofs only.
#![tactic(auto)]
