// Whole runs of the pair: definitions and proofs only.
#![tactic(auto)]
