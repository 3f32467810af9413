// No code: what this crate has stands in specs/ (definitions) and proofs/ (theorems).
#![tactic(auto)]
