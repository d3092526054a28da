//! The field and one check: definitions in specs/, theorems in proofs/. No function.
#![tactic(auto)]
