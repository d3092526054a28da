//! The code line, the layered machine, a decode call and the claim about two of them (SPEC 10.3): definitions in specs/, theorems in proofs/. No function.
#![tactic(auto)]
