// Shamir's sharing over any field: definitions and statements in specs/, their proofs in proofs/. This crate has no code.
#![tactic(auto)]
