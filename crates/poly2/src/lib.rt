// Polynomials over two elements: definitions and statements in specs/, proofs in proofs/. This crate has no code.
#![tactic(auto)]
