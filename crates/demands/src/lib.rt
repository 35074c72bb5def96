// What holders may rely on: statements about split and combine in specs/, their proofs in proofs/. This crate has no code.
#![tactic(auto)]
