// What callers of the entries may rely on, and two statements about the definitions: why combine needs no limit on rows, and that K's
// coefficient is the only one. They stand in specs/, their proofs in proofs/. This crate has no code.
#![tactic(auto)]
