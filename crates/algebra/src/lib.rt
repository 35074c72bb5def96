// What a field is: definitions in specs/, their consequences in proofs/. This crate has no code.
#![tactic(auto)]
