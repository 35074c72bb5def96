// What the reader of sheets is to find in a text: definitions in specs/, that they are what document 02 says in proofs/. This crate has
// no code.
#![tactic(auto)]
