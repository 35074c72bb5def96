// Shamir's sharing of byte strings: split and combine, with the rules of document 01.
#![tactic(auto)]

mod combine;
mod split;

pub use combine::{combine_bytes, combine_bytes_by_byte_lengths};
pub use split::split_bytes_with_participant_ids_iter;
