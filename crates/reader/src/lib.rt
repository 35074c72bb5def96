// The reader of sheets: document 02, §2.
#![tactic(auto)]

mod decode;
mod judge;
mod lines;
mod read;
mod taking;

pub use read::read_sheet;
