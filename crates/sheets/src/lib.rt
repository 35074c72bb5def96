// Sets of rows as text: the sheets of document 02, §1.
#![tactic(auto)]

mod head;
mod length;
mod put;
mod write;

pub use head::Head;
pub use length::{decimal_length, head_length, row_length};
pub use put::{LINE_FEED, TAB};
pub use write::write_sheet;
