//! The text of a run, both ways.
//!
//! Below stand the names of choices, notes and settings; above, the commands that print runs and
//! read them. The table of a text's lines is kept here (`specs/Text`): a head with the settings, a
//! line for each choice and each note, and an end. Which texts are texts of a run is said by the
//! same table (`specs/Grammar`): a line is in the grammar exactly where it is the text of some item
//! with its numbers in their ranges.
//!
//! Writing adds to one vector. Reading makes one pass: a line is split into words and read by its
//! first word, and what was read is written into one buffer that is kept for all lines, and compared
//! with the line. So a blank too many, a leading zero or a number out of its range is seen without a
//! rule of its own. Nothing is allocated for a line but what is kept of it.
#![tactic(auto)]

mod item;
mod line;
mod listed;
mod ranges;
mod read;
#[cfg(test)]
mod tests;
mod word;
mod write;

pub use item::{End, Head, Item, Place};
pub use listed::Listed;
pub use read::{TextFault, Trace, read_text};
pub use write::{count_accesses, write_text};
