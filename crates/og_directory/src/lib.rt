//! The directory: what a home knows of each of its blocks, and what it does with a message.
//!
//! Below stand messages (`og_msg`) and sets of groups of nodes (`og_sharers`); above stands a node's
//! home part, which keeps an entry and a line for each block.
//!
//! The table kept here is the home's: seven states, eleven kinds of messages, and for each pair that
//! has a row the next state, what becomes of the home's line, and the letters in the order in which
//! they are sent. It is made after the directory protocol of the SGI Origin (J. Laudon and D.
//! Lenoski, "The SGI Origin: A ccNUMA Highly Scalable Server", ISCA 1997), with its speculative
//! replies, its races of write-backs with interventions, its negative acknowledgements and its
//! groups of sharers; the states of poison are this machine's own.
//!
//! An [`Entry`] is two words. A row takes no memory and looks at no other block; it costs a few
//! instructions, and one more letter for each sharer that has to drop its copy.
#![tactic(auto)]

mod entry;
mod home;
mod rows;

pub use entry::{Entry, State};
pub use home::home_step;

#[cfg(test)]
mod tests;
