//! The assembler and the printer: programs as text, one line for each instruction, both ways.
//!
//! Below stands the instruction table alone, and above it the commands.
#![tactic(auto)]

mod form;
mod labels;
mod laws;
mod line;
mod meaning;
mod names;
mod number;
mod printer;
mod source;
#[cfg(test)]
mod tests;
mod text;
mod token;

pub use form::Form;
pub use labels::Place;
pub use laws::{printed_assembles, words_decode};
pub use meaning::Registers;
pub use names::{Mnemonic, Ordering};
pub use printer::print;
pub use source::{SourceCause, SourceFault, Words, assemble};
use std::alloc::AllocError;

/// Want of memory.
pub type NoMemory = AllocError;
