//! The assembler and the printer over files: from the file of a source to a raw image on a sink, and from a raw image
//! back to the text of its program.
//!
//! Below stand the assembler and the printer (`rv_asm`), the raw form of a program (`og_elf`), and shelves and sinks
//! (`og_io`). Above stands the command, which has a word for each of the two calls. This crate keeps the raw image that a
//! program without data has (`specs/Images`), and how the two calls end (`specs/Tools`). Each of them reads one file and
//! writes one text.
#![tactic(auto)]

mod image;
mod laws;
mod raw;
mod source;
#[cfg(test)]
mod tests;

pub use image::{DisassembleFault, disassemble_file};
pub use laws::{images_hold_their_words, texts_assemble};
pub use source::{AssembleFault, assemble_file};
