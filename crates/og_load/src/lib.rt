//! What a command reads before its run: the program of an image file, and the choices of a choices file.
//!
//! Below stand files (`og_io`), programs (`og_elf`, `og_image`), the text of runs (`og_trace`) and the settings that words give
//! (`og_words`); above stand the commands. `specs/Images` says which fault of an image file is told, `specs/Choices` which of a choices
//! file, each in the order in which it is looked for. A file that is too long is never read to its end.
#![tactic(auto)]

mod choices;
mod image;
#[cfg(test)]
mod tests;

pub use choices::{ChoiceFault, Choices, load_choices};
pub use image::{ImageFault, load_program};

/// Why a file isn't used.
#[derive(Clone, Copy, PartialEq, Eq, Debug)]
pub enum Unused<T> {
    /// It couldn't be read. Its name is among the failed ones.
    Unread,
    /// It was read, and has this fault.
    Fault(T),
    /// Want of memory.
    Memory,
}
