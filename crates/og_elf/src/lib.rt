//! Program files: ELF-64 executables for RISC-V, and the raw form of a program.
//!
//! Below stand the names that all crates share and the numbers of a file (`byteorder`); above, the
//! image that is made of the segments. This crate keeps the table of a file's faults: eleven causes
//! in their order, each check made over all program headers before the next, and for each cause the
//! offset that is named (`specs/Elf`).
//!
//! Reading takes one pass over the program headers a check, and a sort for the overlaps: n log n
//! for n headers, and log n such sorts where two of them do overlap.
#![tactic(auto)]

mod fault;
mod header;
mod overlap;
mod raw;
mod read;
mod segment;
#[cfg(test)]
mod tests;

pub use fault::{ElfCause, ElfFault};
pub use header::Header;
pub use raw::{RawFault, read_raw};
pub use read::read_elf;
pub use segment::{Bytes, Elf, Segment, Segments, Span};
