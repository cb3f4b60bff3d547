//! Flat memory: the plain machine that every run of the directory machine is compared with.
//!
//! Its definition (`specs/Flat.antt`) is a line per block of 128 addresses and a reservation per
//! hart, by the rule of one block in `og_line`, which stands below. The machine above cites it: the
//! accesses completed in a run are a run of this memory. The module `machine` keeps it as a plain
//! program, for tests and checkers: the lines of a program's pages, behind a binary search.
#![tactic(auto)]

ghost use Rattle.og_flat.specs.Laws.{OthersStay, StartsWithBytes};

pub mod machine;
#[cfg(test)]
mod tests;

/// An access changes no other block and no other hart's reservation.
pub fn others_stay()
    ensures { OthersStay }
{}

/// At the start each address has its byte, no block has seen a store, and no hart has a reservation.
pub fn starts_with_bytes()
    ensures { StartsWithBytes }
{}
