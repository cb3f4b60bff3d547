//! The machine of all actors, defined: up to 128 nodes and the mover, which exchange messages.
//!
//! Below stand the nodes (`og_node`) and the mover (`og_mover`), which say what an actor makes of its own next step and of a
//! message, and runs of actors (`og_runs`), which say what a step and a run are. This crate puts them together: one type of
//! actor with its two cases, the rules of both as one protocol, the start of a program, which choices are enabled and why
//! another one isn't (`specs/Machine`), in which order they stand, which of them a simulation draws and which one drains a
//! stopped machine (`specs/Choices`), where a block of a page is and which line the machine holds for it (`specs/Held`),
//! and that no block has two writable copies (`specs/OneWriter`). Above stands what is proved of its runs, and the machine
//! in code. There is no code here: each function is a law, its contract, with an empty body.
#![tactic(auto)]

pub mod laws;
