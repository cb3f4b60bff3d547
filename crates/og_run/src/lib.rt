//! The command `run`, which begins a run in threads; and with it the whole command.
//!
//! Below stand the machine's actors in threads (`og_threads`), how a run that began so is finished (`og_finish`), runs from their files to
//! their printed text (`og_print`), and the command without threads (`og_cli`). Above stand programs of one line. `file` has a run
//! from the file of its program to its text; `top` is the command from its words to its answer; `program` the whole program over
//! the system's files and streams.
//!
//! The threads' part of a run is what the actors' logs say of it. That more than one thread ran, and that threads get on, no clause says.
#![tactic(auto)]

mod file;
pub mod program;
pub mod top;
