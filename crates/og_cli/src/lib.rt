//! The command: what it reads and writes, and what it prints.
//!
//! Below stand the words (`og_words`), runs from their files to their printed text (`og_print`), the assembler and the printer over files
//! (`og_tools`), and the files and sinks of `og_io`. Above stand the command that also runs threads (`og_run`), and the comparison of the
//! examples. `runs` answers for simulations, replays and storms, `tools` for the assembler and the printer; `exit` is how the command ends,
//! and `report` the line that tells it; `top` is the command from its words to its answer.
//!
//! The table of statuses and of the lines on the standard error is kept here (`specs/Exit`).
#![tactic(auto)]

pub mod exit;
pub mod report;
pub mod runs;
mod tools;
pub mod top;
