//! A run from its files to its printed text: a simulation, a replay of choices, and the storm.
//!
//! Below stand the files' programs and choices (`og_load`), the machine in code and who drives it (`og_engine`, `og_driver`), and the text
//! of runs (`og_trace`); above stands the command. `specs/Runs` says which run is printed and how its printing ends, `specs/Files` how a
//! simulation, a replay and any other run of the program in a file end, by what their files hold, and with what becomes of the sink, and
//! `specs/Storm` the storm's one line.
//!
//! A text is written only when it stands whole. The sink is as before wherever no text was written.
#![tactic(auto)]

mod fault;
mod place;
mod play;
mod replay;
mod simulate;
mod storm;
#[cfg(test)]
mod tests;
mod text;

pub use fault::RunFault;
pub use place::place_machine;
pub use replay::replay_file;
pub use simulate::simulate_file;
pub use storm::print_storm;
pub use text::print_run;
