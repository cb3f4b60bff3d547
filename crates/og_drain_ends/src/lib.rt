//! The drain of every stopped machine that a run leads to ends in a quiet machine.
//!
//! Below stand the measure, which falls with each event of a stopped machine (`og_drain`), and what the drain finds in such a machine
//! (`og_drain_facts`). `specs/Laws` has both laws: how many events there are at most, and what a simulation comes to.
//!
//! There is no code to run: the function is a law, its contract, with an empty body.
#![tactic(auto)]

ghost use Rattle.og_drain_ends.specs.Laws.{DrainEnds, SimulationsEndQuiet};

/// From a machine whose harts have all stopped the drain leads to a quiet one, by `64 * (32 + f) * (N + 4)` events at most, where `f`
/// messages are in flight and the machine has `N` nodes; so a simulation that may go on for so many events ends in a quiet machine.
pub fn the_drain_ends()
    ensures events { DrainEnds }
    ensures simulations { SimulationsEndQuiet }
{}
