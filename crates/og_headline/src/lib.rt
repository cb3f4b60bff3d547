//! What is claimed of every run that is printed, in one record; and that each run of the machine, in the order of its stamps, has it.
//!
//! Below stand the machine as it is defined (`og_machine`), the laws of every machine that a run leads to (`og_refine`), the laws of
//! runs (`og_runs`), and what the drain finds in a stopped machine (`og_drain_facts`). Above stand the machine in code and the
//! commands. `specs/Headline` has the record, and what a simulation, a replay and a refused choice are; `specs/Laws` what holds of them.
//!
//! There is no code to run: each function is a law, its contract, with an empty body.
#![tactic(auto)]

ghost use Rattle.og_headline.specs.Laws.{RunsArePrinted, SimulationsAreRuns, SimulationsAreFaithful, SimulationsGoOn, RunsNameChoices, RefusedChoicesAreNoRun};

/// The events of a run from the start, in the order of their stamps, are a run that may be printed: the headline holds of it. And a run
/// names its choices.
pub fn runs_are_printed()
    ensures printed { RunsArePrinted }
    ensures choices { RunsNameChoices }
{}

/// The events that a simulation draws are a run from the start, of so many events at most, and of just so many where its end isn't quiet.
/// What is claimed of a printed run holds of them in the order in which they are drawn, too.
pub fn simulations_are_runs()
    ensures runs { SimulationsAreRuns }
    ensures faithful { SimulationsAreFaithful }
{}

/// In a machine that isn't quiet a simulation has a next choice, which is enabled and has a step.
pub fn simulations_go_on()
    ensures { SimulationsGoOn }
{}

/// Choices of which one is refused are no run.
pub fn refused_choices_are_no_run()
    ensures { RefusedChoicesAreNoRun }
{}
