//! A number that falls with each event of a stopped machine.
//!
//! Below stand the definitions of the machine of all actors (`og_machine`) and of its parts: homes, processors, the mover. Above stands
//! the machine of a run, whose drain ends since the number falls. Nothing of the theory is needed here: the tables themselves see to it.
//!
//! There is no code to run: each function is a law, its contract, with an empty body.
#![tactic(auto)]

ghost use Rattle.og_drain.specs.Laws.{HomesPay, SharersAreFew, ProcessorsPay, MoverPays, StoppedMachinesPay, MeasureIsBounded};

/// What a home sends for a message that is no request weighs less than the message, where the mover's question for a block isn't refused.
pub fn homes_pay()
    ensures { HomesPay }
{}

/// A home sends as many invalidations as there are nodes, at most.
pub fn sharers_are_few()
    ensures { SharersAreFew }
{}

/// What a processor that waits for nothing sends and keeps for a message weighs less than the message and what it kept before, and it
/// waits for nothing again.
pub fn processors_pay()
    ensures { ProcessorsPay }
{}

/// What the mover sends and has left after a step of its own weighs less than what it had left before, and after a message less than
/// that and the message.
pub fn mover_pays()
    ensures { MoverPays }
{}

/// A step of a machine whose harts have stopped and whose nodes wait for nothing makes the measure smaller, in any order, but for a
/// question of the mover's that is refused; and its nodes wait for nothing again.
pub fn stopped_machines_pay()
    ensures { StoppedMachinesPay }
{}

/// The measure of a machine of nodes and a mover is bounded by the number of its nodes and of its messages in flight.
pub fn measure_is_bounded()
    ensures { MeasureIsBounded }
{}
