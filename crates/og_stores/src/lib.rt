//! No line has seen more stores than there were events.
//!
//! Below stand the definitions of the machine of all actors (`og_machine`) and of its parts: homes, processors, the mover. Above stands
//! what runs a machine: its calls of processors need lines that have seen fewer than 2^63 stores, and a run of fewer events has no other.
//! Nothing of the theory is needed here: an event makes one access at most, and all else copies lines.
//!
//! There is no code to run: each function is a law, its contract, with an empty body.
#![tactic(auto)]

ghost use Rattle.og_stores.specs.Laws.{StoresAreBounded, LinesAreLow, SentLinesAreLow};

/// No line in a cache, a request, a home's memory, the mover's job or a message in flight has seen more stores than there were events.
pub fn stores_are_bounded()
    ensures { StoresAreBounded }
{}

/// After fewer than 2^63 events the lines of each processor and of each message in flight have seen as few stores as a processor's calls need.
pub fn lines_are_low()
    ensures { LinesAreLow }
{}

/// After fewer than 2^55 events the line of each message in flight has seen as few stores as the mover's test wants.
pub fn sent_lines_are_low()
    ensures { SentLinesAreLow }
{}
