//! What the drain finds in every stopped machine that a run leads to.
//!
//! A stopped machine is one whose harts have all stopped. Its drain takes what was sent first, the mover's request for a block only
//! where nothing else is in flight, and lets the mover act where nothing is (`og_machine`, `specs/Choices`). `specs/Laws` says what
//! that needs, of the machine's own data; no law names the theory.
//!
//! There is no code to run: each function is a law, its contract, with an empty body.
#![tactic(auto)]

ghost use Rattle.og_drain_facts.specs.Laws.{DrainGoesOn, DrainEndsQuiet, NothingIsAsked, NoRequestFlies, BusyBlocksHaveRevisions, DrainMeetsNoBusyBlock, NoNakInTheDrain};

/// The drain's next choice is enabled and has a step; and there is none exactly where the machine is quiet.
pub fn the_drain_goes_on()
    ensures goes_on { DrainGoesOn }
    ensures quiet { DrainEndsQuiet }
{}

/// In a stopped machine no node has a request or a walk outstanding, and no request for a block is in flight.
pub fn nothing_is_asked()
    ensures nodes { NothingIsAsked }
    ensures flight { NoRequestFlies }
{}

/// Of each block that one node gives to another, by its home's entry, a revision is in flight in a stopped machine; so the drain takes
/// the mover's question for no such block, since it takes one only where nothing else is in flight.
pub fn busy_blocks_have_revisions()
    ensures revisions { BusyBlocksHaveRevisions }
    ensures drain { DrainMeetsNoBusyBlock }
{}

/// No step of the drain sends a refusal.
pub fn the_drain_refuses_nothing()
    ensures { NoNakInTheDrain }
{}
