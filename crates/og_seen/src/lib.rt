//! The data of a machine seen as functions of numbers.
//!
//! Below stand the data (`og_cache`, `og_tlb`, `og_processor`, `og_home`, `og_mover`), and the machine of functions (`og_relate`), whose
//! frames and pages are numbers; above stands the step from the machine of nodes and mover to that one, actor by actor.
//! `specs/Numbers` gives frames their numbers, home after home, and pages theirs, in the order of the placed ones. `specs/Caches` and
//! `specs/Tlbs` say what is seen of a cache and of a TLB, `specs/Harts`, `Processors`, `Homes`, `Movers` and `Messages` what is seen of
//! the rest. `specs/Sound` says what the parts of a machine are between events, and `specs/Events` what is claimed of an event.
//!
//! There is no code to run: each function is a law, its contract, with an empty body.

#![tactic(auto)]

ghost use Rattle.og_seen.specs.Laws.{NumbersAreFrames, CachesAreSeen, TlbsAreSeen, PagesAreSeen};

/// A frame that there is has a number below the count of frames, its own, and each such number has its frame.
pub fn numbers_are_frames()
    ensures { NumbersAreFrames }
{}

/// Each change of a cache is seen as the change of one copy, and of no other.
pub fn caches_are_seen()
    ensures { CachesAreSeen }
{}

/// Each change of a TLB is seen as the change of one entry, or of two; where a frame is dropped, as that of the entries that name it.
pub fn tlbs_are_seen()
    ensures { TlbsAreSeen }
{}

/// Each placed page has its own number. The page of an access that a hart needs is placed.
pub fn pages_are_seen()
    ensures { PagesAreSeen }
{}
