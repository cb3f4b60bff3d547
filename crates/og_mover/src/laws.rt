//! A mover stays one, whatever it does and whatever it takes.
//!
//! What is known of each mover stands in `specs/Sound`: its page table is one, and its job fits the page table. The layers above
//! carry it from event to event by this law.

ghost use Rattle.og_mover.specs.Laws.{MoverStays};

/// A mover stays one: at the start, after each step of its own, and after each message that has a row.
pub fn mover_stays()
    ensures { MoverStays }
{}
