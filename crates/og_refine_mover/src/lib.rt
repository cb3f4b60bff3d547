//! Whatever the mover does is rows of the theory, said of the mover of the machine.
//!
//! Below stand the mover's definitions (`og_pager`, `og_policy`, `og_mover`), what is seen of it with numbers for frames and pages
//! (`og_seen`), and the mover's rows in the machine of functions (`og_relate`, `og_relate_mover`). The table kept here is the mover's:
//! where the machine shows a world of the theory, each act of the mover is rows of it; and a message in flight to the mover has a row in
//! its own table, and after it the machine shows a world to which events of the theory lead. Which pages are moved is the
//! policy's to say: in the theory any page may be. And a mover of the machine's sizes stays one.
//!
//! There is no code to run: each function is a law, its contract, with an empty body.
#![tactic(auto)]

ghost use Rattle.og_refine_mover.specs.Laws.{MoverActs, MoverTakes, MoverStaysOf};

/// An act of the mover is rows of the theory.
pub fn mover_acts()
    ensures { MoverActs }
{}

/// A message in flight to the mover has its row there, and is taken by rows of the theory.
pub fn mover_takes()
    ensures { MoverTakes }
{}

/// At its start, after each act and after each message that has a row, the mover is one of the machine's sizes.
pub fn mover_stays_of()
    ensures { MoverStaysOf }
{}
