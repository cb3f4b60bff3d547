//! Whatever a home takes is rows of the theory, said of the homes of the machine.
//!
//! Below stand the homes' definitions (`og_home`, `og_node`), what is seen of them with numbers for frames (`og_seen`), and the homes'
//! table of the machine of functions (`og_relate_home`). The table kept here is the home's, message by message and entry by entry: where
//! the machine shows a world of the theory, and a message is in flight to a home, the home's own table has a row for it, and after it
//! the machine shows a world to which events of the theory lead. Beside it stands that a home stays one.
//!
//! There is no code to run: each function is a law, its contract, with an empty body.
#![tactic(auto)]

ghost use Rattle.og_refine_home.specs.Laws.{HomesTake, HomesStay};

/// A message in flight to a home has its row there, and is served by rows of the theory.
pub fn homes_take()
    ensures { HomesTake }
{}

/// A home is one of its machine at the start, and after each message that it takes: its entries name nodes that there are.
pub fn homes_stay()
    ensures { HomesStay }
{}
