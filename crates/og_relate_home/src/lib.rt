//! Whatever a home takes is a row of the theory, or two.
//!
//! Below stands `og_relate`, which relates a machine to a world of the theory (`og_whole`), and says what each row owes. This
//! crate keeps the homes' table: each message that a home takes while it is in flight has a row there, and the machine
//! after it shows a world to which events of the theory lead. `specs/Steps` is the table, message by message and entry by
//! entry (`take` is all of it; reads and write-backs stand in `og_relate`), and `specs/Laws` what is claimed of each message.
//! Which requests count is the table's alone: in the theory a notice may go while any request for a block that isn't
//! poisoned is out.
//!
//! The functions have no code: each is the place of laws. `L` is the type of a line, `H` that of a hart. No law says that a
//! message comes.
#![tactic(auto)]

ghost use Rattle.og_relate_home.specs.Laws.{ReadTaken, ReadExclusiveTaken, UpgradeTaken, WriteBackTaken, SharingWriteBackTaken, SharingTransferTaken, DirtyTransferTaken, PoisonBackTaken, PoisonCleanTaken, PoisonReadTaken, RearmTaken, CopyInTaken, CleanFrameTaken, Taken};

/// A node's request has a row at every entry, but an upgrade of the owner, which is never in flight. It counts where it is
/// answered neither by a negative acknowledgement nor by a poison error, and then the frame's notice may go with it.
pub fn requests_are_served<L, H>()
    ensures read { ReadTaken L H }
    ensures read_exclusive { ReadExclusiveTaken L H }
    ensures upgrade { UpgradeTaken L H }
{}

/// A write-back, and an owner's message, meets an entry at which it has a row.
pub fn owners_are_heard<L, H>()
    ensures write_back { WriteBackTaken L H }
    ensures sharing_write_back { SharingWriteBackTaken L H }
    ensures sharing_transfer { SharingTransferTaken L H }
    ensures dirty_transfer { DirtyTransferTaken L H }
    ensures poison_back { PoisonBackTaken L H }
    ensures poison_clean { PoisonCleanTaken L H }
{}

/// The mover's poisoning meets no block that is poisoned or being so, its re-arming ends the frame's notice, its copy comes in at
/// an Unowned block, and its cleaning finds every block of the frame poisoned.
pub fn the_mover_is_served<L, H>()
    ensures poison_read { PoisonReadTaken L H }
    ensures rearm { RearmTaken L H }
    ensures copy_in { CopyInTaken L H }
    ensures clean_frame { CleanFrameTaken L H }
{}

/// Together: whatever message of a home's kinds is in flight, the home to which it is sent has a row for it.
pub fn table_is_kept<L, H>()
    ensures { Taken L H }
{}
