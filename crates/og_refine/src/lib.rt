//! Every run of the machine is a run of the rows of the theory; and so what holds of every machine that a run leads to.
//!
//! Below stand the machine as it is defined (`og_machine`), what is seen of its data with numbers for frames and pages (`og_seen`), and
//! actor by actor the step from the one to the other: `og_refine_home`, `og_refine_node`, `og_refine_requester` and `og_refine_mover`;
//! with what the tables see to by themselves (`og_refine_stays`, `og_refine_harts`), the order of messages (`og_refine_flight`), and
//! what holds of each machine of functions that shows a world (`og_shown`). Here they come together: `specs/Machines` says how a
//! machine of nodes and mover is seen, and `specs/Laws` what is claimed of every machine that choices lead to from the start of a
//! program, whatever the program, the settings and the choices. It is said of the machine's own data; no law names the theory.
//!
//! There is no code to run: each function is a law, its contract, with an empty body.
#![tactic(auto)]

ghost use Rattle.og_refine.specs.Laws.{MessagesHaveRows, RefusalsAreExact, NotesAreFlat, WritersAreAlone, LinesAreHeld, BytesAreHeld, FreeFramesAreUnnamed, ChargesDiffer, MessagesHaveRoom, UnquietMachinesGoOn};

/// Each message in flight has a row in its receiver's tables. So a choice has a step exactly where it isn't refused.
pub fn messages_have_rows()
    ensures rows { MessagesHaveRows }
    ensures refusals { RefusalsAreExact }
{}

/// What harts have noted, in the order of the events, is a run of one flat memory.
pub fn notes_are_flat()
    ensures { NotesAreFlat }
{}

/// No block has two writable copies: a node that has a block clean or dirty is the only one that has it, and each copy is of a block
/// that some page has in its place.
pub fn one_writer()
    ensures { WritersAreAlone }
{}

/// The line that the machine holds for a block of a placed page is the flat memory's after what harts have noted, bytes and number of
/// stores, before, during and after every move; and so is each byte of the page.
pub fn lines_are_held()
    ensures lines { LinesAreHeld }
    ensures bytes { BytesAreHeld }
{}

/// A free frame is named by nothing of the machine.
pub fn free_frames_are_unnamed()
    ensures { FreeFramesAreUnnamed }
{}

/// Two messages in flight never take up one key, so at most as many are in flight as there are keys.
pub fn messages_have_room()
    ensures charges { ChargesDiffer }
    ensures room { MessagesHaveRoom }
{}

/// A machine that isn't quiet has an enabled choice.
pub fn unquiet_machines_go_on()
    ensures { UnquietMachinesGoOn }
{}
