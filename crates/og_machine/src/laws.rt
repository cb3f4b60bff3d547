//! What follows from the definitions alone, as clauses of functions that do nothing.

ghost use Rattle.og_machine.specs.Drains.{StartDrains, MoveDrains, ReclaimDrains, WriteBackDrains, TransferDrains};
ghost use Rattle.og_machine.specs.Laws.{ActsHaveSteps, StepsAreEnabled, TakesWithRowsHaveSteps};
ghost use Rattle.og_machine.specs.Moves.{PageMoves, FrameIsFreed};
ghost use Rattle.og_machine.specs.Races.{DirtyOwnerShares, MarkedReadAsksAgain, InterventionIsHeld, SecondUpgradeIsRefused, WriteBackAnswers, LineReturnsFirst, OwnerIsServedFromMemory, MarkedReadIsGranted};
ghost use Rattle.og_machine.specs.Runs.{PagesArePlaced, CallTraps, StoreIsLoaded, StoreIsForced, StoreIsFlat, BothLoad};

/// An act is refused exactly where it has no step. A choice that has a step isn't refused; and a take that isn't refused
/// has one where its message has a row.
pub fn refusals_fit_steps()
    ensures acts { ActsHaveSteps }
    ensures steps { StepsAreEnabled }
    ensures takes { TakesWithRowsHaveSteps }
{}

/// Worked examples of runs from the start, by computation: a call that isn't there traps; a store walks for its page, is asked
/// for and made, and a load hits it, each choice the only one, and so does the flat memory; and two nodes load one word, the
/// second from the home while the first has the block clean. Their pages stand where the layout of their program puts them.
pub fn runs_go_as_told()
    ensures placed { PagesArePlaced }
    ensures call { CallTraps }
    ensures store { StoreIsLoaded }
    ensures forced { StoreIsForced }
    ensures flat { StoreIsFlat }
    ensures load { BothLoad }
{}

/// Worked examples of races for one block, by computation: what each message finds, what is sent for it, and what is loaded.
pub fn races_go_as_told()
    ensures dirty_owner { DirtyOwnerShares }
    ensures marked_read { MarkedReadAsksAgain }
    ensures held_intervention { InterventionIsHeld }
    ensures two_upgrades { SecondUpgradeIsRefused }
    ensures write_back { WriteBackAnswers }
    ensures returned { LineReturnsFirst }
    ensures clean_owner { OwnerIsServedFromMemory }
    ensures granted_read { MarkedReadIsGranted }
{}

/// Worked examples of moves, by computation. From the start, a page moves while a hart stores to it: a store before the poison
/// hits and is collected; the next one meets the poison, is walked for again until the page is published, and is made in the new
/// frame; its notice finds no free frame. And after such a move the frame that the page left is freed when its holders have
/// dropped it, one of them after its walk was answered.
pub fn a_move_goes_as_told()
    ensures moves { PageMoves }
    ensures freed { FrameIsFreed }
{}

/// Worked examples of drains, by computation: each event until the machine is quiet, and how many they are. The harts stop when a
/// move has begun, and the whole page is moved (`whole`); in the midst of a move (`midst`), in which the mover's request for a block
/// was sent before the home hears that another node has the block, and is taken after that; of a reclaim; of a write-back that
/// crosses the mover's question to the owner; and of one behind a transfer, both sent after the mover's request.
pub fn drains_go_as_told()
    ensures whole { StartDrains }
    ensures midst { MoveDrains }
    ensures reclaim { ReclaimDrains }
    ensures write_back { WriteBackDrains }
    ensures transfer { TransferDrains }
{}
