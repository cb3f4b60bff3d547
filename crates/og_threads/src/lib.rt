//! The machine in threads: its nodes and its mover as actors, each of which runs in a thread of its own.
//!
//! Below stand the machine as it is defined (`og_machine`), its actors in code (`og_node`, `og_mover`), what holds of every machine that
//! a run leads to (`og_refine`, `og_stores`), and actors of any protocol in threads (`og_actors` over `og_fabric`). Above stands the
//! command that runs a program so.
//!
//! `scheme` puts the machine on the fabric: its rules, its start, and the two laws that a protocol owes, of which both follow from the
//! laws of the machine's runs. `player` is one actor in code, a node or the mover, with the rows of `og_machine` for its moves; `part`
//! is what runs it at its seat, and what makes all of them. All that a call of a node or of the mover asks holds in every run, and the
//! fabric tells of each move that some run leads to the actor's state, with the message that it takes in flight.
//!
//! All memory of an actor is taken before the first turn, but for its log. No clause says that a thread gets on, or which run comes
//! about.
#![tactic(auto)]

ghost use Rattle.std.specs.Prelude.{◌≡◌, ◌+◌, ◌*◌, ◌<◌, ◌≤◌, ◌^◌, length, IfOk};
ghost use Rattle.og_runs.specs.Runs.{joined, IsSorted};
ghost use Rattle.og_runs.specs.World.{events_of};
ghost use Rattle.og_image.specs.Layout.{layout_of, pages_of};
ghost use Rattle.og_machine.specs.Machine.{setup_of};
ghost use Rattle.og_actors.specs.Rounds.{Counted};
ghost use Rattle.og_threads.specs.Threads.{AreLogsOf, IsRunOfAll, Plays, actors_of};

pub mod part;
pub mod player;
pub mod scheme;

use crate::part::Players;
use crate::player::Player;
use crate::scheme::{Machines, OfMachine};
use og_actors::Gate;
use og_actors::whole::{self, Ran};
use og_base::{NoMemory, Settings, room};
use og_image::{Image, Layout, LayoutFault};
use og_msg::{Kind, Note};
use std::alloc::{AllocError, Global};
use std::marker::{Brand, PhantomData};
use std::sync::Wait;
use std::thread::Threads;

/// Runs a program in threads, so many turns of each actor in each of so many rounds at most, and less where all harts have stopped
/// after a round. The events, in the order of their stamps, are a run of the machine from its start, at whose end just the messages
/// that are left are in flight; and all harts have stopped there exactly where the rounds answer so.
pub fn run_in_threads<G: Gate + Sync, R: Threads + Wait + Sync>(
    rt: &R,
    alloc: Global,
    image: &Image,
    settings: &Settings,
    gate: &G,
    rounds: u32,
    turns: u32,
) -> Result<Ran<Kind, Note>, NoMemory>
    requires nodes { settings.now.nodes ≡ image.now.nodes }
    requires frames { length (pages_of image.now) ≤ settings.now.nodes * settings.now.frames }
    requires few { rounds * turns * (settings.now.nodes + 1) ≤ 4000000 }
    ensures logs { IfOk result (λ r. AreLogsOf (setup_of image.now settings.now) r.logs.items r.left.items) }
    ensures merged { IfOk result (λ r. IsSorted (joined (events_of r.logs.items)) r.events.items) }
    ensures run { IfOk result (λ r. IsRunOfAll (setup_of image.now settings.now) r.rounds r.events.items r.left.items) }
    ensures counted { IfOk result (λ r. Counted (rounds * turns * (settings.now.nodes + 1)) r.rounds (length r.events.items)) }
{
    image.stays_loadable();
    let layout = match Layout::make(alloc, image, settings) {
        Ok(layout) => layout,
        Err(LayoutFault::Memory) => return Err(AllocError),
        Err(LayoutFault::NoFrames { .. }) => unreachable!(),
    };
    run_of::<Brand, G, R>(rt, alloc, image, &layout, settings, gate, rounds, turns)
}

/// As `run_in_threads`, for any machine that is this program's.
fn run_of<M: Machines + Send + Sync, G: Gate + Sync, R: Threads + Wait + Sync>(
    rt: &R,
    alloc: Global,
    image: &Image,
    layout: &Layout,
    settings: &Settings,
    gate: &G,
    rounds: u32,
    turns: u32,
) -> Result<Ran<Kind, Note>, NoMemory>
    requires plays { Plays M.setup M.most image.now }
    requires setup { M.setup ≡ record { image = image.now; layout = layout.now; settings = settings.now } }
    requires most { rounds * turns ≡ M.most }
    requires few { rounds * turns * (settings.now.nodes + 1) ≤ 4000000 }
    ensures logs { IfOk result (λ r. AreLogsOf M.setup r.logs.items r.left.items) }
    ensures merged { IfOk result (λ r. IsSorted (joined (events_of r.logs.items)) r.events.items) }
    ensures run { IfOk result (λ r. IsRunOfAll M.setup r.rounds r.events.items r.left.items) }
    ensures counted { IfOk result (λ r. Counted (rounds * turns * (settings.now.nodes + 1)) r.rounds (length r.events.items)) }
{
    let players = Players::<M> {
        image,
        layout,
        settings,
        of: PhantomData,
    };
    let room = room(settings) as usize;
    whole::run::<Player, Kind, Note, OfMachine<M>, part::MachinePart<M>, Players<M>, G, R>(
        rt,
        alloc,
        &players,
        gate,
        room,
        settings.nodes + 1,
        rounds,
        turns,
    )
}

#[cfg(test)]
mod tests;
