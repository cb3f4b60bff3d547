//! The machine of all actors, in code: it starts, makes one event after another, and answers what may happen next.
//! It shows the line that it holds for a block of a page, and the byte that it holds at an address.
//!
//! Below stand the machine as it is defined (`og_machine`), its actors in code (`og_node`, `og_mover`), the index of the enabled
//! choices (`og_choices`), and what holds of every machine that a run leads to (`og_refine`, `og_stores`): each message has its row, so a
//! take never fails, there are never more messages than room, and no line has seen more stores than there were events. Above stand the
//! commands.
//!
//! `specs/Kept` says how a machine is kept, which machine of `og_machine` that is, and what is known of one that choices from the start
//! lead to: the table kept here is that machine's step, its enabled choices and its drain. All memory is taken by [`Machine::start`]. An
//! event takes none, and changes one actor in its place, its mark among the choices, and a bit that says whether its hart runs.
#![tactic(auto)]

ghost use Rattle.std.specs.Prelude.{◌≡◌, ◌*◌, ◌≤◌, length, map, IfOk};
ghost use Rattle.og_base.specs.Numbers.{below};
ghost use Rattle.og_image.specs.Layout.{layout_of, pages_of};
ghost use Rattle.og_machine.specs.Machine.{setup_of, start_machine, start_node, new_seat};
ghost use Rattle.og_engine.specs.Kept.{machine_of, node_seat, IsMade};
ghost use Rattle.og_engine.specs.Marks.{AreMarked, is_running_by};

pub mod choices;
pub mod drain;
pub mod held;
pub mod step;

use og_base::{NoMemory, NodeId, NotEnabled, Settings, room};
use og_choices::Choices;
use og_choices::marks::with_mark;
use og_image::{Image, Layout};
use og_mover::Mover;
use og_msg::{Kind, Outbox};
use og_node::Node;
use og_runs::Seat;
use std::alloc::Global;
use std::marker::Model;

/// A machine: the nodes, the mover, and the messages in flight.
#[derive(Drop)]
pub struct Machine {
    settings: Settings,
    nodes: Vec<Seat<Node>>,
    mover: Seat<Mover>,
    // The messages in flight, and who may act: the enabled choices.
    choices: Choices<Kind>,
    // The letters of the event that is being made.
    out: Outbox,
    // How many events were made.
    events: u64,
    // The nodes whose hart hasn't stopped: a bit for each.
    running: u128,
}

impl Model for Machine {
    ghost use Rattle.std.specs.Prelude.{◌≡◌};
    ghost use Rattle.std.specs.Coded.{codes};
    ghost use Rattle.og_node.specs.contracts.Node as node_code;
    ghost use Rattle.og_mover.specs.contracts.Mover as mover_code;
    ghost use Rattle.og_engine.specs.Marks.{AreMarked, is_running_by};
    ghost use Rattle.og_engine.specs.Kept.{KeptMachine};

    ghost Value = { KeptMachine };

    ghost coded = { Prim.hlevel (codes, node_code.the_row.coded, mover_code.the_row.coded) };

    ghost view = { λ m. record { settings = m.settings; nodes = m.nodes.items; mover = m.mover; flight = m.choices.flight; events = m.events; ready = m.choices.ready; mover_ready = m.choices.last; running = m.running } };

    ghost invariant = { λ m. m.choices.nodes ≡ m.settings.nodes };
}

/// The seats of all nodes at the start.
fn start_nodes(
    alloc: Global,
    image: &Image,
    layout: &Layout,
    settings: &Settings,
) -> Result<Vec<Seat<Node>>, NoMemory>
    requires { layout.now.nodes ≡ settings.now.nodes }
    ensures count { IfOk result (λ seats. length seats.items ≡ settings.now.nodes) }
    ensures seats { IfOk result (λ seats. map node_seat seats.items ≡ map (λ number. new_seat (start_node (record { image = image.now; layout = layout.now; settings = settings.now }) number)) (below settings.now.nodes)) }
{
    let mut seats = Vec::with_capacity(alloc, usize::from(settings.nodes))?;
    for number in 0..settings.nodes {
        seats.push(Seat {
            local: Node::make(alloc, number, image, layout, settings)?,
            clock: 0,
            next: 0,
        })?;
    }
    Ok(seats)
}

/// Marks the nodes that may act at the start, and returns the marks of those whose hart runs.
fn first_marks(choices: &mut Choices<Kind>, nodes: &[Seat<Node>], image: &Image) -> u128
    requires few { length nodes.now ≤ 128 }
    requires nodes { choices.old.nodes ≡ length nodes.now }
    requires none { choices.old.ready ≡ 0 }
    ensures marks { AreMarked image.now nodes.now choices.new.ready result }
    ensures same { choices.new ≡ record choices.old { ready = choices.new.ready } }
{
    let mut running = 0;
    for at in 0..nodes.len() {
        let may = nodes[at].local.can_act(image);
        choices.mark(at as NodeId, may.is_ok());
        running = with_mark(running, at as NodeId, runs(may));
    }
    running
}

/// Whether a hart still runs, by whether its node may act.
pub(crate) fn runs(may: Result<(), NotEnabled>) -> bool
    ensures { result ≡ is_running_by may }
{
    match may {
        Err(NotEnabled::Stopped) => false,
        _ => true,
    }
}

impl Machine {
    /// The machine of a program at its start. It takes all memory that the machine will ever need.
    pub fn start(
        alloc: Global,
        image: &Image,
        layout: &Layout,
        settings: &Settings,
    ) -> Result<Machine, NoMemory>
        requires nodes { settings.now.nodes ≡ image.now.nodes }
        requires layout { layout.now ≡ layout_of image.now }
        requires frames { length (pages_of image.now) ≤ settings.now.nodes * settings.now.frames }
        ensures start { IfOk result (λ machine. machine_of machine ≡ start_machine (setup_of image.now settings.now)) }
        ensures settings { IfOk result (λ machine. machine.settings ≡ settings.now) }
        ensures none { IfOk result (λ machine. machine.events ≡ 0) }
        ensures made { IfOk result (λ machine. IsMade image.now machine) }
    {
        image.stays_loadable();
        og_pager::laws::layout_suits();
        let nodes = start_nodes(alloc, image, layout, settings)?;
        let mover = Seat {
            local: Mover::make(alloc, layout, settings)?,
            clock: 0,
            next: 0,
        };
        let mut choices = Choices::make(alloc, room(settings) as usize, settings.nodes)?;
        let running = first_marks(&mut choices, &nodes, image);
        Ok(Machine {
            settings: *settings,
            nodes,
            mover,
            choices,
            out: Outbox::empty(),
            events: 0,
            running,
        })
    }
}
