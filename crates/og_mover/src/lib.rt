//! The mover: the actor that owns the page table, moves pages to the nodes that use them most, and frees the frames that they
//! have left.
//!
//! A page moves block by block, after the block copier of the SGI Origin that poisons what it copies (J. Laudon and D. Lenoski,
//! "The SGI Origin: A ccNUMA Highly Scalable Server", ISCA 1997): the mover poisons a block at its old home, collects the line
//! and the acknowledgements of all sharers, writes the line into the new frame, and waits until it is written. After the last
//! block the page table names the new frame. The old one stays in quarantine until each node that was ever told of it has
//! dropped it. The jobs, their phases and the quarantine are this machine's own. `specs/Table` has the table.
//!
//! Below stand the page table (`og_pager`), the policy (`og_policy`), messages (`og_msg`) and lines (`og_line`); above, the
//! machine. All memory is taken by [`Mover::make`]. An event takes a few steps and, at a notice or a reclaim, one look at each
//! frame of a node or at each node.
#![tactic(auto)]

ghost use Rattle.std.specs.Prelude.{◌≡◌, ◌+◌, ◌<◌, IfOk, [], ◌∷◌, ◌++◌, length};
ghost use Rattle.og_pager.specs.PageTable.{Suits};
ghost use Rattle.og_mover.specs.Table.{place_in as phase_place, with_job, in_phase, to, has_act as job_has_act, is_idle_job, first_mover, gathered, place_of};
ghost use Rattle.og_mover.specs.Sound.{IsRoute, IsPhase, IsCleared, IsClearing, IsJob};

mod acts;
mod due;
mod judges;
pub mod laws;
mod takes;
#[cfg(test)]
mod tests;

use og_base::{Frame, NoMemory, Settings, VPage};
use og_image::Layout;
use og_line::Line;
use og_msg::{Kind, Letter, Outbox};
use og_pager::Pager;
use std::alloc::Global;
use std::marker::Model;

/// A home's answer to the mover: the poisoned block's line, and how many sharers acknowledge that their copies are gone.
#[derive(Clone, Copy, PartialEq)]
pub struct Reply {
    pub line: Line,
    pub acks: u8,
}

/// What has come of a block that is being collected, in any order.
#[derive(Clone, Copy, PartialEq)]
pub struct Received {
    pub reply: Option<Reply>,
    pub acks: u8,
}

/// How far a move is. A phase with a block's number concerns that block of the page.
#[derive(Clone, Copy, PartialEq)]
pub enum Phase {
    /// The block is to be poisoned.
    Ask(u8),
    /// Its line and the sharers' acknowledgements are awaited.
    Collect(u8, Received),
    /// The mover holds its line.
    Hold(u8, Line),
    /// The new home is to say that it was written.
    Wait(u8),
    /// All blocks are in the new frame.
    Publish,
}

/// How far a reclaim is.
#[derive(Clone, Copy, PartialEq, Eq)]
pub enum Clearing {
    /// The frame's holders are to be told.
    Tell,
    /// They are to say that they have dropped it.
    Gather,
    /// No node holds it: its home is to be told.
    Clean,
    /// Its home is to say that its blocks are usable again.
    Cleaning,
}

/// A page on its way from its old frame to a new one.
#[derive(Clone, Copy, PartialEq, Eq)]
pub struct Route {
    pub page: VPage,
    pub old: Frame,
    pub new: Frame,
}

/// What the mover is about.
#[derive(Clone, Copy, PartialEq)]
pub enum Job {
    /// Nothing.
    Idle,
    /// A page is being moved.
    Move(Route, Phase),
    /// A frame in quarantine is being freed.
    Reclaim(Frame, Clearing),
}

/// The mover.
#[derive(Drop)]
pub struct Mover {
    pager: Pager,
    job: Job,
    settings: Settings,
}

impl Model for Mover {
    ghost use Rattle.std.specs.Coded.{codes};
    ghost use Rattle.og_pager.specs.contracts.Pager as pager_code;
    ghost use Rattle.og_mover.specs.Table.{MoverState};
    ghost use Rattle.og_mover.specs.Sound.{IsMover};

    ghost Value = { MoverState };

    ghost coded = { Prim.hlevel (codes, pager_code.the_row.coded) };

    ghost view = { λ m. record { pages = m.pager; job = m.job; settings = m.settings } };

    ghost invariant = { λ m. IsMover (record { pages = m.pager; job = m.job; settings = m.settings }) };
}

/// Where a block of a page that is being moved is: in its new frame once it was copied.
fn place_in(phase: Phase, route: Route, number: u8) -> Frame
    ensures { result ≡ phase_place phase route number }
{
    let copied = match phase {
        Phase::Ask(next) | Phase::Collect(next, _) | Phase::Hold(next, _) | Phase::Wait(next) =>
            number < next,
        Phase::Publish => true,
    };
    if copied { route.new } else { route.old }
}

impl Mover {
    /// The mover of a layout, which has nothing to do yet. It takes all memory that the mover will ever need.
    #[tactic(auto, unfolding(crate::specs::Table::first_mover))]
    pub fn make(alloc: Global, layout: &Layout, settings: &Settings) -> Result<Mover, NoMemory>
        requires { Suits layout.now settings.now.nodes settings.now.frames }
        ensures { IfOk result (λ mover. mover ≡ first_mover layout.now settings.now) }
    {
        let pager = Pager::make(alloc, layout, settings)?;
        Ok(Mover {
            pager,
            job: Job::Idle,
            settings: *settings,
        })
    }

    /// Whether the mover has something to do of its own accord.
    pub fn can_act(&self) -> bool
        ensures { result ≡ job_has_act self.now.job }
    {
        match self.job {
            Job::Idle => false,
            Job::Move(_, phase) => matches!(
                phase,
                Phase::Ask(_) | Phase::Hold(..) | Phase::Publish
            ),
            Job::Reclaim(_, step) => matches!(step, Clearing::Tell | Clearing::Clean),
        }
    }

    /// Whether the mover is about nothing.
    pub fn idle(&self) -> bool
        ensures { result ≡ is_idle_job self.now.job }
    {
        matches!(self.job, Job::Idle)
    }

    /// The frame in which a block of a page is: None exactly for a page that isn't placed.
    #[tactic(auto, unfolding(crate::specs::Table::place_of))]
    pub fn place(&self, page: VPage, number: u8) -> Option<Frame>
        requires { number < 32 }
        ensures { result ≡ place_of self.now page number }
    {
        let frame = self.pager.frame_of(page)?;
        match self.job {
            Job::Move(route, phase) if route.page == page => Some(place_in(phase, route, number)),
            _ => Some(frame),
        }
    }

    /// The job.
    fn current(&self) -> Job
        ensures job { result ≡ self.now.job }
        ensures sound { IsJob self.now.pages self.now.settings result }
    {
        self.job
    }

    /// The move goes on in this phase.
    fn go_on(&mut self, route: Route, phase: Phase)
        requires route { IsRoute self.old.pages self.old.settings route }
        requires phase { IsPhase phase }
        ensures { self.new ≡ in_phase self.old route phase }
    {
        self.job = Job::Move(route, phase);
    }

    /// The reclaim goes on with this step.
    fn clear_on(&mut self, frame: Frame, step: Clearing)
        requires frame { IsCleared self.old.pages frame }
        requires step { IsClearing self.old.pages frame step }
        ensures { self.new ≡ with_job self.old (Job.Reclaim frame step) }
    {
        self.job = Job::Reclaim(frame, step);
    }

    /// Where no node holds the frame any more it can be cleaned.
    fn end_gathering(&mut self, frame: Frame)
        requires job { self.old.job ≡ Job.Reclaim frame Clearing.Gather }
        requires frame { IsCleared self.old.pages frame }
        ensures { self.new ≡ gathered self.old }
    {
        if self.pager.holders(frame).count() == 0 {
            self.clear_on(frame, Clearing::Clean);
        }
    }
}

/// Puts a letter last.
fn send(out: &mut Outbox, actor: u8, kind: Kind)
    requires { length out.old < 132 }
    ensures { out.new ≡ out.old ++ to actor kind ∷ [] }
{
    out.add(Letter { to: actor, kind });
}
