//! A node: its processor side and its home part.
//!
//! Below stand the processor (`og_processor`: hart, cache, TLB, request, victim slot) and the home part (`og_home`: directory,
//! memory, counters); above it the machine. A node's act is its processor's. A message is served by the home or by the
//! processor, by its kind (`specs/Node`, `is_for_home`); the two share no state, and speak with each other by messages
//! alone. `specs/Node` has the table of both as one outcome, and says which messages have a row.
//!
//! All memory is taken by [`Node::make`]; an event takes none.
#![tactic(auto)]

ghost use Rattle.std.specs.Prelude.{◌≡◌, ◌<◌, ◌≤◌, ◌+◌, ◌++◌, length, true, false, IfOk, Ok};
ghost use Rattle.og_node.specs.Kept.{node_of};
ghost use Rattle.og_node.specs.Node.{new_node, act_of as node_act, take_of as node_take, is_for_home as goes_home, HasRow};
ghost use Rattle.std.specs.Option.{option_copied};
ghost use Rattle.og_victim.specs.Slot.{is_free_slot};
ghost use Rattle.og_processor.specs.Act.{may_act};
ghost use Rattle.og_processor.specs.Sound.{IsSound, IsLowProcessor, IsLowKind};

pub mod laws;
pub mod served;
#[cfg(test)]
mod tests;

use og_base::{NoMemory, NodeId, NotEnabled, Settings};
use og_cache::Cache;
use og_home::Home;
use og_image::{Image, Layout};
use og_msg::{Kind, Msg, Note, Outbox};
use og_processor::Processor;
use og_request::Request;
use std::alloc::Global;
use std::marker::Model;

/// A node.
#[derive(Drop)]
pub struct Node {
    processor: Processor,
    home: Home,
}

impl Model for Node {
    ghost use Rattle.std.specs.Coded.{codes};
    ghost use Rattle.og_directory.specs.contracts.entry.State as entry;
    ghost use Rattle.og_node.specs.Kept.{KeptNode};

    ghost Value = { KeptNode };

    ghost coded = { Prim.hlevel (codes, entry.the_row.coded) };

    ghost view = { λ n. record { processor = n.processor; home = n.home } };
}

/// Whether messages of the kind are served by a node's home part, and not by its processor.
pub fn is_for_home(kind: &Kind) -> bool
    ensures { result ≡ goes_home kind.now }
{
    matches!(
        kind,
        Kind::Read { .. }
            | Kind::ReadEx { .. }
            | Kind::Upgrade { .. }
            | Kind::WriteBack { .. }
            | Kind::SharingWriteBack { .. }
            | Kind::SharingTransfer { .. }
            | Kind::DirtyTransfer { .. }
            | Kind::PoisonRead { .. }
            | Kind::PoisonBack { .. }
            | Kind::PoisonClean { .. }
            | Kind::CopyIn { .. }
            | Kind::CleanFrame { .. }
            | Kind::Rearm { .. }
    )
}

impl Node {
    /// A node at the start. It takes all memory that the node will ever need.
    pub fn make(
        alloc: Global,
        number: NodeId,
        image: &Image,
        layout: &Layout,
        settings: &Settings,
    ) -> Result<Node, NoMemory>
        requires nodes { layout.now.nodes ≡ settings.now.nodes }
        requires number { number < settings.now.nodes }
        ensures { IfOk result (λ node. node_of node ≡ new_node image.now layout.now settings.now number) }
    {
        Ok(Node {
            processor: Processor::make(alloc, number, image, settings)?,
            home: Home::make(alloc, number, image, layout, settings)?,
        })
    }

    /// The cache.
    pub fn cache(&self) -> &Cache
        ensures { result.now ≡ self.now.processor.cache }
    {
        self.processor.cache()
    }

    /// The home part.
    pub fn home(&self) -> &Home
        ensures { result.now ≡ self.now.home }
    {
        &self.home
    }

    /// The outstanding request, None exactly where there is none.
    pub fn request(&self) -> Option<&Request>
        ensures { option_copied result ≡ self.now.processor.request }
    {
        self.processor.request()
    }

    /// Whether the victim slot is free.
    pub fn victim_free(&self) -> bool
        ensures { result ≡ is_free_slot self.now.processor.victim }
    {
        self.processor.victim_free()
    }

    /// Whether the node may act, and else the first reason that applies: its hart has stopped, a request or a walk is
    /// outstanding, or a request can't be sent since the victim slot is taken.
    pub fn can_act(&self, image: &Image) -> Result<(), NotEnabled>
        ensures { result ≡ may_act image.now self.now.processor }
    {
        self.processor.can_act(image)
    }

    /// The node's own next event.
    pub fn act(&mut self, image: &Image, out: &mut Outbox) -> Option<Note>
        requires enabled { may_act image.now self.old.processor ≡ Ok tt }
        requires low { IsLowProcessor self.old.processor }
        requires room { length out.old + 2 ≤ 132 }
        ensures state { node_of self.new ≡ (node_act image.now (node_of self.old)).local }
        ensures letters { out.new ≡ out.old ++ (node_act image.now (node_of self.old)).letters }
        ensures note { result ≡ (node_act image.now (node_of self.old)).note }
    {
        self.processor.act(image, out)
    }

    /// Serves a message that has a row here.
    pub fn take(&mut self, image: &Image, msg: &Msg, out: &mut Outbox) -> Option<Note>
        requires row { HasRow (node_of self.old) msg.now }
        requires sound { IsSound image.now self.old.processor }
        requires low { IsLowProcessor self.old.processor }
        requires low_message { IsLowKind msg.now.kind }
        requires room { length out.old + (node_of self.old).home.rules.nodes + 3 ≤ 132 }
        ensures state { node_of self.new ≡ (node_take image.now (node_of self.old) msg.now).local }
        ensures letters { out.new ≡ out.old ++ (node_take image.now (node_of self.old) msg.now).letters }
        ensures note { result ≡ (node_take image.now (node_of self.old) msg.now).note }
    {
        if is_for_home(&msg.kind) {
            self.home.serve(msg, out);
            None
        } else {
            self.processor.take(image, &msg.kind, out)
        }
    }
}
