//! A node's home part: the directory entries and the memory of the frames whose home it is, and the
//! counters of their use.
//!
//! Below stand the directory's table for one block (`og_directory`), the counters (`og_counters`), the
//! image and its layout, and messages; above it the node. The table kept here is the home's whole:
//! [`Home::serve`] makes the directory's row of a message about a block and then counts the request, whose
//! notice is the last letter of its event; it cleans a frame whose blocks are all poisoned; and it resets
//! the counters of a frame whose notice the mover has judged. `specs/Home` has it as a composition of
//! rows. Which messages have a row is a definition there (`HasRow`), a condition of `serve`, and a call,
//! [`Home::has_row`].
//!
//! All memory is taken by [`Home::make`]: for each block an entry of 16 bytes and a line of 136, and the
//! counters. An event finds its block by an index and changes it where it lies; the cleaning of a frame
//! touches its 32 entries.
#![tactic(auto)]

ghost use Rattle.std.specs.Prelude.{◌≡◌, ◌↔◌, ◌≤◌, ◌<◌, ◌+◌, ◌*◌, ◌/◌, ◌%◌, ◌^◌, ◌++◌, ◌&&◌, ℕ, IfOk, IsTrue, length, map, nat_le, nat_lt, slice_index_or, if◌then◌else◌};
ghost use Rattle.std.specs.Bool.{OnTrue};
ghost use Rattle.og_base.specs.Numbers.{below};
ghost use Rattle.og_directory.specs.Table.{is_counted, IsFromItsSender};
ghost use Rattle.og_home.specs.Home.{HasRow, HasBlockRow, IsOwnFrame, IsToBeCleaned, IsJudged, is_poison, are_poisoned, notice_letters, with_clean_frame, serve as served_by, serve_row as row_served, serve_block as block_served, count_request as request_counted, clean_frame as frame_cleaned, rearm as frame_rearmed};
ghost use Rattle.og_home.specs.Kept.{home_of};
ghost use Rattle.og_home.specs.Start.{start_home, first_line};

use og_base::{ActorId, Block, Frame, Hot, NoMemory, NodeId, PAGE_BLOCKS, Settings};
use og_counters::Counters;
use og_directory::{Entry, State, home_step};
use og_flat::machine::start_line;
use og_image::{Image, Layout};
use og_line::Line;
use og_msg::{Kind, Letter, Msg, Outbox};
use std::alloc::Global;
use std::marker::Model;

#[cfg(test)]
mod tests;

/// Blocks of a frame.
const BLOCKS: usize = PAGE_BLOCKS as usize;

/// A node's home part.
#[derive(Drop)]
pub struct Home {
    counters: Counters,
    // The entry of each block, 32 a frame.
    entries: Vec<Entry>,
    // The line of each block, 32 a frame.
    lines: Vec<Line>,
}

impl Model for Home {
    ghost use Rattle.std.specs.Coded.{codes};
    ghost use Rattle.og_directory.specs.contracts.entry.State as entry;
    ghost use Rattle.og_home.specs.Kept.{KeptHome, IsHome};

    ghost Value = { KeptHome };

    ghost coded = { Prim.hlevel (codes, entry.the_row.coded) };

    ghost view = { λ h. record { counters = h.counters; entries = h.entries.items; lines = h.lines.items } };

    ghost invariant = { λ h. IsHome (record { counters = h.counters; entries = h.entries.items; lines = h.lines.items }) };
}

impl Home {
    /// The home part of a node at the start. It takes all memory that the home will ever need.
    pub fn make(
        alloc: Global,
        node: NodeId,
        image: &Image,
        layout: &Layout,
        settings: &Settings,
    ) -> Result<Home, NoMemory>
        requires nodes { layout.now.nodes ≡ settings.now.nodes }
        requires node { node < settings.now.nodes }
        ensures { IfOk result (λ home. home_of home ≡ start_home image.now layout.now settings.now node) }
    {
        let blocks = usize::from(settings.frames) * BLOCKS;
        let counters = Counters::make(alloc, node, settings)?;
        let entries = vec![in alloc; Entry::unowned(); blocks]?;
        let lines = first_lines(alloc, node, image, layout, blocks)?;
        Ok(Home {
            counters,
            entries,
            lines,
        })
    }

    /// Serves a message: changes the home and adds the letters, in their order.
    pub fn serve(&mut self, msg: &Msg, out: &mut Outbox)
        requires row { HasRow (home_of self.old) msg.now }
        requires room { length out.old + (home_of self.old).rules.nodes + 3 ≤ 132 }
        ensures home { home_of self.new ≡ (served_by (home_of self.old) msg.now).home }
        ensures letters { out.new ≡ out.old ++ (served_by (home_of self.old) msg.now).letters }
    {
        match msg.kind {
            Kind::CleanFrame { frame } => self.clean_frame(frame, out),
            Kind::Rearm { frame } => self.rearm(frame),
            _ => match msg.kind.block() {
                Some(block) => self.serve_block(block, msg, out),
                None => {}
            },
        }
    }

    /// Whether the message has a row at this home: it is of a kind that homes serve and from a sender
    /// that sends this kind, its block or frame is one of this home, and the table has its row. For
    /// `CleanFrame` that says that the frame's blocks are all poisoned.
    pub fn has_row(&self, msg: &Msg) -> bool
        ensures { IsTrue result ↔ HasRow (home_of self.now) msg.now }
    {
        match msg.kind {
            Kind::CleanFrame { frame } => self.is_to_be_cleaned(frame, msg),
            Kind::Rearm { frame } => self.is_judged(frame, msg),
            _ => match msg.kind.block() {
                Some(block) => self.has_block_row(block, msg),
                None => false,
            },
        }
    }

    /// The mover's number, which is the number of nodes.
    pub fn mover(&self) -> ActorId
        ensures value { result ≡ (home_of self.now).rules.nodes }
        ensures few { result ≤ 128 }
    {
        self.counters.rules().nodes
    }

    /// How many frames a node has.
    pub fn frames(&self) -> u16
        ensures { result ≡ (home_of self.now).rules.frames }
    {
        self.counters.rules().frames
    }

    /// The entry of a block, by the index of its frame and its number there.
    pub fn entry(&self, index: u16, number: u8) -> &Entry
        requires frame { index < (home_of self.now).rules.frames }
        requires number { number < 32 }
        ensures { result.now ≡ (home_of self.now).entry index number }
    {
        &self.entries[place(index, number)]
    }

    /// The line of a block, by the index of its frame and its number there.
    pub fn line(&self, index: u16, number: u8) -> &Line
        requires frame { index < (home_of self.now).rules.frames }
        requires number { number < 32 }
        ensures { result.now ≡ (home_of self.now).line index number }
    {
        &self.lines[place(index, number)]
    }
}

/// The place of a block in the rows of entries and lines.
fn place(index: u16, number: u8) -> usize
    ensures { result ≡ index * 32 + number }
{
    usize::from(index) * BLOCKS + usize::from(number)
}

impl Home {
    /// A message about a block: the table's row, and then the count, if the message is a request that isn't refused.
    fn serve_block(&mut self, block: Block, msg: &Msg, out: &mut Outbox)
        requires row { HasBlockRow (home_of self.old) block msg.now }
        requires room { length out.old + (home_of self.old).rules.nodes + 3 ≤ 132 }
        ensures home { home_of self.new ≡ (block_served (home_of self.old) block msg.now).home }
        ensures letters { out.new ≡ out.old ++ (block_served (home_of self.old) block msg.now).letters }
    {
        if self.serve_row(block, msg, out) {
            self.count_request(block, msg.id.sender, out);
        }
    }

    /// The table's row of a message about a block. The answer is whether the message counts.
    fn serve_row(&mut self, block: Block, msg: &Msg, out: &mut Outbox) -> bool
        requires row { HasBlockRow (home_of self.old) block msg.now }
        requires room { length out.old + (home_of self.old).rules.nodes + 3 ≤ 132 }
        ensures home { home_of self.new ≡ (row_served (home_of self.old) block msg.now).home }
        ensures letters { out.new ≡ out.old ++ (row_served (home_of self.old) block msg.now).letters }
        ensures counts { result ≡ is_counted msg.now.kind (row_served (home_of self.old) block msg.now).letters }
        ensures rules { (home_of self.new).rules ≡ (home_of self.old).rules }
        ensures node { OnTrue result (msg.now.id.sender < (home_of self.old).rules.nodes) }
        ensures room { OnTrue result (length out.new < 132) }
    {
        let place = place(block.frame.index, block.number);
        let mover = self.counters.rules().nodes;
        home_step(
            &mut self.entries[place],
            &mut self.lines[place],
            msg,
            mover,
            out,
        )
    }

    /// Counts a request of a node for a block, and sends the mover the notice that it makes, if it makes one.
    fn count_request(&mut self, block: Block, node: NodeId, out: &mut Outbox)
        requires frame { block.frame.index < (home_of self.old).rules.frames }
        requires node { node < (home_of self.old).rules.nodes }
        requires room { length out.old < 132 }
        ensures home { home_of self.new ≡ (request_counted (home_of self.old) block node).home }
        ensures letters { out.new ≡ out.old ++ (request_counted (home_of self.old) block node).letters }
    {
        let mover = self.counters.rules().nodes;
        let hot = self.counters.count(block.frame.index, node);
        notify(mover, hot, out);
    }

    /// Makes all blocks of a frame unowned, resets its counters, and tells the mover.
    #[tactic(auto, unfolding(crate::specs::Home::clean_frame))]
    fn clean_frame(&mut self, frame: Frame, out: &mut Outbox)
        requires frame { frame.index < (home_of self.old).rules.frames }
        requires room { length out.old < 132 }
        ensures home { home_of self.new ≡ (frame_cleaned (home_of self.old) frame).home }
        ensures letters { out.new ≡ out.old ++ (frame_cleaned (home_of self.old) frame).letters }
    {
        let mover = self.mover();
        self.clean_blocks(frame);
        self.rearm(frame);
        let kind = Kind::FrameClean { frame };
        out.add(Letter { to: mover, kind });
    }

    /// Makes all blocks of a frame unowned.
    fn clean_blocks(&mut self, frame: Frame)
        requires { frame.index < (home_of self.old).rules.frames }
        ensures home { home_of self.new ≡ with_clean_frame (home_of self.old) frame.index }
        ensures rules { (home_of self.new).rules ≡ (home_of self.old).rules }
    {
        disown(&mut self.entries, place(frame.index, 0), BLOCKS);
    }

    /// Resets the counters of a frame.
    fn rearm(&mut self, frame: Frame)
        requires { frame.index < (home_of self.old).rules.frames }
        ensures { home_of self.new ≡ (frame_rearmed (home_of self.old) frame).home }
    {
        self.counters.reset(frame.index);
    }

    /// Whether the frame is one of this home.
    fn is_own(&self, frame: Frame) -> bool
        ensures { IsTrue result ↔ IsOwnFrame (home_of self.now) frame }
    {
        let rules = *self.counters.rules();
        frame.home == rules.home && frame.index < rules.frames
    }

    /// Whether the frame is one of this home and the message is the mover's.
    fn is_judged(&self, frame: Frame, msg: &Msg) -> bool
        ensures { IsTrue result ↔ IsJudged (home_of self.now) frame msg.now }
    {
        self.is_own(frame) && msg.id.sender == self.counters.rules().nodes
    }

    /// Whether all blocks of a frame are poisoned.
    fn is_poisoned(&self, index: u16) -> bool
        requires { index < (home_of self.now).rules.frames }
        ensures { result ≡ are_poisoned ((home_of self.now).entry index) 32 }
    {
        let mut poisoned = true;
        for number in 0..PAGE_BLOCKS {
            poisoned &= is_poison(self.entry(index, number));
        }
        poisoned
    }

    /// Whether the mover asks for a frame of this home whose blocks are all poisoned.
    fn is_to_be_cleaned(&self, frame: Frame, msg: &Msg) -> bool
        ensures { IsTrue result ↔ IsToBeCleaned (home_of self.now) frame msg.now }
    {
        self.is_judged(frame, msg) && self.is_poisoned(frame.index)
    }

    /// Whether the block is one of this home, the sender sends such messages, and the table has the row.
    fn has_block_row(&self, block: Block, msg: &Msg) -> bool
        ensures { IsTrue result ↔ HasBlockRow (home_of self.now) block msg.now }
    {
        if !self.is_own(block.frame) {
            return false;
        }
        if block.number >= PAGE_BLOCKS {
            return false;
        }
        is_from_its_sender(msg, self.counters.rules().nodes)
            && self.entry(block.frame.index, block.number).has_row(msg)
    }
}

/// Sends the mover a notice, if there is one.
fn notify(mover: ActorId, hot: Option<Hot>, out: &mut Outbox)
    requires { length out.old < 132 }
    ensures { out.new ≡ out.old ++ notice_letters mover hot }
{
    match hot {
        Some(hot) => out.add(Letter {
            to: mover,
            kind: Kind::Hot(hot),
        }),
        None => {}
    }
}

/// Whether the sender of a message is one that sends its kind: the mover, or a node.
pub fn is_from_its_sender(msg: &Msg, nodes: u8) -> bool
    ensures { IsTrue result ↔ IsFromItsSender nodes msg.now }
{
    if msg.kind.is_from_mover() {
        msg.id.sender == nodes
    } else {
        msg.id.sender < nodes
    }
}

/// Whether the block's page has moved away.
fn is_poison(entry: &Entry) -> bool
    ensures { result ≡ is_poison entry.now }
{
    matches!(entry.state(), State::Poison)
}

/// Makes so many entries from one on those of blocks that no node has.
fn disown(entries: &mut [Entry], first: usize, many: usize)
    requires { first + many ≤ length entries.old }
    ensures unowned { (k : ℕ) → slice_index_or entries.new k State.Unowned ≡ (if nat_le first k && nat_lt k (first + many) then State.Unowned else slice_index_or entries.old k State.Unowned) }
    ensures same { length entries.new ≡ length entries.old }
{
    for k in first..first + many {
        entries[k] = Entry::unowned();
    }
}

/// The lines of a node's blocks at the start.
fn first_lines(
    alloc: Global,
    node: NodeId,
    image: &Image,
    layout: &Layout,
    blocks: usize,
) -> Result<Vec<Line>, NoMemory>
    requires { blocks < 2 ^ 32 }
    ensures { IfOk result (λ lines. lines.items ≡ map (λ j. first_line image.now layout.now node (j / 32) (j % 32)) (below blocks)) }
{
    let mut lines = Vec::with_capacity(alloc, blocks)?;
    for j in 0..blocks {
        lines.push(block_line(node, image, layout, j))?;
    }
    Ok(lines)
}

/// The line of a node's block at the start, by the block's number among those of its home.
fn block_line(node: NodeId, image: &Image, layout: &Layout, j: usize) -> Line
    requires { j < 2 ^ 32 }
    ensures { result ≡ first_line image.now layout.now node (j / 32) (j % 32) }
{
    let number = j / BLOCKS * usize::from(layout.nodes()) + usize::from(node);
    match layout.page(number) {
        Some(page) => start_line(image, page.0 * BLOCKS as u64 + (j % BLOCKS) as u64),
        None => Line::zero(),
    }
}
