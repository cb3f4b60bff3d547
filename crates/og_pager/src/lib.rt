//! The page table: in which frame each page is, which frames are free or in quarantine, and which nodes were told of a frame.
//!
//! A page moves in two steps: [`Pager::begin`] takes a free frame for it, and [`Pager::settle`] publishes that frame. The frame
//! that the page has left goes into quarantine, where it stays until no node holds it: a node holds a frame from the walk that
//! told it of it until it has dropped it. What contracts see stands in `specs/PageTable`; what the look-ups answer after each
//! change are laws (`laws`), so that nobody above names a list.
//!
//! Below stand sets of nodes (`og_sharers`), the first frames of pages (`og_image`) and the names (`og_base`); above, the mover.
//! All memory is taken by [`Pager::make`]. A look-up of a page is a binary search, one of a frame an index. The least free frame
//! and the oldest one in quarantine are sought among the frames of one node, at most 1,024, which happens at a notice only.
#![tactic(auto)]

ghost use Rattle.std.specs.Prelude.{◌≡◌, ◌≢◌, ℕ, ◌+◌, ◌*◌, ◌<◌, ◌≤◌, ◌^◌, IfOk, IsTrue, IsSome, IfSome, Some, None, List, length, map, slice_index, ◌-◌, take, position, is_some, option_map};
ghost use Rattle.std.specs.FinSet as set;
ghost use Rattle.og_base.specs.Numbers.{below};
ghost use Rattle.og_image.specs.Layout.{frame_at};
ghost use Rattle.og_pager.specs.PageTable.{Suits, first_role as role_at_first, is_free_role, is_left_first};
ghost use Rattle.og_pager.specs.Oldest.{older_of};

pub mod laws;
#[cfg(test)]
mod tests;

use og_base::{Frame, NoMemory, NodeId, Settings, VPage};
use og_image::Layout;
use og_sharers::Nodes;
use std::alloc::Global;
use std::marker::Model;

/// What a frame is for. A page is named by its number among the placed pages.
#[derive(Clone, Copy, PartialEq, Eq, Debug)]
pub enum Role {
    /// No page is in it.
    Free,
    /// The page is in it.
    Mapped(usize),
    /// The page is being moved into it.
    Target(usize),
    /// A page has left it, in the move with this number, and nodes may still name it.
    Quarantined(u64),
}

/// The move under way.
#[derive(Clone, Copy, PartialEq, Eq, Debug)]
pub struct Moving {
    /// The number of the page.
    pub number: usize,
    /// The frame that it is moved into.
    pub new: Frame,
}

/// The page table.
#[derive(Drop)]
pub struct Pager {
    nodes: u8,
    // The frames of each node.
    frames: u16,
    // The placed pages, rising.
    pages: Vec<u64>,
    // Of each page, its frame and its moves so far.
    table: Vec<Frame>,
    moves: Vec<u32>,
    // Of each frame, node after node, what it is for and who holds it.
    roles: Vec<Role>,
    holders: Vec<Nodes>,
    moving: Option<Moving>,
    // How many moves were published.
    published: u64,
}

impl Model for Pager {
    ghost use Rattle.std.specs.Coded.{codes};
    ghost use Rattle.og_sharers.specs.contracts.nodes.Nodes as node_set;
    ghost use Rattle.og_pager.specs.PageTable.{PageTable, IsPageTable};

    ghost Value = { PageTable };

    ghost coded = { Prim.hlevel (codes, node_set.the_row.coded) };

    ghost view = { λ p. record { nodes = p.nodes; frames = p.frames; pages = p.pages.items; table = p.table.items; moves = p.moves.items; roles = p.roles.items; holders = p.holders.items; moving = p.moving; published = p.published } };

    ghost invariant = { λ p. IsPageTable (record { nodes = p.nodes; frames = p.frames; pages = p.pages.items; table = p.table.items; moves = p.moves.items; roles = p.roles.items; holders = p.holders.items; moving = p.moving; published = p.published }) };
}

/// The placed pages, rising.
fn placed_pages(alloc: Global, layout: &Layout) -> Result<Vec<u64>, NoMemory>
    ensures { IfOk result (λ pages. pages.items ≡ layout.now.pages) }
{
    let mut pages = Vec::new(alloc);
    while let Some(page) = layout.page(pages.len()) {
        pages.push(page.0)?;
    }
    Ok(pages)
}

/// The first frames of so many pages.
fn first_frames(alloc: Global, nodes: u8, pages: usize) -> Result<Vec<Frame>, NoMemory>
    requires some { 1 ≤ nodes }
    requires few { pages ≤ nodes * 1024 }
    ensures { IfOk result (λ table. table.items ≡ map (frame_at nodes) (below pages)) }
{
    let mut table = Vec::new(alloc);
    let homes = usize::from(nodes);
    for number in 0..pages {
        table.push(Frame {
            home: (number % homes) as u8,
            index: (number / homes) as u16,
        })?;
    }
    Ok(table)
}

/// What a frame is for at the start.
fn first_role(nodes: usize, frames: usize, pages: usize, frame: usize) -> Role
    requires nodes { nodes ≤ 128 }
    requires frames { (1 ≤ frames) × (frames ≤ 1024) }
    requires frame { frame < nodes * frames }
    ensures { result ≡ role_at_first nodes frames pages frame }
{
    let number = frame % frames * nodes + frame / frames;
    if number < pages {
        Role::Mapped(number)
    } else {
        Role::Free
    }
}

/// What each frame is for at the start.
fn first_roles(alloc: Global, nodes: u8, frames: u16, pages: usize) -> Result<Vec<Role>, NoMemory>
    requires nodes { nodes ≤ 128 }
    requires frames { (1 ≤ frames) × (frames ≤ 1024) }
    ensures { IfOk result (λ roles. roles.items ≡ map (role_at_first nodes frames pages) (below (nodes * frames))) }
{
    let mut roles = Vec::new(alloc);
    let homes = usize::from(nodes);
    let each = usize::from(frames);
    let all = homes * each;
    for frame in 0..all {
        roles.push(first_role(homes, each, pages, frame))?;
    }
    Ok(roles)
}

/// Whether a frame of this role is free.
fn is_free(role: &Role) -> bool
    ensures { result ≡ is_free_role role.now }
{
    matches!(role, Role::Free)
}

/// Of frames of these roles, the place of the first free one.
fn free_place(roles: &[Role]) -> Option<usize>
    ensures place { result ≡ position is_free_role roles.now }
    ensures inside { IfSome result (λ place. place < length roles.now) }
{
    roles.iter().position(|role| is_free(role))
}

/// Of frames of these roles, the place of the one that was left first.
fn oldest_place(roles: &[Role]) -> Option<usize>
    ensures place { result ≡ position (is_left_first roles.now) roles.now }
    ensures inside { IfSome result (λ place. place < length roles.now) }
{
    let mut oldest: Option<Left> = None;
    for (place, role) in roles.iter().enumerate() {
        oldest = older(oldest, place, role);
    }
    place_in(oldest)
}

/// A place in quarantine, and the number of the move that left it.
#[derive(Clone, Copy)]
struct Left {
    place: usize,
    moved: u64,
}

/// The place of the one that was left first.
fn place_in(oldest: Option<Left>) -> Option<usize>
    ensures { result ≡ option_map (λ left. left.place) oldest }
{
    match oldest {
        Some(left) => Some(left.place),
        None => None,
    }
}

/// Of the place that was left first so far and another one that of both which was left first.
fn older(oldest: Option<Left>, place: usize, role: &Role) -> Option<Left>
    ensures { result ≡ older_of oldest place role.now }
{
    match *role {
        Role::Quarantined(moved) => match oldest {
            Some(left) if left.moved <= moved => oldest,
            _ => Some(Left { place, moved }),
        },
        _ => oldest,
    }
}

impl Pager {
    ghost use Rattle.og_pager.specs.PageTable.{PageTable, IsPageTable, IsNode, IsFrame, has_frame, frame_number, number_of, frame_in, frame_of, role_of, page_of, holders_of, moves_of, is_free, is_quarantined, is_moving, move_of, least_free, has_free, oldest, roles_at, walk_of, walked, begun, settled, dropped, reclaimed, first_table};

    /// The page table of a layout. It takes all memory that the page table will ever need.
    #[tactic(auto, unfolding(crate::specs::PageTable::first_table))]
    pub fn make(alloc: Global, layout: &Layout, settings: &Settings) -> Result<Pager, NoMemory>
        requires { Suits layout.now settings.now.nodes settings.now.frames }
        ensures { IfOk result (λ pager. pager ≡ first_table layout.now settings.now.frames) }
    {
        let pages = placed_pages(alloc, layout)?;
        let table = first_frames(alloc, settings.nodes, pages.len())?;
        let moves = vec![in alloc; 0; pages.len()]?;
        let roles = first_roles(alloc, settings.nodes, settings.frames, pages.len())?;
        let frames = usize::from(settings.nodes) * usize::from(settings.frames);
        let holders = vec![in alloc; Nodes::none(); frames]?;
        Ok(Pager {
            nodes: settings.nodes,
            frames: settings.frames,
            pages,
            table,
            moves,
            roles,
            holders,
            moving: None,
            published: 0,
        })
    }

    /// The frame of a page for a node, which is a holder of it then; None, and nothing changes, exactly while the page moves.
    #[tactic(auto, unfolding(crate::specs::PageTable::walked, crate::specs::PageTable::holders_of, crate::specs::PageTable::frame_of))]
    pub fn walk(&mut self, page: VPage, node: NodeId) -> Option<Frame>
        requires placed { IsSome (frame_of self.old page) }
        requires node { IsNode self.old node }
        ensures frame { result ≡ walk_of self.old page }
        ensures left { self.new ≡ walked self.old page node }
    {
        if self.is_moving(page) {
            return None;
        }
        let frame = self.frame_of(page)?;
        let place = self.number(frame);
        self.holders[place].add(node);
        Some(frame)
    }

    /// The page that is in a frame, None exactly where no page has it.
    #[tactic(auto, unfolding(crate::specs::PageTable::page_of))]
    pub fn page_of(&self, frame: Frame) -> Option<VPage>
        requires { IsFrame self.now frame }
        ensures { result ≡ page_of self.now frame }
    {
        match self.roles[self.number(frame)] {
            Role::Mapped(number) => Some(VPage(self.pages[number])),
            _ => None,
        }
    }

    /// The frame that a page is in, None exactly for a page that isn't placed.
    #[tactic(auto, unfolding(crate::specs::PageTable::frame_of))]
    pub fn frame_of(&self, page: VPage) -> Option<Frame>
        ensures frame { result ≡ frame_of self.now page }
        ensures inside { (frame : Frame) → frame_of self.now page ≡ Some frame → IsFrame self.now frame }
        ensures sound { IsPageTable self.now }
    {
        match self.page_number(page) {
            Some(number) => Some(self.frame_at(number)),
            None => None,
        }
    }

    /// How many nodes the machine has.
    pub fn nodes(&self) -> u8
        ensures nodes { result ≡ self.now.nodes }
        ensures few { self.now.nodes ≤ 128 }
    {
        self.nodes
    }

    /// Whether the machine has a frame.
    pub fn has_frame(&self, frame: Frame) -> bool
        ensures { result ≡ has_frame self.now frame }
    {
        frame.home < self.nodes && frame.index < self.frames
    }

    /// How often a page was moved.
    #[tactic(auto, unfolding(crate::specs::PageTable::moves_of))]
    pub fn moves(&self, page: VPage) -> u32
        ensures { result ≡ moves_of self.now page }
    {
        match self.page_number(page) {
            Some(number) => self.moves[number],
            None => 0,
        }
    }

    /// Whether a page is being moved.
    #[tactic(auto, unfolding(crate::specs::PageTable::is_moving))]
    pub fn is_moving(&self, page: VPage) -> bool
        ensures { result ≡ is_moving self.now page }
    {
        match (self.moving, self.page_number(page)) {
            (Some(moving), Some(number)) => moving.number == number,
            _ => false,
        }
    }

    /// The move under way: its page, the frame that the page is in, and the frame that it is moved into.
    #[tactic(auto, unfolding(crate::specs::PageTable::move_of))]
    pub fn moving(&self) -> Option<(VPage, Frame, Frame)>
        ensures { result ≡ move_of self.now }
    {
        match self.move_under_way() {
            Some(moving) => Some((
                VPage(self.pages[moving.number]),
                self.frame_at(moving.number),
                moving.new,
            )),
            None => None,
        }
    }

    /// Whether a node has a free frame.
    pub fn has_free(&self, node: NodeId) -> bool
        requires { IsNode self.now node }
        ensures { result ≡ has_free self.now node }
    {
        self.least_free(node).is_some()
    }

    /// The least free frame of a node.
    #[tactic(auto, unfolding(crate::specs::PageTable::least_free))]
    fn least_free(&self, node: NodeId) -> Option<Frame>
        requires { IsNode self.now node }
        ensures frame { result ≡ least_free self.now node }
        ensures inside { (frame : Frame) → least_free self.now node ≡ Some frame → IsFrame self.now frame }
        ensures sound { IsPageTable self.now }
    {
        let index = free_place(self.roles_at(node))?;
        Some(Frame {
            home: node,
            index: index as u16,
        })
    }

    /// Begins to move a page into the least free frame of a node, and gives that frame.
    #[tactic(auto, unfolding(crate::specs::PageTable::begun, crate::specs::PageTable::move_of, crate::specs::PageTable::frame_of))]
    pub fn begin(&mut self, page: VPage, node: NodeId) -> Frame
        requires placed { IsSome (frame_of self.old page) }
        requires node { IsNode self.old node }
        requires free { IsTrue (has_free self.old node) }
        requires idle { move_of self.old ≡ None }
        ensures frame { least_free self.old node ≡ Some result }
        ensures left { self.new ≡ begun self.old page node }
    {
        let number = self.page_number(page).unwrap();
        let new = self.least_free(node).unwrap();
        let place = self.number(new);
        self.roles[place] = Role::Target(number);
        self.moving = Some(Moving { number, new });
        new
    }

    /// Publishes the move under way: its page is in the new frame, and the old frame is last in quarantine.
    #[tactic(auto, unfolding(crate::specs::PageTable::settled, crate::specs::PageTable::move_of))]
    pub fn settle(&mut self)
        requires moves { IsSome (move_of self.old) }
        requires few { (page : VPage) (old new : Frame) → move_of self.old ≡ Some (page, old, new) → moves_of self.old page < 2 ^ 32 - 1 }
        ensures { self.new ≡ settled self.old }
    {
        let Some(moving) = self.move_under_way() else {
            return;
        };
        let number = moving.number;
        let old = self.number(self.frame_at(number));
        let place = self.number(moving.new);
        self.table[number] = moving.new;
        self.moves[number] += 1;
        self.roles[old] = Role::Quarantined(self.published);
        self.roles[place] = Role::Mapped(number);
        self.moving = None;
        self.published += 1;
    }

    /// The frame of a node that is in quarantine longest, None exactly where the node has no frame in quarantine.
    #[tactic(auto, unfolding(crate::specs::PageTable::oldest))]
    pub fn oldest(&self, node: NodeId) -> Option<Frame>
        requires { IsNode self.now node }
        ensures { result ≡ oldest self.now node }
    {
        let index = oldest_place(self.roles_at(node))?;
        Some(Frame {
            home: node,
            index: index as u16,
        })
    }

    /// Whether a frame is in quarantine.
    #[tactic(auto, unfolding(crate::specs::PageTable::is_quarantined))]
    pub fn is_quarantined(&self, frame: Frame) -> bool
        requires { IsFrame self.now frame }
        ensures { result ≡ is_quarantined self.now frame }
    {
        matches!(self.roles[self.number(frame)], Role::Quarantined(_))
    }

    /// The nodes that were told of a frame and haven't dropped it.
    #[tactic(auto, unfolding(crate::specs::PageTable::holders_of))]
    pub fn holders(&self, frame: Frame) -> &Nodes
        requires { IsFrame self.now frame }
        ensures { result.now ≡ holders_of self.now frame }
    {
        &self.holders[self.number(frame)]
    }

    /// A node has dropped a frame: it isn't a holder any more.
    #[tactic(auto, unfolding(crate::specs::PageTable::dropped, crate::specs::PageTable::holders_of))]
    pub fn dropped(&mut self, frame: Frame, node: NodeId)
        requires frame { IsFrame self.old frame }
        requires node { IsNode self.old node }
        ensures { self.new ≡ dropped self.old frame node }
    {
        let place = self.number(frame);
        self.holders[place].remove(node);
    }

    /// Frees a frame in quarantine that no node holds.
    #[tactic(auto, unfolding(crate::specs::PageTable::reclaimed))]
    pub fn reclaim(&mut self, frame: Frame)
        requires frame { IsFrame self.old frame }
        requires quarantined { IsTrue (is_quarantined self.old frame) }
        requires unheld { set.len (holders_of self.old frame) ≡ 0 }
        ensures { self.new ≡ reclaimed self.old frame }
    {
        let place = self.number(frame);
        self.roles[place] = Role::Free;
    }

    /// What the frames of a node are for.
    fn roles_at(&self, node: NodeId) -> &[Role]
        requires { IsNode self.now node }
        ensures roles { result.now ≡ roles_at self.now node }
        ensures all { length result.now ≡ self.now.frames }
        ensures sound { IsPageTable self.now }
    {
        let frames = usize::from(self.frames);
        let first = usize::from(node) * frames;
        &self.roles[first..first + frames]
    }

    /// The move under way.
    fn move_under_way(&self) -> Option<Moving>
        ensures move_is { result ≡ self.now.moving }
        ensures low { (moving : Moving) → self.now.moving ≡ Some moving → moving.number < length self.now.pages }
        ensures inside { (moving : Moving) → self.now.moving ≡ Some moving → IsFrame self.now moving.new }
        ensures sound { IsPageTable self.now }
    {
        self.moving
    }

    /// The frame of the page with a number.
    fn frame_at(&self, number: usize) -> Frame
        requires { number < length self.now.pages }
        ensures frame { result ≡ frame_in self.now number }
        ensures inside { IsFrame self.now result }
        ensures sound { IsPageTable self.now }
    {
        self.table[number]
    }

    /// The page's number among the placed pages.
    fn page_number(&self, page: VPage) -> Option<usize>
        ensures number { result ≡ number_of self.now page }
        ensures inside { (number : ℕ) → number_of self.now page ≡ Some number → number < length self.now.pages }
        ensures sound { IsPageTable self.now }
    {
        match self.pages.as_slice().binary_search(&page.0) {
            Ok(number) => Some(number),
            Err(_) => None,
        }
    }

    /// The frame's number among all frames.
    fn number(&self, frame: Frame) -> usize
        requires { IsFrame self.now frame }
        ensures number { result ≡ frame_number self.now frame }
        ensures inside { result < self.now.nodes * self.now.frames }
        ensures sound { IsPageTable self.now }
    {
        usize::from(frame.home) * usize::from(self.frames) + usize::from(frame.index)
    }
}
