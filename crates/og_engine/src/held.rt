//! The line and the byte that the machine holds, before, during and after a move of their page.

ghost use Rattle.std.specs.Prelude.{◌≡◌, ◌<◌, Some};
ghost use Rattle.og_machine.specs.Held.{first_of, dirty_copy, carried, received, line_at_home, line_of_block, held, held_byte};
ghost use Rattle.og_engine.specs.Kept.{machine_of, node_seat, WasMade};

use crate::Machine;
use og_base::{BLOCK_BYTES, Block, PAGE_BLOCKS, PAGE_BYTES, VPage};
use og_line::{Line, Mode};
use og_msg::Kind;
use og_node::Node;
use og_runs::Seat;

/// The line of a node's copy of a block, if the copy is dirty.
fn dirty_at(seat: &Seat<Node>, block: Block) -> Option<Line>
    ensures { result ≡ dirty_copy block (node_seat seat.now).local }
{
    let cache = seat.local.cache();
    match cache.look(block) {
        Some(Mode::Dirty) => Some(*cache.line(block)),
        _ => None,
    }
}

/// The line of the first dirty copy of a block.
fn first_dirty(nodes: &[Seat<Node>], block: Block) -> Option<Line>
    ensures { result ≡ first_of (λ x. dirty_copy block (node_seat x).local) nodes.now }
{
    for at in 0..nodes.len() {
        let line = dirty_at(&nodes[at], block);
        if line.is_some() {
            return line;
        }
    }
    None
}

/// The line of a block that a message carries home, or to the node that gets the only copy.
fn carried_by(kind: &Kind, block: Block) -> Option<Line>
    ensures { result ≡ carried block kind.now }
{
    let (named, line) = match *kind {
        Kind::WriteBack { block, line }
        | Kind::ExclusiveResponse { block, line }
        | Kind::SharingWriteBack { block, line }
        | Kind::PoisonBack { block, line } => (block, line),
        _ => return None,
    };
    if block == named { Some(line) } else { None }
}

/// The line of the only copy of a block, if a node's outstanding request has received it.
fn received_at(seat: &Seat<Node>, block: Block) -> Option<Line>
    ensures { result ≡ received block (node_seat seat.now).local }
{
    match seat.local.request() {
        Some(request) if block == request.block() => request.response().copied(),
        _ => None,
    }
}

/// The line of the only copy of a block that the first outstanding request has received.
fn first_received(nodes: &[Seat<Node>], block: Block) -> Option<Line>
    ensures { result ≡ first_of (λ x. received block (node_seat x).local) nodes.now }
{
    for at in 0..nodes.len() {
        let line = received_at(&nodes[at], block);
        if line.is_some() {
            return line;
        }
    }
    None
}

impl Machine {
    /// The line that the machine holds for a block of a page, None exactly where the page isn't placed: the line of a dirty copy in
    /// a cache; else one that a message in flight carries; else one that an outstanding request has received as the only copy; else
    /// the home's.
    pub fn line(&self, page: VPage, number: u8) -> Option<Line>
        requires made { WasMade self.now }
        requires number { number < 32 }
        ensures { result ≡ held (machine_of self.now) page number }
    {
        let frame = self.mover.local.place(page, number)?;
        Some(self.line_of(Block { frame, number }))
    }

    /// The byte that the machine holds at an address, None exactly where the address isn't in a placed page.
    pub fn peek(&self, address: u64) -> Option<u8>
        requires made { WasMade self.now }
        ensures { result ≡ held_byte (machine_of self.now) address }
    {
        let number = address / BLOCK_BYTES % u64::from(PAGE_BLOCKS);
        let line = self.line(VPage(address / PAGE_BYTES), number as u8)?;
        Some(line.bytes[(address % BLOCK_BYTES) as usize])
    }

    /// The line that the machine holds for a block.
    fn line_of(&self, block: Block) -> Line
        requires made { WasMade self.now }
        requires home { block.frame.home < self.now.settings.nodes }
        requires frame { block.frame.index < self.now.settings.frames }
        requires number { block.number < 32 }
        ensures { line_of_block (machine_of self.now) block ≡ Some result }
    {
        if let Some(dirty) = first_dirty(&self.nodes, block) {
            return dirty;
        }
        if let Some(carried) = self.first_carried(block) {
            return carried;
        }
        if let Some(received) = first_received(&self.nodes, block) {
            return received;
        }
        *self.line_at_home(block)
    }

    /// The line of a block that the first message in flight carries.
    fn first_carried(&self, block: Block) -> Option<Line>
        ensures { result ≡ first_of (λ m. carried block m.kind) self.now.flight.messages }
    {
        let flight = self.choices.flight();
        for at in 0..flight.len() {
            let line = carried_by(&flight.select(at).kind, block);
            if line.is_some() {
                return line;
            }
        }
        None
    }

    /// The line that a block's home has.
    fn line_at_home(&self, block: Block) -> &Line
        requires made { WasMade self.now }
        requires home { block.frame.home < self.now.settings.nodes }
        requires frame { block.frame.index < self.now.settings.frames }
        requires number { block.number < 32 }
        ensures { first_of (λ x. line_at_home block x.local) (machine_of self.now).seats ≡ Some result.now }
    {
        let home = &self.nodes[usize::from(block.frame.home)];
        home.local.home().line(block.frame.index, block.number)
    }
}
