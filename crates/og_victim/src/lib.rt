//! A node's victim slot: the one dirty block that is on its way home.
//!
//! A node that throws a dirty block out sends it home by a write-back and keeps the block's name
//! here until the write-back is settled. While it is on its way the home may ask the old owner for
//! the block, and the two cross: the intervention finds the slot in place of a copy, and the home,
//! which takes the write-back for the answer, acknowledges it as *busy* (Laudon and Lenoski, "The
//! SGI Origin", ISCA 1997, section 3.2). So two things settle the write-back then, in either order,
//! and a flag each says which of them was there. `specs/Slot` has the table.
//!
//! Below stand the names of blocks, above it the node. Each call takes a few steps and no memory.
#![tactic(auto)]

ghost use Rattle.og_victim.specs.Laws.{OneFlagStands};

use og_base::Block;

#[cfg(test)]
mod tests;

/// A node's victim slot.
#[derive(Clone, Copy, PartialEq, Eq, Debug)]
pub enum Slot {
    /// No write-back is to be settled.
    Free,
    /// A block's write-back is to be settled.
    Taken {
        block: Block,
        /// A busy acknowledgement came, and the intervention is still to come.
        busy: bool,
        /// An intervention came, and the busy acknowledgement is still to come.
        seen: bool,
    },
}

impl Slot {
    ghost use Rattle.std.specs.Prelude.{◌≡◌, ◌≢◌, false, IsTrue};
    ghost use Rattle.og_victim.specs.Slot.{is_free_slot, is_slot_of, after_ack, after_intervention};

    /// A slot that nothing is in.
    pub fn free() -> Slot
        ensures { result ≡ Slot.Free }
    {
        Slot::Free
    }

    /// Whether nothing is in the slot.
    pub fn is_free(&self) -> bool
        ensures { result ≡ is_free_slot self.now }
    {
        matches!(self, Slot::Free)
    }

    /// Whether the slot holds this block.
    pub fn holds(&self, block: Block) -> bool
        ensures { result ≡ is_slot_of self.now block }
    {
        match *self {
            Slot::Free => false,
            Slot::Taken { block: held, .. } => held == block,
        }
    }

    /// Takes the slot for a block that is sent home.
    pub fn put(&mut self, block: Block)
        requires { IsTrue (is_free_slot self.old) }
        ensures { self.new ≡ Slot.Taken block false false }
    {
        *self = Slot::Taken {
            block,
            busy: false,
            seen: false,
        };
    }

    /// The write-back's acknowledgement came, a busy one or a plain one.
    pub fn ack(&mut self, busy: bool)
        requires { is_free_slot self.old ≡ false }
        ensures { self.new ≡ after_ack self.old busy }
    {
        *self = match *self {
            Slot::Taken {
                block,
                seen: false,
                ..
            } if busy => Slot::Taken {
                block,
                busy: true,
                seen: false,
            },
            _ => Slot::Free,
        };
    }

    /// An intervention for the slot's block came.
    pub fn intervene(&mut self)
        requires { is_free_slot self.old ≡ false }
        ensures { self.new ≡ after_intervention self.old }
    {
        *self = match *self {
            Slot::Taken {
                block,
                busy: false,
                ..
            } => Slot::Taken {
                block,
                busy: false,
                seen: true,
            },
            _ => Slot::Free,
        };
    }
}

/// The two flags never stand together: what would be the second of them frees the slot.
pub fn one_flag_stands()
    ensures { OneFlagStands }
{}
