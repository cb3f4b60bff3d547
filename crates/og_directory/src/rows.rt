//! Which messages have a row at an entry.

ghost use Rattle.std.specs.Prelude.{◌≡◌, ◌↔◌, ℕ, IsTrue, is_some};
ghost use Rattle.og_base.specs.declared.Block.{Block as Place};
ghost use Rattle.og_line.specs.declared.Line.{Line as Memory};
ghost use Rattle.og_directory.specs.Table.{upgrade_row, write_back_row, sharing_row, transfer_row, poisoned_row, poison_row, copy_row, row_of, NamesNodes};

use crate::{Entry, State};
use og_base::ActorId;
use og_msg::{Kind, Msg};

impl Entry {
    /// Whether the nodes that the entry names are nodes of a machine of so many.
    pub fn names_nodes(&self, nodes: u8) -> bool
        ensures { IsTrue result ↔ NamesNodes nodes self.now }
    {
        match self.state() {
            State::Exclusive(owner) | State::BusyPoison { owner } => owner < nodes,
            State::BusyShared { owner, requester }
            | State::BusyExclusive {
                owner,
                requester,
                ..
            } => { owner < nodes && requester < nodes }
            State::Unowned | State::Shared(_) | State::Poison => true,
        }
    }

    /// Whether the home's table has a row for this message at this entry.
    pub fn has_row(&self, msg: &Msg) -> bool
        ensures { (n : ℕ) (m : Memory) → result ≡ is_some (row_of n m msg.now self.now) }
    {
        let sender = msg.id.sender;
        match msg.kind {
            Kind::Read { .. } | Kind::ReadEx { .. } => true,
            Kind::Upgrade { .. } => can_be_upgraded(self, sender),
            Kind::WriteBack { .. } => can_be_written_back(self, sender),
            Kind::SharingWriteBack { .. } | Kind::SharingTransfer { .. } => {
                can_be_shared(self, sender)
            }
            Kind::DirtyTransfer { .. } => can_be_transferred(self, sender),
            Kind::PoisonRead { .. } => can_be_poisoned(self),
            Kind::PoisonBack { .. } | Kind::PoisonClean { .. } => can_be_given_up(self, sender),
            Kind::CopyIn { .. } => can_be_copied_in(self),
            _ => false,
        }
    }
}

fn can_be_upgraded(entry: &Entry, sender: ActorId) -> bool
    ensures { (n : ℕ) (m : Memory) (b : Place) → result ≡ is_some (upgrade_row n m sender b entry.now) }
{
    match entry.state() {
        State::Exclusive(owner) => owner != sender,
        _ => true,
    }
}

fn can_be_written_back(entry: &Entry, sender: ActorId) -> bool
    ensures { (n : ℕ) (b : Place) (l : Memory) → result ≡ is_some (write_back_row n sender b l entry.now) }
{
    match entry.state() {
        State::Exclusive(owner) | State::BusyShared { owner, .. } | State::BusyPoison { owner } =>
            owner == sender,
        State::BusyExclusive {
            owner,
            requester,
            returned,
        } => !returned && (owner == sender || requester == sender),
        State::Unowned | State::Shared(_) | State::Poison => false,
    }
}

fn can_be_shared(entry: &Entry, sender: ActorId) -> bool
    ensures { (n : ℕ) (l : Memory) → result ≡ is_some (sharing_row n sender l entry.now) }
{
    match entry.state() {
        State::BusyShared { owner, .. } => owner == sender,
        _ => false,
    }
}

fn can_be_transferred(entry: &Entry, sender: ActorId) -> bool
    ensures { (m : Memory) → result ≡ is_some (transfer_row m sender entry.now) }
{
    match entry.state() {
        State::BusyExclusive { owner, .. } => owner == sender,
        _ => false,
    }
}

fn can_be_given_up(entry: &Entry, sender: ActorId) -> bool
    ensures { (n : ℕ) (b : Place) (l : Memory) → result ≡ is_some (poisoned_row n sender b l entry.now) }
{
    match entry.state() {
        State::BusyPoison { owner } => owner == sender,
        _ => false,
    }
}

fn can_be_poisoned(entry: &Entry) -> bool
    ensures { (n : ℕ) (m : Memory) (b : Place) → result ≡ is_some (poison_row n m b entry.now) }
{
    !matches!(entry.state(), State::BusyPoison { .. } | State::Poison)
}

fn can_be_copied_in(entry: &Entry) -> bool
    ensures { (n : ℕ) (b : Place) (l : Memory) → result ≡ is_some (copy_row n b l entry.now) }
{
    matches!(entry.state(), State::Unowned)
}
