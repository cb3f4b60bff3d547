//! A directory entry, packed into two words.

ghost use Rattle.std.specs.Prelude.{◌≡◌, ◌<◌, ◌+◌, ◌*◌, ◌^◌, if◌then◌else◌, Some, IfSome};
ghost use Rattle.og_sharers.specs.Sets.{word_of};
ghost use Rattle.og_directory.specs.declared.entry.State.{State as Seen};
ghost use Rattle.og_directory.specs.Words.{head_of, set_of, state_of, FieldsFit, IsKept};

use og_base::NodeId;
use og_sharers::Sharers;
use std::marker::Model;

/// What a home knows of a block.
#[derive(Clone, Copy)]
pub enum State {
    /// No node has it.
    Unowned,
    /// Nodes of these groups may have it to read.
    Shared(Sharers),
    /// This node has the only copy, or had it and dropped it clean.
    Exclusive(NodeId),
    /// The owner was asked to share it with the requester.
    BusyShared {
        owner: NodeId,
        requester: NodeId,
    },
    /// The owner was asked to give it to the requester, which may have returned it already.
    BusyExclusive {
        owner: NodeId,
        requester: NodeId,
        returned: bool,
    },
    /// The owner was asked to give it to the mover.
    BusyPoison {
        owner: NodeId,
    },
    /// Its page has moved away.
    Poison,
}

/// A directory entry: a [`State`] in two words, a head and a set.
///
/// Bits 0 to 2 of the head are the state's number, bits 8 to 15 the owner, bits 16 to 23 the
/// requester, and bit 24 is set where the block was returned. Bit k of the set is group k. What a
/// state hasn't is 0.
#[derive(Clone, Copy)]
pub struct Entry {
    head: u64,
    set: Sharers,
}

impl Model for Entry {
    ghost use Rattle.std.proofs.Common.{ap₂};
    ghost use Rattle.og_directory.specs.declared.entry.State.{State as Seen};
    ghost use Rattle.og_directory.specs.Words.{state_of, head_of, set_of, IsPacked};
    ghost use Rattle.og_directory.specs.contracts.entry.State as state;

    ghost Value = { Seen };

    ghost coded = { state.the_row.coded };

    ghost view = { λ e. state_of e.head e.set };

    ghost invariant = { λ e. IsPacked e.head e.set };

    ghost inverse = { λ s. record { head = head_of s; set = set_of s } };

    ghost inverse_ok = { λ e packed. ap₂ (λ h s. record { head = h; set = s }) packed.head_is packed.set_is };
}

/// A node's number as a field of the head.
fn field(node: NodeId) -> u64
    ensures value { result ≡ node }
    ensures fits { result < 256 }
{
    u64::from(node)
}

/// A truth value as a field of the head.
fn flag(set: bool) -> u64
    ensures { result ≡ (if set then 1 else 0) }
{
    u64::from(set)
}

/// The head with these fields.
fn pack(number: u64, owner: u64, requester: u64, returned: u64) -> u64
    requires number { number < 8 }
    requires owner { owner < 256 }
    requires requester { requester < 256 }
    requires returned { returned < 2 }
    ensures { result ≡ number + 2 ^ 8 * owner + 2 ^ 16 * requester + 2 ^ 24 * returned }
{
    returned << 24 | requester << 16 | owner << 8 | number
}

/// The head of an entry of this state.
fn head_word(state: &State) -> u64
    ensures value { result ≡ head_of state.now }
    ensures fits { FieldsFit state.now }
{
    match *state {
        State::Unowned => 0,
        State::Shared(_) => 1,
        State::Exclusive(owner) => pack(2, field(owner), 0, 0),
        State::BusyShared { owner, requester } => pack(3, field(owner), field(requester), 0),
        State::BusyExclusive {
            owner,
            requester,
            returned,
        } => pack(4, field(owner), field(requester), flag(returned)),
        State::BusyPoison { owner } => pack(5, field(owner), 0, 0),
        State::Poison => 6,
    }
}

/// The set of an entry of this state.
fn set_part(state: &State) -> Sharers
    ensures { result ≡ set_of state.now }
{
    match *state {
        State::Shared(set) => set,
        _ => Sharers::none(),
    }
}

impl Entry {
    /// An entry of a block that no node has.
    pub fn unowned() -> Entry
        ensures { result ≡ State.Unowned }
    {
        Entry::of(State::Unowned)
    }

    /// The entry of this state.
    pub fn of(state: State) -> Entry
        ensures { result ≡ state }
    {
        Entry {
            head: head_word(&state),
            set: set_part(&state),
        }
    }

    /// The groups that may have the block to read: none but in the shared state.
    pub fn sharers(&self) -> Sharers
        ensures { result ≡ set_of self.now }
    {
        self.set
    }

    /// The state that it packs.
    pub fn state(&self) -> State
        ensures { result ≡ self.now }
    {
        unpack(self.head, self.set)
    }

    /// Its two words, head and set.
    pub fn words(&self) -> (u64, u64)
        ensures head { result.0 ≡ head_of self.now }
        ensures set { result.1 ≡ word_of 64 (set_of self.now) }
        ensures kept { IsKept self.now }
    {
        (self.head, self.set.word())
    }

    /// The entry that has these words, if there is one. So the words of an entry give that entry.
    pub fn of_words(head: u64, set: u64) -> Option<Entry>
        ensures words { IfSome result (λ e. (head_of e ≡ head) × (word_of 64 (set_of e) ≡ set)) }
        ensures read_back { (e : Seen) → IsKept e → head_of e ≡ head → word_of 64 (set_of e) ≡ set → result ≡ Some e }
    {
        let entry = Entry::of(unpack(head, Sharers::of_word(set)));
        let (same_head, same_set) = entry.words();
        if same_head == head && same_set == set {
            Some(entry)
        } else {
            None
        }
    }
}

/// The state of a head and a set.
fn unpack(head: u64, set: Sharers) -> State
    ensures { result ≡ state_of head set }
{
    let owner = (head >> 8 & 0xff) as u8;
    let requester = (head >> 16 & 0xff) as u8;
    match head & 7 {
        0 => State::Unowned,
        1 => State::Shared(set),
        2 => State::Exclusive(owner),
        3 => State::BusyShared { owner, requester },
        4 => State::BusyExclusive {
            owner,
            requester,
            returned: head >> 24 & 1 == 1,
        },
        5 => State::BusyPoison { owner },
        _ => State::Poison,
    }
}
