//! Messages in flight as an index: a slab of messages and a sorted list of small entries.
//!
//! Contracts see the canonical list of `og_runs`: by receiver, then sender, then number.
#![tactic(auto)]

ghost use Rattle.std.specs.Prelude.{◌≡◌, ℕ, ◌+◌, ◌<◌, ◌≤◌, ◌^◌, IfOk, None, Some, length, slice_get, vec_len, vec_capacity};
ghost use Rattle.og_runs.specs.World.{find, without, placed, InPlace, Distinct};
ghost use Rattle.og_flight.specs.Flight.{before, rank_of, IsRanked, found_for, messages_to, messages_below, first_sent, Went, place_of, AllSlots, messages_of, sent_before, sooner_of};
ghost use Rattle.std.specs.Prelude.{[], ◌∷◌, ◌++◌, take, drop, is_some};
ghost use Rattle.og_runs.specs.declared.Msg.{Msg};

use og_runs::{Msg, MsgId};
use std::alloc::{AllocError, Global};
use std::marker::Model;

/// A message's place in the order, and its slot in the slab.
#[derive(Clone, Copy)]
struct IndexEntry {
    slot: u32,
    to: u8,
    sender: u8,
    seq: u64,
}

/// The messages in flight.
#[derive(Drop)]
pub struct Flight<K> {
    entries: Vec<IndexEntry>,
    slab: Vec<Msg<K>>,
    free: Vec<u32>,
}

impl<K> Model for Flight<K> {
    ghost use Rattle.std.specs.Prelude.{length, vec_capacity};
    ghost use Rattle.og_flight.specs.Flight.{Flying, messages_of, IsWell};

    ghost Value = { Flying K };

    ghost view = { λ f. record { messages = messages_of f.slab.items f.entries.items; room = vec_capacity f.entries } };

    ghost invariant = { λ f. IsWell f.entries.items f.slab.items f.free.items (vec_capacity f.entries) (vec_capacity f.slab) (vec_capacity f.free) };
}

/// Whether the entry stands before this receiver, sender and number.
fn stands_before(entry: &IndexEntry, to: u16, sender: u8, seq: u64) -> bool
    ensures { result ≡ before entry.now.to entry.now.sender entry.now.seq to sender seq }
{
    if entry.to as u16 != to {
        return (entry.to as u16) < to;
    }
    if entry.sender != sender {
        return entry.sender < sender;
    }
    entry.seq < seq
}

/// How many entries stand before this receiver, sender and number.
fn bisect(entries: &[IndexEntry], to: u16, sender: u8, seq: u64) -> usize
    requires { IsRanked to sender seq entries.now }
    ensures rank { result ≡ rank_of to sender seq entries.now }
    ensures within { result ≤ length entries.now }
{
    let mut low = 0;
    let mut high = entries.len();
    while low < high {
        let middle = low + (high - low) / 2;
        if stands_before(&entries[middle], to, sender, seq) {
            low = middle + 1;
        } else {
            high = middle;
        }
    }
    low
}

/// Where the entry of this receiver and id stands.
fn seek(entries: &[IndexEntry], to: u8, id: MsgId) -> Option<usize>
    requires { IsRanked to id.sender id.seq entries.now }
    ensures { result ≡ place_of to id entries.now }
{
    let at = bisect(entries, to as u16, id.sender, id.seq);
    if at < entries.len() {
        let entry = entries[at];
        if entry.to == to && entry.sender == id.sender && entry.seq == id.seq {
            return Some(at);
        }
    }
    None
}

/// Puts a message into a free slot, or into a new one.
fn keep<K: Copy>(slab: &mut Vec<Msg<K>>, free: &mut Vec<u32>, message: Msg<K>) -> u32
    requires slots { AllSlots (length slab.old.items) free.old.items }
    requires room { free.old.items ≡ [] → vec_len slab.old < vec_capacity slab.old }
    requires small { vec_capacity slab.old < 2 ^ 31 }
    ensures went { Went slab.old.items slab.new.items free.old.items free.new.items result message }
    ensures slots_stay { vec_capacity slab.new ≡ vec_capacity slab.old }
    ensures frees_stay { vec_capacity free.new ≡ vec_capacity free.old }
{
    match free.pop() {
        Some(slot) => {
            slab[slot as usize] = message;
            slot
        }
        None => {
            let slot = slab.len() as u32;
            slab.push_reserved(message);
            slot
        }
    }
}

/// Puts an item at its place. There is room.
pub fn put<T: Copy>(items: &mut Vec<T>, at: usize, item: T)
    requires within { at ≤ length items.old.items }
    requires room { length items.old.items < vec_capacity items.old }
    ensures items { items.new.items ≡ take at items.old.items ++ item ∷ drop at items.old.items }
    ensures length { length items.new.items ≡ length items.old.items + 1 }
    ensures capacity { vec_capacity items.new ≡ vec_capacity items.old }
{
    let _put = items.insert(at, item);
}

/// Whether the first message was sent before the second: by clock, then sender, then number.
fn was_sent_before<K: Copy>(first: &Msg<K>, second: &Msg<K>) -> bool
    ensures { result ≡ sent_before first.now second.now }
{
    if first.stamp.clock != second.stamp.clock {
        return first.stamp.clock < second.stamp.clock;
    }
    if first.id.sender != second.id.sender {
        return first.id.sender < second.id.sender;
    }
    first.id.seq < second.id.seq
}

/// The one that was sent first.
fn sooner<K: Copy>(message: Msg<K>, other: Option<Msg<K>>) -> Option<Msg<K>>
    ensures { result ≡ sooner_of message other }
{
    match other {
        Some(second) => {
            if was_sent_before(&message, &second) {
                Some(message)
            } else {
                Some(second)
            }
        }
        None => Some(message),
    }
}

impl<K: Copy> Flight<K> {
    /// No messages, with room for so many. All memory is taken here.
    pub fn make(alloc: Global, room: usize) -> Result<Self, AllocError>
        requires { room < 2 ^ 31 }
        ensures { IfOk result (λ f. f ≡ record { messages = []; room = room }) }
    {
        let entries = Vec::with_capacity(alloc, room)?;
        let slab = Vec::with_capacity(alloc, room)?;
        let free = Vec::with_capacity(alloc, room)?;
        Ok(Flight {
            entries,
            slab,
            free,
        })
    }

    /// How many messages are in flight.
    pub fn len(&self) -> usize
        ensures value { result ≡ length self.now.messages }
        ensures within { result ≤ self.now.room }
        ensures small { self.now.room < 2 ^ 31 }
    {
        self.entries.len()
    }

    /// How many messages may be in flight.
    pub fn room(&self) -> usize
        ensures { result ≡ self.now.room }
    {
        self.entries.capacity()
    }

    /// A message goes into flight, and stands at the place that is returned.
    pub fn send(&mut self, message: Msg<K>) -> usize
        requires room { length self.old.messages < self.old.room }
        requires new { find message.id self.old.messages ≡ None }
        ensures sent { self.new ≡ record { messages = placed message self.old.messages; room = self.old.room } }
        ensures place { slice_get self.new.messages result ≡ Some message }
    {
        let at = bisect(
            &self.entries,
            message.to as u16,
            message.id.sender,
            message.id.seq,
        );
        let slot = keep(&mut self.slab, &mut self.free, message);
        let entry = IndexEntry {
            slot,
            to: message.to,
            sender: message.id.sender,
            seq: message.id.seq,
        };
        put(&mut self.entries, at, entry);
        at
    }

    /// The message with this id, if it is in flight to this receiver.
    pub fn look(&self, to: u8, id: MsgId) -> Option<Msg<K>>
        ensures { result ≡ found_for to id self.now.messages }
    {
        match seek(&self.entries, to, id) {
            Some(at) => {
                let slot = self.entries[at].slot;
                Some(self.slab[slot as usize])
            }
            None => None,
        }
    }

    /// The place of the message with this id, if it is in flight to this receiver.
    pub fn place(&self, to: u8, id: MsgId) -> Option<usize>
        ensures missing { result ≡ None → found_for to id self.now.messages ≡ None }
        ensures there { (k : ℕ) → result ≡ Some k → slice_get self.now.messages k ≡ found_for to id self.now.messages }
        ensures within { (k : ℕ) → result ≡ Some k → k < length self.now.messages }
    {
        seek(&self.entries, to, id)
    }

    /// Takes the message at a place out of flight.
    pub fn take_at(&mut self, k: usize) -> Msg<K>
        requires { k < length self.old.messages }
        ensures taken { slice_get self.old.messages k ≡ Some result }
        ensures left { self.new ≡ record { messages = without result.id self.old.messages; room = self.old.room } }
    {
        let slot = self.entries.remove(k).slot;
        self.free.push_reserved(slot);
        self.slab[slot as usize]
    }

    /// What an index of messages keeps: they stand in the canonical order, no two have one id, and there are no more than may be.
    pub fn stays_sound(&self)
        ensures order { InPlace self.now.messages }
        ensures distinct { Distinct self.now.messages }
        ensures within { length self.now.messages ≤ self.now.room }
        ensures small { self.now.room < 2 ^ 31 }
    {
        let _entries = &self.entries;
        let _in_flight = self.len();
    }

    /// How many messages are in flight to actors below this one.
    pub fn below(&self, actor: u16) -> usize
        ensures { result ≡ length (messages_below actor self.now.messages) }
    {
        bisect(&self.entries, actor, 0, 0)
    }

    /// How many messages are in flight to this receiver.
    pub fn count_for(&self, to: u8) -> usize
        ensures { result ≡ length (messages_to to self.now.messages) }
    {
        let _entries = &self.entries;
        let first = self.below(to as u16);
        let end = self.below(to as u16 + 1);
        end - first
    }

    /// The k-th message over all receivers in order: by receiver, then sender, then number.
    pub fn select(&self, k: usize) -> Msg<K>
        requires { k < length self.now.messages }
        ensures { slice_get self.now.messages k ≡ Some result }
    {
        let slot = self.entries[k].slot;
        self.slab[slot as usize]
    }

    /// The receiver of the k-th message over all receivers. Only the index is looked at.
    pub fn receiver(&self, k: usize) -> u8
        requires { k < length self.now.messages }
        ensures { (message : Msg K) → slice_get self.now.messages k ≡ Some message → result ≡ message.to }
    {
        self.entries[k].to
    }

    /// The name of the k-th message over all receivers. Only the index is looked at.
    pub fn id(&self, k: usize) -> MsgId
        requires { k < length self.now.messages }
        ensures { (message : Msg K) → slice_get self.now.messages k ≡ Some message → result ≡ message.id }
    {
        let entry = &self.entries[k];
        MsgId {
            sender: entry.sender,
            seq: entry.seq,
        }
    }

    /// The k-th message in flight to this receiver, by sender, then number.
    pub fn nth_for(&self, to: u8, k: usize) -> Msg<K>
        requires { k < length (messages_to to self.now.messages) }
        ensures { slice_get (messages_to to self.now.messages) k ≡ Some result }
    {
        let _entries = &self.entries;
        let first = self.below(to as u16);
        self.select(first + k)
    }

    /// The message that was sent first: by clock, then sender, then number. It looks at all messages.
    pub fn least(&self) -> Option<Msg<K>>
        ensures { result ≡ first_sent self.now.messages }
    {
        let mut least = None;
        let mut k = self.len();
        while k > 0 {
            k -= 1;
            let message = self.select(k);
            least = sooner(message, least);
        }
        least
    }

    /// Whether a message with this id is in flight. It looks at all messages.
    pub fn holds(&self, id: MsgId) -> bool
        ensures { result ≡ is_some (find id self.now.messages) }
    {
        let mut k = 0;
        while k < self.len() {
            if self.select(k).id == id {
                return true;
            }
            k += 1;
        }
        false
    }
}

#[cfg(test)]
mod tests;
