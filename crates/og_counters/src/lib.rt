//! The counters of a home: how often each node asked for blocks of each of the home's frames.
//!
//! The Origin 2000 has such counters beside each page of memory, for the migration of pages (J. Laudon
//! and D. Lenoski, "The SGI Origin: A ccNUMA Highly Scalable Server", ISCA 1997). When to notice a
//! node is this machine's own rule, after the trigger and reset thresholds of Verghese, Devine, Gupta
//! and Rosenblum ("Operating System Support for Improving Data Locality on CC-NUMA Compute Servers",
//! ASPLOS 1996). `specs/Counts` has the rule: a counted request raises its node's count; where that has
//! passed the home's own count by the trigger, and no notice of the frame is open, the home notices the
//! node; where the sum of the frame's counts has reached the reset, all of them are 0 again.
//!
//! Below stand the names and settings; above it a node's home part. All memory is taken by
//! [`Counters::make`]: 4 bytes for each frame and node, and 5 for each frame. A count costs the same
//! with 128 nodes as with one: the sum of a frame's counts is kept beside them, so nothing is added up.
//! Two things are a pass over the nodes. The greatest count of the others is looked for where a notice is
//! made, and of a frame at most one notice is open. The counts are set to 0 once in so many counts as the
//! reset says; with a reset of 1 that is at each count.
#![tactic(auto)]

ghost use Rattle.std.specs.Prelude.{◌≡◌, ◌≤◌, ◌<◌, ◌+◌, ◌*◌, IfOk, ℕ, length, slice_index, nat_le, nat_lt, nat_eq, ◌&&◌, ◌||◌, if◌then◌else◌};
ghost use Rattle.og_counters.specs.Kept.{counters_of, AreCounters};
ghost use Rattle.og_counters.specs.Counts.{new_counters, count_step, reset_step, with_frame, counted, cleared, sum_of, most_of_others, notice_of};

use og_base::{Frame, Hot, NoMemory, NodeId, Settings};
use std::alloc::Global;
use std::marker::Model;

#[cfg(test)]
mod tests;

/// By what a home counts: which home it is, how many nodes there are and frames it has, by how much a
/// node's count has to pass the home's, and at which sum the counts of a frame begin anew.
#[derive(Clone, Copy, PartialEq, Eq, Debug)]
pub struct CountRules {
    pub home: NodeId,
    pub nodes: u8,
    pub frames: u16,
    pub trigger: u32,
    pub reset: u32,
}

/// The counters of a home.
#[derive(Drop)]
pub struct Counters {
    rules: CountRules,
    // The count of each frame and node, frame after frame.
    counts: Vec<u32>,
    // The sum of each frame's counts.
    sums: Vec<u32>,
    // Of which frames a notice is open.
    noticed: Vec<bool>,
}

impl Model for Counters {
    ghost use Rattle.og_counters.specs.Kept.{KeptCounts, AreCounters};

    ghost Value = { KeptCounts };

    ghost view = { λ c. record { rules = c.rules; counts = c.counts.items; sums = c.sums.items; noticed = c.noticed.items } };

    ghost invariant = { λ c. AreCounters (record { rules = c.rules; counts = c.counts.items; sums = c.sums.items; noticed = c.noticed.items }) };
}

impl Counters {
    /// Counters that are all 0. It takes all memory that they will ever need.
    pub fn make(alloc: Global, home: NodeId, settings: &Settings) -> Result<Counters, NoMemory>
        requires { home < settings.now.nodes }
        ensures { IfOk result (λ counters. counters_of counters ≡ new_counters home settings.now) }
    {
        let frames = usize::from(settings.frames);
        let counts = vec![in alloc; 0; frames * usize::from(settings.nodes)]?;
        let sums = vec![in alloc; 0; frames]?;
        let noticed = vec![in alloc; false; frames]?;
        let rules = CountRules {
            home,
            nodes: settings.nodes,
            frames: settings.frames,
            trigger: settings.trigger,
            reset: settings.reset,
        };
        Ok(Counters {
            rules,
            counts,
            sums,
            noticed,
        })
    }

    /// By what the counters count.
    pub fn rules(&self) -> &CountRules
        ensures rules { result.now ≡ (counters_of self.now).rules }
        ensures sound { AreCounters self.now }
    {
        &self.rules
    }

    /// Counts a request of a node for a block of a frame, and gives the notice that it makes, if it makes one.
    pub fn count(&mut self, index: u16, node: NodeId) -> Option<Hot>
        requires frame { index < (counters_of self.old).rules.frames }
        requires node { node < (counters_of self.old).rules.nodes }
        ensures counted { counters_of self.new ≡ (count_step (counters_of self.old) index node).0 }
        ensures notice { result ≡ (count_step (counters_of self.old) index node).1 }
    {
        let hot = self.notice(index, node);
        let noticed = self.is_noticed(index) | hot.is_some();
        self.set_noticed(index, noticed);
        if self.is_full(index) {
            self.clear(index);
        } else {
            self.raise(index, node);
        }
        hot
    }

    /// Makes all counts of a frame 0, and closes its notice.
    pub fn reset(&mut self, index: u16)
        requires { index < (counters_of self.old).rules.frames }
        ensures { counters_of self.new ≡ reset_step (counters_of self.old) index }
    {
        self.clear(index);
        self.set_noticed(index, false);
    }
}

impl Counters {
    /// The number of a frame's first count among all counts.
    fn first(&self, index: u16) -> usize
        requires { index < (counters_of self.now).rules.frames }
        ensures value { result ≡ index * (counters_of self.now).rules.nodes }
        ensures inside { result + (counters_of self.now).rules.nodes ≤ length self.now.counts }
        ensures sound { AreCounters self.now }
    {
        usize::from(index) * usize::from(self.rules.nodes)
    }

    /// A node's count on a frame.
    fn count_of(&self, index: u16, node: NodeId) -> u32
        requires frame { index < (counters_of self.now).rules.frames }
        requires node { node < (counters_of self.now).rules.nodes }
        ensures value { result ≡ ((counters_of self.now).frame index).count node }
        ensures low { result < 1000000 }
    {
        self.counts[self.first(index) + usize::from(node)]
    }

    /// The sum of a frame's counts.
    fn sum(&self, index: u16) -> u32
        requires { index < (counters_of self.now).rules.frames }
        ensures value { result ≡ sum_of (counters_of self.now).rules.nodes ((counters_of self.now).frame index).count }
        ensures low { result < (counters_of self.now).rules.reset }
        ensures sound { AreCounters self.now }
    {
        self.sums[usize::from(index)]
    }

    /// Whether a notice of a frame is open.
    fn is_noticed(&self, index: u16) -> bool
        requires { index < (counters_of self.now).rules.frames }
        ensures { result ≡ ((counters_of self.now).frame index).noticed }
    {
        self.noticed[usize::from(index)]
    }

    /// The notice that a request of a node makes, if it makes one: before the request is counted.
    fn notice(&self, index: u16, node: NodeId) -> Option<Hot>
        requires frame { index < (counters_of self.now).rules.frames }
        requires node { node < (counters_of self.now).rules.nodes }
        ensures { result ≡ notice_of (counters_of self.now) index node }
    {
        let rules = *self.rules();
        if node == rules.home {
            return None;
        }
        if self.is_noticed(index) {
            return None;
        }
        let count = self.count_of(index, node) + 1;
        if count < self.count_of(index, rules.home) + rules.trigger {
            return None;
        }
        Some(Hot {
            frame: Frame {
                home: rules.home,
                index,
            },
            node,
            count,
            most: self.most_of_others(index, node),
        })
    }

    /// The greatest count on a frame of the nodes other than this one and the home.
    fn most_of_others(&self, index: u16, node: NodeId) -> u32
        requires { index < (counters_of self.now).rules.frames }
        ensures { result ≡ most_of_others (counters_of self.now).rules.nodes (counters_of self.now).rules.home node ((counters_of self.now).frame index).count }
    {
        let nodes = self.rules().nodes;
        let mut most = 0;
        for other in 0..nodes {
            most = most.max(self.other_count(index, other, node));
        }
        most
    }

    /// What a node's count on a frame is among the others: 0 for this node and for the home.
    fn other_count(&self, index: u16, other: NodeId, node: NodeId) -> u32
        requires frame { index < (counters_of self.now).rules.frames }
        requires other { other < (counters_of self.now).rules.nodes }
        ensures { result ≡ (if nat_eq other node || nat_eq other (counters_of self.now).rules.home then 0 else ((counters_of self.now).frame index).count other) }
    {
        if other == node || other == self.rules().home {
            0
        } else {
            self.count_of(index, other)
        }
    }

    /// Whether one more count makes the sum of a frame's counts reach the reset.
    fn is_full(&self, index: u16) -> bool
        requires { index < (counters_of self.now).rules.frames }
        ensures { result ≡ nat_le (counters_of self.now).rules.reset (sum_of (counters_of self.now).rules.nodes ((counters_of self.now).frame index).count + 1) }
    {
        self.sum(index) + 1 >= self.rules().reset
    }

    /// Opens or closes the notice of a frame.
    fn set_noticed(&mut self, index: u16, noticed: bool)
        requires { index < (counters_of self.old).rules.frames }
        ensures { counters_of self.new ≡ with_frame (counters_of self.old) index (record ((counters_of self.old).frame index) { noticed = noticed }) }
    {
        self.noticed[usize::from(index)] = noticed;
    }

    /// Adds 1 to a node's count on a frame.
    fn raise(&mut self, index: u16, node: NodeId)
        requires frame { index < (counters_of self.old).rules.frames }
        requires node { node < (counters_of self.old).rules.nodes }
        requires low { sum_of (counters_of self.old).rules.nodes ((counters_of self.old).frame index).count + 1 < (counters_of self.old).rules.reset }
        ensures { counters_of self.new ≡ with_frame (counters_of self.old) index (counted ((counters_of self.old).frame index) node) }
    {
        let place = self.first(index) + usize::from(node);
        let count = self.count_of(index, node) + 1;
        let sum = self.sum(index) + 1;
        self.counts[place] = count;
        self.sums[usize::from(index)] = sum;
    }

    /// Makes all counts of a frame 0.
    fn clear(&mut self, index: u16)
        requires { index < (counters_of self.old).rules.frames }
        ensures { counters_of self.new ≡ with_frame (counters_of self.old) index (cleared ((counters_of self.old).frame index)) }
    {
        let first = self.first(index);
        let nodes = usize::from(self.rules().nodes);
        zero_counts(&mut self.counts, first, nodes);
        self.sums[usize::from(index)] = 0;
    }
}

/// Makes so many counts from one on 0.
fn zero_counts(counts: &mut [u32], first: usize, many: usize)
    requires { first + many ≤ length counts.old }
    ensures zero { (k : ℕ) → slice_index counts.new k ≡ (if nat_le first k && nat_lt k (first + many) then 0 else slice_index counts.old k) }
    ensures same { length counts.new ≡ length counts.old }
{
    for k in first..first + many {
        counts[k] = 0;
    }
}
