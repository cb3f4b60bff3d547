//! A set of groups of nodes.

ghost use Rattle.std.specs.Prelude.{◌≡◌, ℕ, ◌<◌, ◌≤◌, ◌&&◌, ◌||◌, not, nat_eq, nat_lt, true, false, IfSome, IfNone};
ghost use Rattle.std.specs.FinSet as set;
ghost use Rattle.og_base.specs.Groups.{group_of};
ghost use Rattle.og_sharers.specs.Sets.{members_of as groups_of_word, word_of, is_other};

use crate::Nodes;
use og_base::{NodeId, group_size};
use std::marker::Model;

/// A set of groups of nodes, of a machine of up to 128 nodes: at most 64 groups.
#[derive(Clone, Copy)]
pub struct Sharers {
    bits: u64,
}

impl Model for Sharers {
    ghost use Rattle.std.specs.Prelude.{◌<◌, ◌^◌};
    ghost use Rattle.std.specs.Ordering.{nat_cmp};
    ghost use Rattle.std.specs.FinSet as set;
    ghost use Rattle.std.specs.Coded.{coded_ℕ};
    ghost use Rattle.og_sharers.specs.Sets.{members_of, word_of};
    ghost use Rattle.og_sharers.specs.SetLaws.{word_of-members_of};
    ghost use Rattle.std.proofs.Common.{ap};

    ghost Value = { set.FinSet nat_cmp };

    ghost coded = { set.code coded_ℕ };

    ghost view = { λ s. members_of 64 s.bits };

    ghost invariant = { λ s. s.bits < 2 ^ 64 };

    ghost inverse = { λ s. record { bits = word_of 64 s } };

    ghost inverse_ok = { λ s low. ap (λ b. record { bits = b }) (word_of-members_of 64 s.bits low) };
}

/// The group of a node. There are never more than 64.
fn group(node: NodeId, nodes: u8) -> u8
    requires node { node < nodes }
    requires nodes { nodes ≤ 128 }
    ensures value { result ≡ group_of nodes node }
    ensures few { result < 64 }
{
    node / group_size(nodes)
}

/// Puts a node in, if there is such a node and it isn't `node`.
fn add_other(others: &mut Nodes, other: u8, node: NodeId, nodes: u8)
    requires nodes { nodes ≤ 128 }
    ensures { (k : ℕ) → set.contains others.new k ≡ (set.contains others.old k || (nat_eq k other && (nat_lt k nodes && not (nat_eq k node)))) }
{
    if other < nodes && other != node {
        others.add(other);
    }
}

/// Puts the nodes of a group in, without `node`.
fn add_group(others: &mut Nodes, group: u8, node: NodeId, nodes: u8)
    requires group { group < 64 }
    requires nodes { nodes ≤ 128 }
    ensures { (k : ℕ) → set.contains others.new k ≡ (set.contains others.old k || (nat_eq (group_of nodes k) group && (nat_lt k nodes && not (nat_eq k node)))) }
{
    let size = group_size(nodes);
    let first = group * size;
    add_other(others, first, node, nodes);
    add_other(others, first + size - 1, node, nodes);
}

impl Sharers {
    /// The empty set.
    pub fn none() -> Sharers
        ensures { result ≡ set.empty }
    {
        Sharers { bits: 0 }
    }

    /// Puts a node's group in.
    pub fn add(&mut self, node: NodeId, nodes: u8)
        requires node { node < nodes }
        requires nodes { nodes ≤ 128 }
        ensures { self.new ≡ set.insert self.old (group_of nodes node) }
    {
        self.bits |= 1 << group(node, nodes);
    }

    /// Whether a node's group is in.
    pub fn has(&self, node: NodeId, nodes: u8) -> bool
        requires node { node < nodes }
        requires nodes { nodes ≤ 128 }
        ensures { result ≡ set.contains self.now (group_of nodes node) }
    {
        self.bits >> group(node, nodes) & 1 == 1
    }

    /// The nodes below `nodes` of its groups, without `node`.
    pub fn others(&self, node: NodeId, nodes: u8) -> Nodes
        requires node { node ≤ nodes }
        requires nodes { nodes ≤ 128 }
        ensures { (k : ℕ) → set.contains result k ≡ is_other self.now node nodes k }
    {
        let mut others = Nodes::none();
        let mut from = 0;
        while let Some(group) = self.least_group(from) {
            add_group(&mut others, group, node, nodes);
            from = group + 1;
        }
        others
    }

    /// The least group from `from` on, if there is one.
    fn least_group(&self, from: u8) -> Option<u8>
        ensures member { IfSome result (λ group. set.contains self.now group ≡ true) }
        ensures from { IfSome result (λ group. from ≤ group) }
        ensures few { IfSome result (λ group. group < 64) }
        ensures first { IfSome result (λ group. (k : ℕ) → from ≤ k → k < group → set.contains self.now k ≡ false) }
        ensures none { IfNone result ((k : ℕ) → from ≤ k → set.contains self.now k ≡ false) }
    {
        let bits = self.bits;
        if from >= 64 {
            return None;
        }
        let rest = bits >> from;
        if rest == 0 {
            return None;
        }
        Some(from + rest.trailing_zeros() as u8)
    }

    /// The word that has a bit for each group: bit k is set where group k is in.
    pub fn word(&self) -> u64
        ensures value { result ≡ word_of 64 self.now }
        ensures few { (k : ℕ) → set.contains self.now k ≡ true → k < 64 }
    {
        self.bits
    }

    /// The set of the groups whose bits are set in a word.
    pub fn of_word(word: u64) -> Sharers
        ensures { result ≡ groups_of_word 64 word }
    {
        Sharers { bits: word }
    }
}
