//! A set of nodes.

ghost use Rattle.std.specs.Prelude.{◌≡◌, ℕ, ◌<◌, ◌≤◌, IfSome, IfNone, false, true};
ghost use Rattle.std.specs.FinSet as set;

use og_base::NodeId;
use std::marker::Model;

/// A set of nodes below 128.
#[derive(Clone, Copy)]
pub struct Nodes {
    bits: u128,
}

impl Model for Nodes {
    ghost use Rattle.std.specs.Prelude.{◌<◌, ◌^◌};
    ghost use Rattle.std.specs.Ordering.{nat_cmp};
    ghost use Rattle.std.specs.FinSet as set;
    ghost use Rattle.std.specs.Coded.{coded_ℕ};
    ghost use Rattle.og_sharers.specs.Sets.{members_of, word_of};
    ghost use Rattle.og_sharers.specs.SetLaws.{word_of-members_of};
    ghost use Rattle.std.proofs.Common.{ap};

    ghost Value = { set.FinSet nat_cmp };

    ghost coded = { set.code coded_ℕ };

    ghost view = { λ n. members_of 128 n.bits };

    ghost invariant = { λ n. n.bits < 2 ^ 128 };

    ghost inverse = { λ s. record { bits = word_of 128 s } };

    ghost inverse_ok = { λ n low. ap (λ b. record { bits = b }) (word_of-members_of 128 n.bits low) };
}

impl Nodes {
    /// The empty set.
    pub fn none() -> Nodes
        ensures { result ≡ set.empty }
    {
        Nodes { bits: 0 }
    }

    /// Puts a node in.
    pub fn add(&mut self, node: NodeId)
        requires { node < 128 }
        ensures { self.new ≡ set.insert self.old node }
    {
        self.bits |= 1 << node;
    }

    /// Takes a node out.
    pub fn remove(&mut self, node: NodeId)
        requires { node < 128 }
        ensures { self.new ≡ set.remove self.old node }
    {
        self.bits &= !(1 << node);
    }

    /// Whether a node is in.
    pub fn has(&self, node: NodeId) -> bool
        ensures { result ≡ set.contains self.now node }
    {
        node < 128 && self.bits >> node & 1 == 1
    }

    /// How many nodes there are.
    pub fn count(&self) -> u8
        ensures { result ≡ set.len self.now }
    {
        self.bits.count_ones() as u8
    }

    /// The least node from `from` on, if there is one.
    pub fn least(&self, from: NodeId) -> Option<NodeId>
        ensures member { IfSome result (λ node. set.contains self.now node ≡ true) }
        ensures from { IfSome result (λ node. from ≤ node) }
        ensures first { IfSome result (λ node. (k : ℕ) → from ≤ k → k < node → set.contains self.now k ≡ false) }
        ensures none { IfNone result ((k : ℕ) → from ≤ k → set.contains self.now k ≡ false) }
    {
        let bits = self.bits;
        if from >= 128 {
            return None;
        }
        let rest = bits >> from;
        if rest == 0 {
            return None;
        }
        Some(from + rest.trailing_zeros() as u8)
    }
}
