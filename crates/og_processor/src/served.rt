//! Which messages a processor can serve: those that have a row.

ghost use Rattle.std.specs.Prelude.{◌≡◌, true};
ghost use Rattle.og_processor.specs.Rows.{has_row_for, has_intervention_row, has_part_row, ends_well, has_its_copy, leaves_shared, is_shared as is_shared_mode, is_exclusive as is_exclusive_mode};

use crate::Processor;
use og_base::Block;
use og_line::Mode;
use og_msg::Kind;
use og_request::{Outcome, Request, Want};

/// Whether a copy in this mode is one of several.
fn is_shared(mode: Option<Mode>) -> bool
    ensures { result ≡ is_shared_mode mode }
{
    matches!(mode, Some(Mode::Shared))
}

/// Whether a copy in this mode is the only one.
fn is_exclusive(mode: Option<Mode>) -> bool
    ensures { result ≡ is_exclusive_mode mode }
{
    matches!(mode, Some(Mode::Clean | Mode::Dirty))
}

impl Processor {
    /// Whether the processor's tables have a row for a message of this kind. That the message names actors, frames and
    /// blocks that there are, and that its sender may send it, is the node's to say.
    #[tactic(auto, unfolding(crate::specs::Rows::has_row_for))]
    pub fn has_row(&self, kind: &Kind) -> bool
        ensures { result ≡ has_row_for self.now kind.now }
    {
        match *kind {
            Kind::Invalidate { block, .. } => !is_exclusive(self.cache.look(block)),
            Kind::InterveneShared { block, .. } => self.has_intervention_row(block),
            Kind::InterveneEx { block, .. } => self.has_intervention_row(block),
            Kind::IntervenePoison { block } => self.has_intervention_row(block),
            Kind::WbAck { block } | Kind::WbBusyAck { block } => self.victim.holds(block),
            Kind::Walked { page, .. } | Kind::WalkRetry { page } => self.walk == Some(page),
            Kind::DropFrame { .. } => self.drop.is_none(),
            _ => self.has_part_row(kind),
        }
    }

    /// Whether an intervention can be held or answered: held where none is, answered by the victim slot, or by a copy
    /// that isn't shared.
    fn has_intervention_row(&self, block: Block) -> bool
        ensures { result ≡ has_intervention_row self.now block }
    {
        match &self.request {
            Some(request) if request.block() == block => request.held().is_none(),
            _ => self.victim.holds(block) || !is_shared(self.cache.look(block)),
        }
    }

    /// Whether a part meets a request that the requester's table has it for, and an end of it that has its rows.
    #[tactic(auto, using(crate::proofs::Parts::same_end))]
    fn has_part_row(&self, kind: &Kind) -> bool
        ensures { result ≡ has_part_row self.now self.now.request kind.now }
    {
        match &self.request {
            None => false,
            Some(request) => request.has_row(kind)
                && self.ends_well(request, request.outcome_with(kind)),
        }
    }

    /// Whether a request that ends so finds what its rows need: the copy that a fill without a line keeps, and no shared
    /// copy for the intervention that was held.
    fn ends_well(&self, request: &Request, outcome: Outcome) -> bool
        ensures { result ≡ ends_well self.now request.now outcome }
    {
        self.has_its_copy(request.block(), &outcome)
            && (request.held().is_none()
                || self.victim.holds(request.block())
                || !self.leaves_shared(request, &outcome))
    }

    /// Whether an upgrade that is filled without a line has its shared copy.
    fn has_its_copy(&self, block: Block, outcome: &Outcome) -> bool
        ensures { result ≡ has_its_copy self.now block outcome.now }
    {
        match outcome {
            Outcome::Filled { line: None, .. } => is_shared(self.cache.look(block)),
            _ => true,
        }
    }

    /// Whether a request that ends so leaves a shared copy.
    fn leaves_shared(&self, request: &Request, outcome: &Outcome) -> bool
        ensures { result ≡ leaves_shared self.now request.now outcome.now }
    {
        match outcome {
            Outcome::Waiting => false,
            Outcome::Filled { mode, .. } => *mode == Mode::Shared,
            Outcome::Again => request.want() != Want::Upgrade
                && is_shared(self.cache.look(request.block())),
            Outcome::Poisoned => is_shared(self.cache.look(request.block())),
        }
    }
}
