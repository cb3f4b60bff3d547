//! What a node answers to interventions and invalidations, by its copy of the block.
//!
//! An owner that the home asks for a block answers the requester with its line where that is newer
//! than the home's, and tells the home so that it may settle the entry (J. Laudon and D. Lenoski, "The
//! SGI Origin", ISCA 1997, section 3.1). A sharer that is invalidated drops its copy, marks a read of
//! the block that is on its way, and tells the requester. `specs/Owner` has the table. Which
//! interventions wait for a request, and which find the victim slot, is the node's to say.
//!
//! Below stand the cache, the request and the messages; above it the node. Nothing here takes memory:
//! a call looks into one set of the cache and adds at most two letters.
#![tactic(auto)]

ghost use Rattle.std.specs.Prelude.{◌≡◌, ◌≢◌, ◌+◌, ◌≤◌, ◌<◌, [], ◌∷◌, ◌++◌, length, Some};
ghost use Rattle.og_cache.specs.Cache.{look_of, mode_of, with_mode, without};
ghost use Rattle.og_owner.specs.Owner.{letter as letter_to, dirty_line_of, answers, dirty_answers, clean_answers, after_intervention, after_invalidation, invalidated};
ghost use Rattle.og_owner.specs.Laws.{InterventionIsSeen};

#[cfg(test)]
mod tests;

use og_base::{ActorId, Block};
use og_cache::Cache;
use og_line::{Line, Mode};
use og_msg::{Kind, Letter, Outbox};
use og_request::{Held, Request, Want};

/// Answers an intervention for a block by the node's copy, which is clean or dirty or gone.
#[tactic(auto, unfolding(crate::specs::Owner::answers))]
pub fn intervene(cache: &mut Cache, block: Block, held: Held, out: &mut Outbox)
    requires owner { mode_of cache.old block ≢ Some Mode.Shared }
    requires room { length out.old + 2 ≤ 132 }
    ensures cache { cache.new ≡ after_intervention cache.old block held }
    ensures letters { out.new ≡ out.old ++ answers (look_of cache.old block) block held }
{
    match dirty_line(cache, block) {
        Some(line) => answer_dirty(block, &line, held, out),
        None => answer_clean(block, held, out),
    }
    yield_copy(cache, block, held);
}

/// Drops the node's copy of a block, which is shared or gone, marks its read of the block, and tells
/// the requester.
pub fn invalidate(
    cache: &mut Cache,
    request: &mut Option<Request>,
    block: Block,
    requester: ActorId,
    out: &mut Outbox,
)
    requires not_clean { mode_of cache.old block ≢ Some Mode.Clean }
    requires not_dirty { mode_of cache.old block ≢ Some Mode.Dirty }
    requires room { length out.old < 132 }
    ensures cache { cache.new ≡ without cache.old block }
    ensures request { request.new ≡ invalidated request.old block }
    ensures letter { out.new ≡ out.old ++ letter_to requester (Kind.InvalAck block) ∷ [] }
{
    let _ = cache.take_out(block);
    if let Some(request) = request {
        mark_read(request, block);
    }
    send(out, requester, Kind::InvalAck { block });
}

/// Marks a read of the block.
fn mark_read(request: &mut Request, block: Block)
    ensures { request.new ≡ after_invalidation request.old block }
{
    if request.block() == block && request.want() == Want::Read {
        request.mark();
    }
}

/// The line of a dirty copy.
fn dirty_line(cache: &Cache, block: Block) -> Option<Line>
    ensures { result ≡ dirty_line_of (look_of cache.now block) }
{
    match cache.look(block) {
        Some(Mode::Dirty) => Some(*cache.line(block)),
        _ => None,
    }
}

/// Answers with the line of a dirty copy.
fn answer_dirty(block: Block, line: &Line, held: Held, out: &mut Outbox)
    requires { length out.old + 2 ≤ 132 }
    ensures { out.new ≡ out.old ++ dirty_answers block line.now held }
{
    let line = *line;
    let home = block.frame.home;
    match held {
        Held::Shared(requester) => {
            send(out, requester, Kind::SharedResponse { block, line });
            send(out, home, Kind::SharingWriteBack { block, line });
        }
        Held::Exclusive(requester) => {
            send(out, requester, Kind::ExclusiveResponse { block, line });
            send(out, home, Kind::DirtyTransfer { block });
        }
        Held::Poison => send(out, home, Kind::PoisonBack { block, line }),
    }
}

/// Answers that the home's line is good.
fn answer_clean(block: Block, held: Held, out: &mut Outbox)
    requires { length out.old + 2 ≤ 132 }
    ensures { out.new ≡ out.old ++ clean_answers block held }
{
    let home = block.frame.home;
    match held {
        Held::Shared(requester) => {
            send(out, requester, Kind::OwnerAck { block });
            send(out, home, Kind::SharingTransfer { block });
        }
        Held::Exclusive(requester) => {
            send(out, requester, Kind::OwnerAck { block });
            send(out, home, Kind::DirtyTransfer { block });
        }
        Held::Poison => send(out, home, Kind::PoisonClean { block }),
    }
}

/// Adds a letter.
fn send(out: &mut Outbox, to: ActorId, kind: Kind)
    requires { length out.old < 132 }
    ensures { out.new ≡ out.old ++ letter_to to kind ∷ [] }
{
    out.add(Letter { to, kind });
}

// Shares the copy, or gives it away.
#[tactic(auto, unfolding(crate::specs::Owner::after_intervention))]
fn yield_copy(cache: &mut Cache, block: Block, held: Held)
    ensures { cache.new ≡ after_intervention cache.old block held }
{
    match held {
        Held::Shared(_) => share_copy(cache, block),
        Held::Exclusive(_) | Held::Poison => {
            let _ = cache.take_out(block);
        }
    }
}

/// Shares the copy, if there is one.
fn share_copy(cache: &mut Cache, block: Block)
    ensures { cache.new ≡ with_mode cache.old block Mode.Shared }
{
    match cache.look(block) {
        Some(_) => cache.set_mode(block, Mode::Shared),
        None => {}
    }
}

/// What a look-up answers after an intervention: a copy that is to be shared is, one that is given away is gone, and every
/// other block is as it was.
pub fn intervention_is_seen()
    ensures { InterventionIsSeen }
{}
