//! A page is asked for, and a page is noticed: whether it begins to move, and what is done where it doesn't.

ghost use Rattle.std.specs.Prelude.{◌≡◌, IsTrue, IsSome, Some, None, []};
ghost use Rattle.og_pager.specs.PageTable.{IsNode, IsFrame, frame_of, page_of, oldest, move_of};
ghost use Rattle.og_mover.specs.Table.{is_known, walk_row, begin_row, refuse_row, after_refusal, decided, hot_row, reclaim_begun};
ghost use Rattle.og_mover.specs.Sound.{MayMove};

use crate::{Clearing, Job, Mover, Phase, Route, send};
use og_base::{Hot, NodeId, Reason, VPage};
use og_msg::{Kind, Note, Outbox};
use og_policy::decide;

impl Mover {
    /// A node asks for a page.
    pub(crate) fn walk(&mut self, sender: NodeId, page: VPage, out: &mut Outbox)
        requires placed { IsSome (frame_of self.old.pages page) }
        requires node { IsNode self.old.pages sender }
        requires empty { out.old ≡ [] }
        ensures mover { self.new ≡ (walk_row self.old sender page).mover }
        ensures letters { out.new ≡ (walk_row self.old sender page).letters }
        ensures note { (walk_row self.old sender page).note ≡ None }
    {
        match self.pager.walk(page, sender) {
            Some(frame) => send(out, sender, Kind::Walked { page, frame }),
            None => send(out, sender, Kind::WalkRetry { page }),
        }
    }

    /// A home has noticed that a node uses a frame much more than the home does.
    pub(crate) fn judge(&mut self, hot: Hot, out: &mut Outbox) -> Option<Note>
        requires known { IsTrue (is_known self.old.pages hot) }
        requires empty { out.old ≡ [] }
        ensures mover { self.new ≡ (hot_row self.old hot).mover }
        ensures letters { out.new ≡ (hot_row self.old hot).letters }
        ensures note { result ≡ (hot_row self.old hot).note }
    {
        let page = self.pager.page_of(hot.frame)?;
        match self.decided(hot, page) {
            None => Some(self.begin(hot, page)),
            Some(reason) => Some(self.refuse(hot, reason, out)),
        }
    }

    /// Why the page of a notice isn't moved; None where it is.
    fn decided(&self, hot: Hot, page: VPage) -> Option<Reason>
        requires node { IsNode self.now.pages hot.node }
        ensures reason { result ≡ decided self.now hot page }
        ensures moves { result ≡ None → MayMove self.now hot page }
        ensures full { result ≡ Some Reason.Full → move_of self.now.pages ≡ None }
    {
        let moves = self.pager.moves(page);
        let free = self.pager.has_free(hot.node);
        decide(&hot, moves, self.idle(), free, &self.settings)
    }

    /// The page of a notice begins to move.
    fn begin(&mut self, hot: Hot, page: VPage) -> Note
        requires frame { page_of self.old.pages hot.frame ≡ Some page }
        requires inside { IsFrame self.old.pages hot.frame }
        requires node { IsNode self.old.pages hot.node }
        requires moves { MayMove self.old hot page }
        ensures mover { self.new ≡ (begin_row self.old hot page).mover }
        ensures letters { (begin_row self.old hot page).letters ≡ [] }
        ensures note { Some result ≡ (begin_row self.old hot page).note }
    {
        let new = self.pager.begin(page, hot.node);
        let old = hot.frame;
        self.job = Job::Move(Route { page, old, new }, Phase::Ask(0));
        Note::Begin { page, old, new }
    }

    /// The page of a notice isn't moved.
    fn refuse(&mut self, hot: Hot, reason: Reason, out: &mut Outbox) -> Note
        requires node { IsNode self.old.pages hot.node }
        requires full { reason ≡ Reason.Full → move_of self.old.pages ≡ None }
        requires empty { out.old ≡ [] }
        ensures mover { self.new ≡ after_refusal hot reason self.old }
        ensures letters { out.new ≡ (refuse_row self.old hot reason).letters }
        ensures note { Some result ≡ (refuse_row self.old hot reason).note }
    {
        send(out, hot.frame.home, Kind::Rearm { frame: hot.frame });
        match reason {
            Reason::Full => self.begin_reclaim(hot.node),
            _ => {}
        }
        Note::No {
            reason,
            frame: hot.frame,
            node: hot.node,
        }
    }

    /// The reclaim of a node's oldest frame in quarantine begins, if it has one.
    fn begin_reclaim(&mut self, node: NodeId)
        requires node { IsNode self.old.pages node }
        requires idle { move_of self.old.pages ≡ None }
        ensures { self.new ≡ reclaim_begun self.old (oldest self.old.pages node) }
    {
        match self.pager.oldest(node) {
            Some(frame) => self.clear_on(frame, Clearing::Tell),
            None => {}
        }
    }
}
