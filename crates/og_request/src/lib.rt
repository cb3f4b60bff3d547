//! A node's outstanding request: the parts that it has received, and what they make of it.
//!
//! A request goes to the block's home. The answer may come in parts, from the home, from the block's
//! owner and from the sharers that were invalidated, and in any order, since the network keeps none
//! (J. Laudon and D. Lenoski, "The SGI Origin", ISCA 1997, section 3.1). `specs/Request` has the
//! requester's table: the outcome is a function of what is wanted, of the parts and of the mark that
//! an invalidation leaves on a read which it overtakes.
//!
//! Below stand messages and lines; above it the node, and what a node answers as an owner. Nothing
//! here takes memory, and a request is changed where it lies.
#![tactic(auto)]

ghost use Rattle.std.specs.Prelude.{◌≡◌, true, IsTrue, None, Some};
ghost use Rattle.og_msg.specs.Kinds.{block_of};

#[cfg(test)]
mod tests;

use og_base::{ActorId, Block};
use og_line::{Line, Mode};
use og_msg::Kind;
use std::marker::Model;

/// What a request asks for.
#[derive(Clone, Copy, PartialEq, Eq, Debug)]
pub enum Want {
    /// A copy to read.
    Read,
    /// The only copy.
    ReadEx,
    /// To make a shared copy the only one.
    Upgrade,
}

/// An intervention that waits until the request is over.
#[derive(Clone, Copy, PartialEq, Eq, Debug)]
pub enum Held {
    /// Share the block with this requester.
    Shared(ActorId),
    /// Give the block to this requester.
    Exclusive(ActorId),
    /// Give the block back to its home for the mover.
    Poison,
}

/// What became of a request.
#[derive(Clone, Copy, PartialEq)]
pub enum Outcome {
    /// A part is missing.
    Waiting,
    /// The block may be filled, in this mode and with this line. There is no line exactly where the
    /// copy that is there is kept.
    Filled { mode: Mode, line: Option<Line> },
    /// The request was refused, or its data may be old: it is to be made again.
    Again,
    /// The block's page has moved away.
    Poisoned,
}

/// The home's answer to a request.
#[derive(Clone, Copy, PartialEq)]
pub enum Reply {
    /// A shared copy.
    Shared(Line),
    /// The only copy, after so many acknowledgements.
    Exclusive { line: Line, acks: u8 },
    /// The home's line, while the owner is asked.
    Speculative(Line),
    /// The shared copy becomes the only one, after so many acknowledgements.
    Upgrade { acks: u8 },
    /// The request is refused for now.
    Nak,
    /// The block's page has moved away.
    PoisonError,
}

/// The owner's answer to a request.
#[derive(Clone, Copy, PartialEq)]
pub enum Response {
    /// A line to share, newer than the home's.
    Shared(Line),
    /// The only copy, newer than the home's.
    Exclusive(Line),
    /// The home's line is good.
    OwnerAck,
}

/// An outstanding request.
#[derive(Drop)]
pub struct Request {
    block: Block,
    want: Want,
    marked: bool,
    held: Option<Held>,
    reply: Option<Reply>,
    response: Option<Response>,
    acks: u8,
}

impl Model for Request {
    ghost use Rattle.og_request.specs.Request.{Requested};

    ghost Value = { Requested };

    ghost view = { λ r. record { block = r.block; want = r.want; marked = r.marked; held = r.held; reply = r.reply; response = r.response; acks = r.acks } };
}

impl Request {
    ghost use Rattle.std.specs.Option.{option_copied};
    ghost use Rattle.og_request.specs.Request.{new_request, received, outcome_of, has_row, has_part, is_new, counts_acks, speculates, responds, acknowledges, most_acks, response_line, shared_fill, fill_after};

    /// A request that was just sent.
    #[tactic(auto, unfolding(crate::specs::Request::new_request))]
    pub fn issue(want: Want, block: Block) -> Request
        ensures { result ≡ new_request want block }
    {
        Request {
            block,
            want,
            marked: false,
            held: None,
            reply: None,
            response: None,
            acks: 0,
        }
    }

    /// Receives a part of the answer, and gives what became of the request.
    pub fn reply(&mut self, kind: &Kind) -> Outcome
        requires { IsTrue (has_row self.old kind.now) }
        ensures outcome { result ≡ outcome_of self.new }
        ensures received { self.new ≡ received self.old kind.now }
    {
        self.receive(kind);
        self.outcome()
    }

    /// Whether the requester's table has a row for this message, with the parts that were received.
    #[tactic(auto, unfolding(crate::specs::Request::has_row))]
    pub fn has_row(&self, kind: &Kind) -> bool
        ensures { result ≡ has_row self.now kind.now }
    {
        match kind.block() {
            Some(block) if block == self.block => self.has_part(kind),
            _ => false,
        }
    }

    /// What would become of the request with this part. The request stays as it is.
    pub fn outcome_with(&self, kind: &Kind) -> Outcome
        requires { IsTrue (has_row self.now kind.now) }
        ensures { result ≡ outcome_of (received self.now kind.now) }
    {
        self.twin().reply(kind)
    }

    /// Marks a read whose block was invalidated while it was on its way.
    pub fn mark(&mut self)
        requires { self.old.want ≡ Want.Read }
        ensures { self.new ≡ record self.old { marked = true } }
    {
        self.marked = true;
    }

    /// Keeps an intervention until the request is over.
    pub fn hold(&mut self, held: Held)
        requires { self.old.held ≡ None }
        ensures { self.new ≡ record self.old { held = Some held } }
    {
        self.held = Some(held);
    }

    /// The intervention that is held.
    pub fn held(&self) -> Option<Held>
        ensures { result ≡ self.now.held }
    {
        self.held
    }

    /// What the request asks for.
    pub fn want(&self) -> Want
        ensures { result ≡ self.now.want }
    {
        self.want
    }

    /// The block that it asks for.
    pub fn block(&self) -> Block
        ensures { result ≡ self.now.block }
    {
        self.block
    }

    /// The line of the exclusive response that was received, None exactly where none was.
    pub fn response(&self) -> Option<&Line>
        ensures { option_copied result ≡ response_line self.now.response }
    {
        match &self.response {
            Some(Response::Exclusive(line)) => Some(line),
            _ => None,
        }
    }

    /// A second request with the same parts.
    fn twin(&self) -> Request
        ensures { result ≡ self.now }
    {
        Request {
            block: self.block,
            want: self.want,
            marked: self.marked,
            held: self.held,
            reply: self.reply,
            response: self.response,
            acks: self.acks,
        }
    }

    // Takes in a part.
    #[tactic(auto, unfolding(crate::specs::Request::received, crate::specs::Request::has_row))]
    fn receive(&mut self, kind: &Kind)
        requires { IsTrue (has_row self.old kind.now) }
        ensures { self.new ≡ received self.old kind.now }
    {
        match *kind {
            Kind::SharedReply { line, .. } => self.reply = Some(Reply::Shared(line)),
            Kind::ExclusiveReply { line, acks, .. } => self.reply = Some(Reply::Exclusive {
                line,
                acks,
            }),
            Kind::SpecReply { line, .. } => self.reply = Some(Reply::Speculative(line)),
            Kind::UpgradeReply { acks, .. } => self.reply = Some(Reply::Upgrade { acks }),
            Kind::Nak { .. } => self.reply = Some(Reply::Nak),
            Kind::PoisonError { .. } => self.reply = Some(Reply::PoisonError),
            Kind::SharedResponse { line, .. } => self.response = Some(Response::Shared(line)),
            Kind::ExclusiveResponse { line, .. } => self.response = Some(Response::Exclusive(line)),
            Kind::OwnerAck { .. } => self.response = Some(Response::OwnerAck),
            Kind::InvalAck { .. } => {
                let room = self.acks < self.most_acks();
                prove!(room);
                self.acks += 1;
            }
            _ => {}
        }
    }

    // What became of the request, by its parts: an arm for each row of the table.
    #[tactic(auto, unfolding(crate::specs::Request::outcome_of))]
    fn outcome(&self) -> Outcome
        ensures { result ≡ outcome_of self.now }
    {
        match (self.want, self.reply, self.response) {
            (Want::Read, Some(Reply::Shared(line)), _) => self.shared_fill(line),
            (Want::Read, Some(Reply::Exclusive { line, .. }), _) => Outcome::Filled {
                mode: Mode::Clean,
                line: Some(line),
            },
            (Want::Read, Some(Reply::Speculative(_)), Some(Response::Shared(line))) =>
                self.shared_fill(line),
            (Want::Read, Some(Reply::Speculative(line)), Some(Response::OwnerAck)) =>
                self.shared_fill(line),
            (Want::ReadEx, Some(Reply::Exclusive { line, acks }), _) => self.fill_after(
                acks,
                Some(line),
            ),
            (Want::ReadEx, Some(Reply::Speculative(_)), Some(Response::Exclusive(line))) =>
                dirty_fill(line),
            (Want::ReadEx, Some(Reply::Speculative(line)), Some(Response::OwnerAck)) => dirty_fill(
                line,
            ),
            (Want::Upgrade, Some(Reply::Upgrade { acks }), _) => self.fill_after(acks, None),
            (Want::Upgrade, Some(Reply::Exclusive { line, acks }), _) => self.fill_after(
                acks,
                Some(line),
            ),
            (_, Some(Reply::Nak), _) => Outcome::Again,
            (_, Some(Reply::PoisonError), _) => Outcome::Poisoned,
            _ => Outcome::Waiting,
        }
    }

    /// A shared fill, which a marked read may not make: its line may be older than the invalidation.
    fn shared_fill(&self, line: Line) -> Outcome
        ensures { result ≡ shared_fill self.now.marked line }
    {
        if self.marked {
            Outcome::Again
        } else {
            Outcome::Filled {
                mode: Mode::Shared,
                line: Some(line),
            }
        }
    }

    /// A fill of the only copy, once all acknowledgements are there.
    fn fill_after(&self, named: u8, line: Option<Line>) -> Outcome
        ensures { result ≡ fill_after self.now.acks named line }
    {
        if self.acks == named {
            Outcome::Filled {
                mode: Mode::Dirty,
                line,
            }
        } else {
            Outcome::Waiting
        }
    }

    /// Whether the table has this kind of part for what is wanted, with the parts that were received.
    fn has_part(&self, kind: &Kind) -> bool
        ensures { result ≡ has_part self.now.want self.now kind.now }
    {
        match (self.want, kind) {
            (Want::Read, Kind::SharedReply { .. }) => self.is_new(),
            (Want::Read, Kind::ExclusiveReply { acks, .. }) => self.is_new() && *acks == 0,
            (Want::Read, Kind::SharedResponse { .. } | Kind::OwnerAck { .. }) => self.responds(),
            (Want::ReadEx, Kind::ExclusiveResponse { .. } | Kind::OwnerAck { .. }) =>
                self.responds(),
            (Want::Read | Want::ReadEx, Kind::SpecReply { .. }) => self.speculates(),
            (Want::ReadEx | Want::Upgrade, Kind::ExclusiveReply { acks, .. }) => self.counts_acks(
                *acks,
            ),
            (Want::ReadEx | Want::Upgrade, Kind::InvalAck { .. }) => self.acknowledges(),
            (Want::Upgrade, Kind::UpgradeReply { acks, .. }) => self.counts_acks(*acks),
            (_, Kind::Nak { .. } | Kind::PoisonError { .. }) => self.is_new(),
            _ => false,
        }
    }

    /// Nothing was received.
    fn is_new(&self) -> bool
        ensures { result ≡ is_new self.now }
    {
        self.reply.is_none() && self.response.is_none() && self.acks == 0
    }

    /// A reply that names so many acknowledgements fits.
    fn counts_acks(&self, named: u8) -> bool
        ensures { result ≡ counts_acks self.now named }
    {
        self.reply.is_none() && self.response.is_none() && self.acks <= named
    }

    /// A speculative reply fits.
    fn speculates(&self) -> bool
        ensures { result ≡ speculates self.now }
    {
        let fits = match (self.want, self.response) {
            (_, None) => true,
            (Want::Read, Some(Response::Shared(_) | Response::OwnerAck)) => true,
            (Want::ReadEx, Some(Response::Exclusive(_) | Response::OwnerAck)) => true,
            _ => false,
        };
        self.reply.is_none() && fits && self.acks == 0
    }

    /// A response fits.
    fn responds(&self) -> bool
        ensures { result ≡ responds self.now }
    {
        let awaits = matches!(self.reply, None | Some(Reply::Speculative(_)));
        self.response.is_none() && awaits && self.acks == 0
    }

    /// One more acknowledgement fits.
    fn acknowledges(&self) -> bool
        ensures { result ≡ acknowledges self.now }
    {
        self.response.is_none() && self.acks < self.most_acks()
    }

    /// How many acknowledgements may come: as many as the reply names, and as many as one may name before it is there.
    fn most_acks(&self) -> u8
        ensures { result ≡ most_acks self.now.reply }
    {
        match self.reply {
            None => u8::MAX,
            Some(Reply::Exclusive { acks, .. } | Reply::Upgrade { acks }) => acks,
            Some(_) => 0,
        }
    }
}

/// A fill of the only copy.
fn dirty_fill(line: Line) -> Outcome
    ensures { result ≡ Outcome.Filled Mode.Dirty (Some line) }
{
    Outcome::Filled {
        mode: Mode::Dirty,
        line: Some(line),
    }
}
