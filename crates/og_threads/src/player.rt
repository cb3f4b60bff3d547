//! One actor of the machine in code: a node or the mover.

ghost use Rattle.std.specs.Prelude.{◌≡◌, [], ◌≤◌, length, true, not};
ghost use Rattle.std.specs.Result.{is_ok};
ghost use Rattle.og_machine.specs.Machine.{Setup, acting, taking, can_act, has_stopped};
ghost use Rattle.og_engine.specs.Marks.{is_running_by};
ghost use Rattle.og_threads.specs.Threads.{actor_of, outcome, MayAct, MayTake};

use og_base::NotEnabled;
use og_image::Image;
use og_mover::Mover;
use og_msg::{Msg, Note, Outbox};
use og_node::Node;

/// A node, or the mover.
#[derive(Drop)]
pub enum Player {
    Node(Node),
    Mover(Mover),
}

impl Player {
    /// Whether its own next event is possible.
    pub fn can_act(&self, image: &Image) -> bool
        ensures { (setup : Setup) → setup.image ≡ image.now → result ≡ is_ok (can_act setup (actor_of self.now)) }
    {
        match self {
            Player::Node(node) => node.can_act(image).is_ok(),
            Player::Mover(mover) => mover.can_act(),
        }
    }

    /// Its own next event.
    pub fn act(&mut self, image: &Image, out: &mut Outbox) -> Option<Note>
        requires able { MayAct image.now self.old }
        requires empty { out.old ≡ [] }
        ensures { (setup : Setup) → setup.image ≡ image.now → acting setup (actor_of self.old) ≡ outcome (actor_of self.new) out.new result }
    {
        match self {
            Player::Node(node) => node.act(image, out),
            Player::Mover(mover) => mover.act(out),
        }
    }

    /// The event in which it takes a message.
    pub fn take(&mut self, image: &Image, message: &Msg, out: &mut Outbox) -> Option<Note>
        requires able { MayTake image.now self.old message.now }
        requires empty { out.old ≡ [] }
        ensures { (setup : Setup) → setup.image ≡ image.now → taking setup (actor_of self.old) message.now ≡ outcome (actor_of self.new) out.new result }
    {
        match self {
            Player::Node(node) => node.take(image, message, out),
            Player::Mover(mover) => mover.take(message, out),
        }
    }

    /// Whether its hart has stopped: the mover has none.
    pub fn has_stopped(&self, image: &Image) -> bool
        ensures { result ≡ has_stopped (actor_of self.now) }
    {
        match self {
            Player::Node(node) => is_done(node.can_act(image)),
            Player::Mover(_) => true,
        }
    }
}

/// Whether a node's hart has stopped, by whether the node may act.
fn is_done(may: Result<(), NotEnabled>) -> bool
    ensures { result ≡ not (is_running_by may) }
{
    match may {
        Err(NotEnabled::Stopped) => true,
        _ => false,
    }
}
