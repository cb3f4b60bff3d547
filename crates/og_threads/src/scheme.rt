//! The machine as a scheme of a fabric.

use crate::player::Player;
use og_fabric::Scheme;
use og_msg::{Kind, Note};
use std::marker::{Brand, PhantomData};

/// Which machine is run, and how many events each of its actors makes at most. A call picks them.
pub trait Machines {
    ghost use Rattle.std.specs.Prelude.{ℕ};
    ghost use Rattle.og_machine.specs.Machine.{Setup};

    ghost setup: { Setup };

    ghost most: { ℕ };
}

// Who runs a machine picks others; these stand for the type alone.
impl Machines for Brand {
    ghost use Rattle.og_machine.specs.Runs.{call};

    ghost setup = { call };

    ghost most = { 0 };
}

/// The scheme of a machine: an actor's state is that of a node or of the mover.
pub struct OfMachine<M> {
    of: PhantomData<M>,
}

impl<M: Machines> Scheme<Player, Kind, Note> for OfMachine<M> {
    ghost use Rattle.og_machine.specs.Machine.{ActorState, rules, has_stopped};
    ghost use Rattle.og_threads.specs.Threads.{actor_of, first_actor, actors_of, room_of};

    ghost State = { ActorState };

    ghost state = { λ x. actor_of x };

    ghost rules = { rules M.setup };

    ghost start = { λ a. first_actor M.setup a };

    ghost stopped = { λ x. has_stopped x };

    ghost actors = { actors_of M.setup };

    ghost most = { M.most };

    ghost room = { room_of M.setup };
}
