//! What runs an actor of the machine at its seat, and what makes all of them.

ghost use Rattle.std.specs.Prelude.{◌≡◌, ◌<◌, ◌≤◌, length, true, Some, IfOk};
ghost use Rattle.og_machine.specs.Machine.{rules, act_of, take_of};
ghost use Rattle.og_fabric.specs.Scheme.{IsMet};
ghost use Rattle.og_actors.specs.Actors.{is_there, moved};
ghost use Rattle.og_refine.specs.Machines.{IsRunnable};
ghost use Rattle.og_threads.specs.Threads.{actor_of, first_actor, actors_of};

use crate::player::Player;
use crate::scheme::{Machines, OfMachine};
use og_actors::{Cast, Part};
use og_base::{NoMemory, Settings};
use og_image::{Image, Layout};
use og_mover::Mover;
use og_msg::{Kind, Letter, Msg, Note, Outbox};
use og_node::Node;
use std::alloc::Global;
use std::marker::{Model, PhantomData};

/// What runs an actor: the program, which all share, the actor, and the letters of its last move.
#[derive(Drop)]
pub struct MachinePart<'a, M: Machines> {
    image: &'a Image,
    player: Player,
    out: Outbox,
    of: PhantomData<M>,
}

impl<'a, M: Machines> Model for MachinePart<'a, M> {
    ghost use Rattle.std.specs.Coded.{codes};
    ghost use Rattle.og_threads.specs.contracts.player.Player as player_code;
    ghost use Rattle.og_msg.specs.contracts.Kind as kind_code;
    ghost use Rattle.og_threads.specs.Threads.{Playing, Plays};

    ghost Value = { Playing };

    ghost coded = { Prim.hlevel (codes, player_code.the_row.coded, kind_code.the_row.coded) };

    ghost view = { λ s. record { player = s.player; letters = s.out } };

    ghost invariant = { λ s. Plays M.setup M.most s.image.now };
}

impl<'a, M: Machines> Part<Player, Kind, Note, OfMachine<M>> for MachinePart<'a, M> {
    ghost kept = { λ s. s.player };

    ghost outbox = { λ s. s.letters };

    fn can_act(&self, _number: u8) -> bool {
        self.player.can_act(self.image)
    }

    fn act(&mut self, _number: u8) -> Option<Note> {
        self.out.clear();
        let note = self.player.act(self.image, &mut self.out);
        // There are few letters.
        let _letters = self.out.letters();
        note
    }

    fn take(&mut self, number: u8, message: Msg) -> Option<Note>
        requires possible { is_there (take_of M.setup (actor_of self.old.player) message) ≡ true }
        requires met { IsMet (rules M.setup) (λ a. first_actor M.setup a) (actors_of M.setup) M.most number (actor_of self.old.player) (Some message) }
        ensures outcome { take_of M.setup (actor_of self.old.player) message ≡ moved (actor_of self.new.player) self.new.letters result }
        ensures few { length self.new.letters ≤ 65536 }
    {
        self.out.clear();
        let note = self.player.take(self.image, &message, &mut self.out);
        // There are few letters.
        let _letters = self.out.letters();
        note
    }

    fn letters(&self) -> &[Letter] {
        self.out.letters()
    }

    fn is_stopped(&self) -> bool {
        self.player.has_stopped(self.image)
    }
}

/// What makes the actors of a program's machine: the nodes, and behind them the mover.
#[derive(Drop)]
pub struct Players<'a, M: Machines> {
    pub(crate) image: &'a Image,
    pub(crate) layout: &'a Layout,
    pub(crate) settings: &'a Settings,
    pub(crate) of: PhantomData<M>,
}

impl<'a, M: Machines> Model for Players<'a, M> {
    ghost use Rattle.std.specs.Prelude.{◌≡◌, ℕ};
    ghost use Rattle.og_threads.specs.Threads.{Plays};

    ghost Value = { ℕ };

    ghost view = { λ s. 0 };

    ghost invariant = { λ s. Plays M.setup M.most s.image.now × (M.setup ≡ record { image = s.image.now; layout = s.layout.now; settings = s.settings.now }) };
}

impl<'a, M: Machines> Cast<Player, Kind, Note, OfMachine<M>, MachinePart<'a, M>>
    for Players<'a, M> {
    fn part(&self, alloc: Global, number: u8) -> Result<MachinePart<'a, M>, NoMemory> {
        let player = make_player(alloc, number, self.image, self.layout, self.settings)?;
        Ok(MachinePart {
            image: self.image,
            player,
            out: Outbox::empty(),
            of: PhantomData,
        })
    }
}

/// One actor at the start.
fn make_player(
    alloc: Global,
    number: u8,
    image: &Image,
    layout: &Layout,
    settings: &Settings,
) -> Result<Player, NoMemory>
    requires { IsRunnable (record { image = image.now; layout = layout.now; settings = settings.now }) }
    ensures { IfOk result (λ player. actor_of player ≡ first_actor (record { image = image.now; layout = layout.now; settings = settings.now }) number) }
{
    if number < settings.nodes {
        return Ok(Player::Node(Node::make(alloc, number, image, layout, settings)?));
    }
    og_pager::laws::layout_suits();
    Ok(Player::Mover(Mover::make(alloc, layout, settings)?))
}
