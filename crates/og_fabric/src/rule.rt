//! The rule of the fabric's queue, and what each call makes of it.
//!
//! What a pass knows is a `Sight`: of a seat its one `Side`, of the maker of the seats all actors from
//! a number on, of who gathers the sides of all. `specs/Sides.antt` says what the rule is. Each kind of
//! call on the queue is a type here, which says what the call makes of the pass's sight and what it
//! learns of the queue.

use crate::Scheme;
use crossbeam_queue::protocol::{Join, Lesson, Outcome, Protocol, Split};
use og_runs::Msg;
use std::collections::LinkedList;
use std::marker::PhantomData;

/// What one actor sent, carries and took. No value of it is made.
pub struct Side<K> {
    pub actor: u8,
    pub sent: LinkedList<Msg<K>>,
    pub hand: LinkedList<Msg<K>>,
    pub taken: LinkedList<Msg<K>>,
}

/// What a pass knows: the sides that are its own, and all actors from `rest` on, which have no seat
/// yet. No value of it is made.
pub struct Sight<K> {
    pub rest: Option<u64>,
    pub sides: LinkedList<Side<K>>,
}

/// The rule of the queue of a scheme.
pub struct Law<A, K, N, S> {
    of: PhantomData<(A, K, N, S)>,
}

impl<A, K, N, S: Scheme<A, K, N>> Protocol<Msg<K>, Sight<K>> for Law<A, K, N, S> {
    ghost use Rattle.og_fabric.specs.Sides.{Holds, maker};

    ghost holds = { Holds S.rules S.start S.actors S.most };

    ghost first = { maker 0 };
}

/// A seat is made.
pub struct Seating;

impl<K> Split<Sight<K>> for Seating {
    ghost use Rattle.og_fabric.specs.Shown.{after_making, new_sight};

    ghost left = { λ v. after_making v.rest };

    ghost right = { λ v. new_sight v.rest };
}

/// A message is named and sent. The queue wasn't full.
pub struct Sends<A, K, N, S> {
    of: PhantomData<(A, K, N, S)>,
}

impl<A, K, N, S: Scheme<A, K, N>> Outcome<Msg<K>, Sight<K>> for Sends<A, K, N, S> {
    ghost use Rattle.std.specs.Prelude.{◌≡◌};
    ghost use Rattle.og_fabric.specs.Sides.{on_sides, sent_more};

    ghost then = { λ v x w. w ≡ on_sides (λ h. sent_more h x) v };
}

impl<A, K, N, S: Scheme<A, K, N>> Lesson<Msg<K>, Sight<K>> for Sends<A, K, N, S> {
    ghost use Rattle.std.specs.Prelude.{◌<◌, length};

    ghost fact = { λ v items. length items < S.room };
}

/// A message that was carried is put back. The queue wasn't full.
pub struct PutsBack<A, K, N, S> {
    of: PhantomData<(A, K, N, S)>,
}

impl<A, K, N, S: Scheme<A, K, N>> Outcome<Msg<K>, Sight<K>> for PutsBack<A, K, N, S> {
    ghost use Rattle.std.specs.Prelude.{◌≡◌, []};
    ghost use Rattle.og_fabric.specs.Sides.{on_sides, with_hand};

    ghost then = { λ v x w. w ≡ on_sides (λ h. with_hand h []) v };
}

impl<A, K, N, S: Scheme<A, K, N>> Lesson<Msg<K>, Sight<K>> for PutsBack<A, K, N, S> {
    ghost use Rattle.std.specs.Prelude.{◌<◌, length};

    ghost fact = { λ v items. length items < S.room };
}

/// The oldest message is taken, if it is the actor's own, or carried; or the queue is empty.
pub struct Pops<A, K, N, S> {
    of: PhantomData<(A, K, N, S)>,
}

impl<A, K, N, S: Scheme<A, K, N>> Outcome<Msg<K>, Sight<K>> for Pops<A, K, N, S> {
    ghost use Rattle.std.specs.Prelude.{◌≡◌};
    ghost use Rattle.og_fabric.specs.Sides.{Each, on_sides, popped, PopTells};

    ghost then = { λ v x w. (w ≡ on_sides (λ h. popped h x) v) × Each (λ h. PopTells S.rules S.start S.actors S.most h x) v.sides };
}

impl<A, K, N, S: Scheme<A, K, N>> Lesson<Msg<K>, Sight<K>> for Pops<A, K, N, S> {
    ghost use Rattle.og_fabric.specs.Gathered.{AreKept};

    ghost fact = { λ v items. AreKept S.rules S.start S.actors S.most v.sides items };
}

/// What one pass knows goes to another.
pub struct Joins;

impl<K> Join<Sight<K>> for Joins {
    ghost use Rattle.og_fabric.specs.Gathered.{both, spent};

    ghost both = { λ v w. both v w };

    ghost spent = { spent };
}

/// Who gathers carries the oldest message; or the queue is empty.
pub struct Drains<A, K, N, S> {
    of: PhantomData<(A, K, N, S)>,
}

impl<A, K, N, S: Scheme<A, K, N>> Outcome<Msg<K>, Sight<K>> for Drains<A, K, N, S> {
    ghost use Rattle.std.specs.Prelude.{◌≡◌};
    ghost use Rattle.og_fabric.specs.Gathered.{first_carries};

    ghost then = { λ v x w. w ≡ record { rest = v.rest; sides = first_carries x v.sides } };
}

impl<A, K, N, S: Scheme<A, K, N>> Lesson<Msg<K>, Sight<K>> for Drains<A, K, N, S> {
    ghost use Rattle.og_fabric.specs.Gathered.{AreKept};

    ghost fact = { λ v items. AreKept S.rules S.start S.actors S.most v.sides items };
}
