//! Two seats of a fabric without actors: each answer of a take comes once.

ghost use Rattle.std.specs.Prelude.{◌≡◌};
ghost use Rattle.og_fabric.specs.Sides.{blank};

use crate::Purse;
use og_fabric::{Fabric, Scheme, Seat, Taken};
use og_runs::Letter;
use std::alloc::{AllocError, Global};
use std::sync::Wait;

/// Two actors, of which each can pay for one letter.
pub struct Two;

impl Scheme<Purse, u64, u64> for Two {
    ghost use Rattle.og_purses.specs.declared.Purse.{Purse as Known};
    ghost use Rattle.og_purses.specs.Purses.{purse, rules, is_done};

    ghost State = { Known };

    ghost state = { λ x. x };

    ghost rules = { rules 2 };

    ghost start = { λ a. purse 1 };

    ghost stopped = { λ x. is_done x };

    ghost actors = { 2 };

    ghost most = { 2 };

    ghost room = { 2 };
}

type Pair = Fabric<Purse, u64, u64, Two>;

/// Actor 0 finds nothing, sends a letter, finds it in the queue, puts it back, and actor 1 takes it.
/// Whether it went so, and the letter has the number 0.
fn exchange<R: Wait>(rt: &R, fabric: &Pair, zero: &mut Seat<u64>, one: &mut Seat<u64>) -> bool
    requires zero { zero.old ≡ record { table = fabric.now; side = blank 0 } }
    requires one { one.old ≡ record { table = fabric.now; side = blank 1 } }
{
    let Taken::Nothing = fabric.take(rt, zero) else {
        return false;
    };
    let id = fabric.send(rt, zero, Letter { to: 1, kind: 1 }, 1);
    let Taken::Other = fabric.take(rt, zero) else {
        return false;
    };
    fabric.put_back(rt, zero);
    let Taken::Mine(message) = fabric.take(rt, one) else {
        return false;
    };
    message.id == id && id.sender == 0 && id.seq == 0
}

/// The same with a new fabric.
pub fn exchange_anew<R: Wait>(rt: &R, alloc: Global) -> Result<bool, AllocError> {
    let (fabric, mut seats) = Pair::make(alloc, 2, 2)?;
    let Some(mut one) = seats.pop() else {
        return Ok(false);
    };
    let Some(mut zero) = seats.pop() else {
        return Ok(false);
    };
    Ok(exchange(rt, &fabric, &mut zero, &mut one))
}
