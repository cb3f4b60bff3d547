//! The letters of one event.

ghost use Rattle.std.specs.Prelude.{◌≡◌, ◌<◌, ◌≤◌, [], ◌∷◌, ◌++◌, length};

use crate::Letter;
use arrayvec::ArrayVec;
use std::marker::Model;

/// The most letters of one event: an invalidation to each of 127 sharers, a reply and a notice are
/// fewer.
pub const MOST_LETTERS: usize = 132;

/// The letters of one event, in the order in which they are sent: at most 132, which lie in the
/// value itself.
///
/// It has 22 kilobytes, so its owner makes one at the start, lends it to each event and clears it
/// between events. An event then writes only the letters that it sends, and clearing only over
/// those that were sent.
#[derive(Drop)]
pub struct Outbox {
    letters: ArrayVec<Letter, MOST_LETTERS>,
}

impl Model for Outbox {
    ghost use Rattle.std.specs.Prelude.{List, length, ◌≤◌};
    ghost use Rattle.og_runs.specs.declared.Letter.{Letter as Sent};
    ghost use Rattle.og_msg.specs.declared.Kind.{Kind as Said};

    ghost Value = { List (Sent Said) };

    ghost view = { λ o. o.letters.items };

    ghost invariant = { λ o. length o.letters.items ≤ 132 };
}

impl Outbox {
    /// An outbox without letters.
    pub fn empty() -> Outbox
        ensures { result ≡ [] }
    {
        Outbox {
            letters: ArrayVec::new(),
        }
    }

    /// Puts a letter last.
    pub fn add(&mut self, letter: Letter)
        requires { length self.old < 132 }
        ensures { self.new ≡ self.old ++ letter ∷ [] }
    {
        self.letters.push(letter);
    }

    /// The letters, in their order.
    pub fn letters(&self) -> &[Letter]
        ensures letters { result.now ≡ self.now }
        ensures few { length result.now ≤ 132 }
    {
        self.letters.as_slice()
    }

    /// Takes all letters out.
    pub fn clear(&mut self)
        ensures { self.new ≡ [] }
    {
        self.letters.clear();
    }
}
