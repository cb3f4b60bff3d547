//! An instruction word that was decoded, kept with its instruction.
//!
//! A hart keeps one, of the instruction that it began last, so that one that waits for memory is not decoded again where it is executed.
//! What is kept is a fact on words alone, and not on a program, so no contract sees it.

ghost use Rattle.std.specs.Prelude.{◌≡◌, IfSome};
ghost use Rattle.std.proofs.Props.{props};
ghost use Rattle.rv_decode.specs.Rows.{decode_of, HasRegisters};

use rv_decode::{Instr, decode};

/// A word and what it decodes to.
#[derive(Drop)]
pub(crate) struct Decoded {
    word: u32,
    instr: Option<Instr>,
    ghost value: { decode_of word ≡ instr },
    ghost registers: { IfSome instr HasRegisters } by { Prim.hlevel props },
}

impl Decoded {
    /// Decodes a word.
    pub(crate) fn of(word: u32) -> Decoded
        ensures { result.word ≡ word }
    {
        Decoded {
            word,
            instr: decode(word),
        }
    }

    /// The instruction of any word: the one that is kept, where it is of this word.
    pub(crate) fn instruction(&self, word: u32) -> Option<Instr>
        ensures value { result ≡ decode_of word }
        ensures registers { IfSome result HasRegisters }
    {
        if word == self.word {
            return self.instr;
        }
        decode(word)
    }

    /// Keeps this word from now on, and gives its instruction.
    pub(crate) fn keep(&mut self, word: u32) -> Option<Instr>
        ensures value { result ≡ decode_of word }
        ensures registers { IfSome result HasRegisters }
    {
        if word != self.word {
            *self = Decoded::of(word);
        }
        self.instr
    }
}
