//! From the file of a source to a raw image on a sink.

ghost use Rattle.std.specs.Prelude.{◌≡◌, ◌≢◌, ◌≤◌, ◌⊎◌, ℕ, length, Ok, Err, IfOk};
ghost use Rattle.rv_asm.specs.declared.source.SourceCause.{SourceCause};
ghost use Rattle.rv_asm.specs.declared.source.SourceFault.TheVariants.{Line as AtLine};
ghost use Rattle.rv_asm.specs.Source.{assembled};
ghost use Rattle.og_io.specs.Outside.{TellsLongFile};
ghost use Rattle.og_tools.specs.Tools.{AssembleEnds, SourceEnds};

use crate::raw::raw_file;
use og_io::{Shelf, ShelfFault, Sink, SinkFault, write_all};
use rv_asm::{SourceCause, SourceFault, Words, assemble};
use std::alloc::Global;

/// The most bytes of a source.
const MOST_SOURCE: u64 = 16_777_216;

/// Why no image of a source is written, or not the whole of it.
#[derive(Clone, Copy, PartialEq, Eq, Debug)]
pub enum AssembleFault {
    /// The file couldn't be read.
    Unread,
    /// The source has more than 16,777,216 bytes.
    TooLong,
    /// The first line that isn't taken, from 1, and why.
    Line { number: u64, cause: SourceCause },
    /// Want of memory.
    Memory,
    /// The sink failed.
    Unwritten,
}

/// The words of a source.
fn words_of_source(alloc: Global, text: &[u8]) -> Result<Words, AssembleFault>
    ensures words { IfOk result (λ words. assembled text.now ≡ Ok words) }
    ensures room { IfOk result (λ words. length words ≤ 245760) }
    ensures line { (number : ℕ) (cause : SourceCause) → result ≡ Err (AssembleFault.Line number cause) → assembled text.now ≡ Err (AtLine number cause) }
    ensures read { result ≢ Err AssembleFault.Unread }
    ensures short { result ≢ Err AssembleFault.TooLong }
    ensures unwritten { result ≢ Err AssembleFault.Unwritten }
{
    match assemble(alloc, text) {
        Ok(words) => Ok(words),
        Err(SourceFault::Line { number, cause }) => Err(AssembleFault::Line { number, cause }),
        Err(SourceFault::TooLong) => Err(AssembleFault::TooLong),
        Err(SourceFault::Memory) => Err(AssembleFault::Memory),
    }
}

/// Writes the image of a source's words.
fn assemble_text<K: Sink>(alloc: Global, text: &[u8], out: &mut K) -> Result<(), AssembleFault>
    ensures { SourceEnds text.now (K.seen out.old) (K.seen out.new) result }
{
    let words = match words_of_source(alloc, text) {
        Ok(words) => words,
        Err(fault) => return Err(fault),
    };
    let image = match raw_file(alloc, words.as_slice()) {
        Ok(image) => image,
        Err(_) => return Err(AssembleFault::Memory),
    };
    match write_all(out, &image) {
        Ok(()) => Ok(()),
        Err(SinkFault::Failed) => Err(AssembleFault::Unwritten),
        Err(SinkFault::Memory) => Err(AssembleFault::Memory),
    }
}

/// Writes the raw image, without data, of the source in the file of this name, of at most 16,777,216 bytes.
pub fn assemble_file<F: Shelf, K: Sink>(
    alloc: Global,
    name: &str,
    shelf: &mut F,
    out: &mut K,
) -> Result<(), AssembleFault>
    ensures ends { AssembleEnds name.now (F.seen shelf.old) (F.seen shelf.new) (K.seen out.old) (K.seen out.new) result }
    ensures long { TellsLongFile (F.seen shelf.old).files name.now 16777216 → (result ≡ Err AssembleFault.Unread) ⊎ (result ≡ Err AssembleFault.TooLong) }
{
    match shelf.fetch(alloc, name, MOST_SOURCE) {
        Ok(text) => assemble_text(alloc, &text, out),
        Err(ShelfFault::Failed) => Err(AssembleFault::Unread),
        Err(ShelfFault::TooLong) => Err(AssembleFault::TooLong),
        Err(ShelfFault::Memory) => Err(AssembleFault::Memory),
    }
}
