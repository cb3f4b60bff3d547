//! The assembler and the printer, as the command answers for them.

ghost use Rattle.std.specs.Prelude.{◌≡◌, ◌⊎◌};
ghost use Rattle.og_io.specs.Outside.{TellsLongFile};
ghost use Rattle.og_cli.specs.Tools.{assembled_exit, printed_exit, Assembles, Disassembles};

use crate::exit::{Exit, SourceFault, WordsFile};
use og_io::{Shelf, Sink};
use og_load::ImageFault;
use og_tools::{AssembleFault, DisassembleFault, assemble_file, disassemble_file};
use std::alloc::Global;

/// The answer to how the assembling of a file ended.
fn assembled(ended: Result<(), AssembleFault>) -> Exit
    ensures { result ≡ assembled_exit ended }
{
    match ended {
        Ok(()) => Exit::Done,
        Err(AssembleFault::Unread) => Exit::ShelfFault(WordsFile::First),
        Err(AssembleFault::TooLong) => Exit::Source(SourceFault::TooLong),
        Err(AssembleFault::Line { number, cause }) => {
            Exit::Source(SourceFault::Line { number, cause })
        }
        Err(AssembleFault::Memory) => Exit::Memory,
        Err(AssembleFault::Unwritten) => Exit::SinkFault,
    }
}

/// Writes the raw image of the source in the file of this name.
pub(crate) fn assemble<F: Shelf, K: Sink>(
    alloc: Global,
    name: &str,
    shelf: &mut F,
    out: &mut K,
) -> Exit
    ensures ends { Assembles name.now (F.seen shelf.old) (F.seen shelf.new) (K.seen out.old) (K.seen out.new) result }
    ensures long { TellsLongFile (F.seen shelf.old).files name.now 16777216 → (result ≡ Exit.ShelfFault WordsFile.First) ⊎ (result ≡ Exit.Source SourceFault.TooLong) }
{
    assembled(assemble_file(alloc, name, shelf, out))
}

/// The answer to how the printing of a file ended.
fn printed(ended: Result<(), DisassembleFault>) -> Exit
    ensures { result ≡ printed_exit ended }
{
    match ended {
        Ok(()) => Exit::Done,
        Err(DisassembleFault::Unread) => Exit::ShelfFault(WordsFile::First),
        Err(DisassembleFault::TooLong) => Exit::Image(ImageFault::TooLong),
        Err(DisassembleFault::RawOut) => Exit::Image(ImageFault::Raw),
        Err(DisassembleFault::Memory) => Exit::Memory,
        Err(DisassembleFault::Unwritten) => Exit::SinkFault,
    }
}

/// Writes the text of the program in the raw image of this name.
pub(crate) fn disassemble<F: Shelf, K: Sink>(
    alloc: Global,
    name: &str,
    shelf: &mut F,
    out: &mut K,
) -> Exit
    ensures ends { Disassembles name.now (F.seen shelf.old) (F.seen shelf.new) (K.seen out.old) (K.seen out.new) result }
    ensures long { TellsLongFile (F.seen shelf.old).files name.now 67108864 → (result ≡ Exit.ShelfFault WordsFile.First) ⊎ (result ≡ Exit.Image ImageFault.TooLong) }
{
    printed(disassemble_file(alloc, name, shelf, out))
}
