//! From a raw image to the text of its program.

ghost use Rattle.std.specs.Prelude.{◌≡◌, ◌≢◌, ◌⊎◌, ◌↔◌, true, false, Ok, Err, OnOk, IfOk};
ghost use Rattle.og_elf.specs.Raw.{is_raw_out};
ghost use Rattle.og_io.specs.Outside.{TellsLongFile};
ghost use Rattle.og_tools.specs.Images.{raw_words};
ghost use Rattle.og_tools.specs.Tools.{DisassembleEnds, ImageEnds, program_text};

use crate::raw::words_of;
use og_elf::{RawFault, read_raw};
use og_io::{Shelf, ShelfFault, Sink, SinkFault, write_all};
use rv_asm::print;
use std::alloc::Global;

/// The most bytes of an image file.
const MOST_IMAGE: u64 = 67_108_864;

/// Why no text of an image is written, or not the whole of it.
#[derive(Clone, Copy, PartialEq, Eq, Debug)]
pub enum DisassembleFault {
    /// The file couldn't be read.
    Unread,
    /// The file has more than 67,108,864 bytes.
    TooLong,
    /// The file is no raw image.
    RawOut,
    /// Want of memory.
    Memory,
    /// The sink failed.
    Unwritten,
}

/// The words of the program in a raw image.
fn words_of_image(alloc: Global, file: &[u8]) -> Result<Vec<u32>, DisassembleFault>
    ensures words { IfOk result (λ words. words.items ≡ raw_words file.now) }
    ensures accepted { OnOk result (is_raw_out file.now ≡ false) }
    ensures out { result ≡ Err DisassembleFault.RawOut ↔ (is_raw_out file.now ≡ true) }
    ensures read { result ≢ Err DisassembleFault.Unread }
    ensures short { result ≢ Err DisassembleFault.TooLong }
    ensures unwritten { result ≢ Err DisassembleFault.Unwritten }
{
    let program = match read_raw(alloc, file) {
        Ok(program) => program,
        Err(RawFault::RawOut) => return Err(DisassembleFault::RawOut),
        Err(RawFault::Memory) => return Err(DisassembleFault::Memory),
    };
    let text = program.segments.as_slice()[0].bytes.as_slice();
    match words_of(alloc, text) {
        Ok(words) => Ok(words),
        Err(_) => Err(DisassembleFault::Memory),
    }
}

/// The text of the program in a raw image.
fn text_of_image(alloc: Global, file: &[u8]) -> Result<Vec<u8>, DisassembleFault>
    ensures text { IfOk result (λ text. text.items ≡ program_text file.now) }
    ensures accepted { OnOk result (is_raw_out file.now ≡ false) }
    ensures out { result ≡ Err DisassembleFault.RawOut ↔ (is_raw_out file.now ≡ true) }
    ensures read { result ≢ Err DisassembleFault.Unread }
    ensures short { result ≢ Err DisassembleFault.TooLong }
    ensures unwritten { result ≢ Err DisassembleFault.Unwritten }
{
    let words = match words_of_image(alloc, file) {
        Ok(words) => words,
        Err(fault) => return Err(fault),
    };
    match print(alloc, &words) {
        Ok(text) => Ok(text),
        Err(_) => Err(DisassembleFault::Memory),
    }
}

/// Writes the text of the program in a raw image.
fn disassemble_bytes<K: Sink>(
    alloc: Global,
    file: &[u8],
    out: &mut K,
) -> Result<(), DisassembleFault>
    ensures ends { ImageEnds file.now (K.seen out.old) (K.seen out.new) result }
    ensures out { is_raw_out file.now ≡ true → result ≡ Err DisassembleFault.RawOut }
{
    let text = match text_of_image(alloc, file) {
        Ok(text) => text,
        Err(fault) => return Err(fault),
    };
    match write_all(out, &text) {
        Ok(()) => Ok(()),
        Err(SinkFault::Failed) => Err(DisassembleFault::Unwritten),
        Err(SinkFault::Memory) => Err(DisassembleFault::Memory),
    }
}

/// Writes the text of the program in the raw image of this name, of at most 67,108,864 bytes: a line for each word. Its data
/// is passed over.
pub fn disassemble_file<F: Shelf, K: Sink>(
    alloc: Global,
    name: &str,
    shelf: &mut F,
    out: &mut K,
) -> Result<(), DisassembleFault>
    ensures ends { DisassembleEnds name.now (F.seen shelf.old) (F.seen shelf.new) (K.seen out.old) (K.seen out.new) result }
    ensures long { TellsLongFile (F.seen shelf.old).files name.now 67108864 → (result ≡ Err DisassembleFault.Unread) ⊎ (result ≡ Err DisassembleFault.TooLong) }
{
    match shelf.fetch(alloc, name, MOST_IMAGE) {
        Ok(file) => disassemble_bytes(alloc, &file, out),
        Err(ShelfFault::Failed) => Err(DisassembleFault::Unread),
        Err(ShelfFault::TooLong) => Err(DisassembleFault::TooLong),
        Err(ShelfFault::Memory) => Err(DisassembleFault::Memory),
    }
}
