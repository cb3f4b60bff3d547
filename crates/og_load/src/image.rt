//! The program of an image file.

ghost use Rattle.std.specs.Prelude.{◌≡◌, ◌≢◌, ◌⊎◌, Some, None, Err, IfOk, OnOk, true};
ghost use Rattle.og_elf.specs.Raw.{is_raw_out};
ghost use Rattle.og_elf.specs.Segment.{IsLoadable};
ghost use Rattle.og_io.specs.Outside.{TellsLongFile};
ghost use Rattle.og_load.specs.Images.{program_fault, program_of, ProgramLoads};

use crate::Unused;
use og_elf::{Elf, ElfCause, ElfFault, RawFault, read_elf, read_raw};
use og_io::{Shelf, ShelfFault};
use std::alloc::Global;

/// The most bytes of an image file.
const MOST_BYTES: u64 = 67_108_864;

/// Why an image isn't run.
#[derive(Clone, Copy, PartialEq, Eq, Debug)]
pub enum ImageFault {
    /// An ELF file with this fault, at this offset.
    Elf { cause: ElfCause, at: u64 },
    /// A raw file that is no program.
    Raw,
    /// More data and stack pages than frames.
    NoFrames { need: u64, have: u64 },
    /// A file of more than 67,108,864 bytes.
    TooLong,
}

/// The program in the bytes of a file: a raw one where `raw` says so, else one in ELF.
fn read_program(alloc: Global, raw: bool, bytes: &[u8]) -> Result<Elf, Unused<ImageFault>>
    ensures fault { (fault : ImageFault) → result ≡ Err (Unused.Fault fault) → program_fault raw bytes.now ≡ Some fault }
    ensures known { result ≢ Err Unused.Unread }
    ensures sound { OnOk result (program_fault raw bytes.now ≡ None) }
    ensures read { IfOk result (λ elf. elf ≡ program_of raw bytes.now) }
    ensures loadable { IfOk result (λ elf. IsLoadable elf.entry elf.segments) }
    ensures out { raw ≡ true → is_raw_out bytes.now ≡ true → result ≡ Err (Unused.Fault ImageFault.Raw) }
{
    if raw {
        return match read_raw(alloc, bytes) {
            Ok(elf) => Ok(elf),
            Err(RawFault::RawOut) => Err(Unused::Fault(ImageFault::Raw)),
            Err(RawFault::Memory) => Err(Unused::Memory),
        };
    }
    match read_elf(alloc, bytes) {
        Ok(elf) => Ok(elf),
        Err(ElfFault::Bad { cause, at }) => Err(Unused::Fault(ImageFault::Elf { cause, at })),
        Err(ElfFault::Memory) => Err(Unused::Memory),
    }
}

/// The program of the file with this name.
pub fn load_program<F: Shelf>(
    alloc: Global,
    shelf: &mut F,
    name: &str,
    raw: bool,
) -> Result<Elf, Unused<ImageFault>>
    ensures loads { ProgramLoads raw name.now (F.seen shelf.old) (F.seen shelf.new) result }
    ensures loadable { IfOk result (λ elf. IsLoadable elf.entry elf.segments) }
    ensures long { TellsLongFile (F.seen shelf.old).files name.now MOST_BYTES → (result ≡ Err Unused.Unread) ⊎ (result ≡ Err (Unused.Fault ImageFault.TooLong)) }
{
    match shelf.fetch(alloc, name, MOST_BYTES) {
        Ok(bytes) => read_program(alloc, raw, &bytes),
        Err(ShelfFault::Failed) => Err(Unused::Unread),
        Err(ShelfFault::TooLong) => Err(Unused::Fault(ImageFault::TooLong)),
        Err(ShelfFault::Memory) => Err(Unused::Memory),
    }
}
