//! Why a file isn't read.

use og_base::NoMemory;

/// What is wrong with an ELF file, in the order in which it is looked for.
#[derive(Clone, Copy, PartialEq, Eq, Debug)]
pub enum ElfCause {
    /// Fewer than 64 bytes, or another beginning than 7f 45 4c 46.
    NotElf,
    /// Not of class 64.
    NotClass64,
    /// Not little-endian.
    NotLittle,
    /// No executable (ET_EXEC).
    NotExec,
    /// Not for RISC-V (EM_RISCV).
    NotRiscv,
    /// Program headers of another size than 56 bytes, or past the end of the file.
    HeaderOut,
    /// A segment with more contents than memory, with contents past the end of the file, or outside
    /// the addresses 0x1000 to 0x70000000.
    SegmentOut,
    /// A segment that shares a byte with an earlier one, or a page where just one of both is writable.
    Overlap,
    /// A segment that is writable and runnable.
    WritableText,
    /// An entry that is no multiple of 4, or whose four bytes don't lie in one runnable segment.
    NoEntry,
    /// More than 16,777,216 bytes of memory.
    TooLarge,
}

/// Why an ELF file isn't read.
#[derive(Clone, Copy, PartialEq, Eq, Debug)]
pub enum ElfFault {
    /// The file's first fault, and its offset in the file.
    Bad { cause: ElfCause, at: u64 },
    /// Want of memory.
    Memory,
}

impl From<NoMemory> for ElfFault {
    ghost use Rattle.std.specs.Prelude.{◌≡◌};
    ghost use Rattle.og_elf.specs.declared.fault.ElfFault.TheVariants.{Memory};

    ghost from_gives = { λ _ fault. fault ≡ Memory };

    fn from(_: NoMemory) -> ElfFault {
        ElfFault::Memory
    }
}
