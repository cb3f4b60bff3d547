//! Files of sources and images, in memory.

use crate::{AssembleFault, DisassembleFault, assemble_file, disassemble_file};
use og_io::memory::{MemoryShelf, MemorySink};
use rv_asm::SourceCause;
use std::alloc::{AllocError, Global};
use std::test::Fail;

// A program of two instructions, its image with the words of another assembler, and a source that spells them otherwise.
const SOURCE: &[u8] = b"# stops\n start: sraiw s1,s2,0x1F\n\n ebreak\n";

const IMAGE: [u8; 12] = [8, 0, 0, 0, 0x9b, 0x54, 0xf9, 0x41, 0x73, 0, 0x10, 0];

const PRINTED: &[u8] = b"sraiw x9,x18,31\nebreak\n";

// A shelf with one file of this name.
fn shelf_of(alloc: Global, name: &str, bytes: &[u8]) -> Result<MemoryShelf, AllocError> {
    let mut shelf = MemoryShelf::make(alloc, Vec::new(alloc));
    shelf.put(String::from_str(alloc, name)?, bytes.to_vec(alloc)?)?;
    Ok(shelf)
}

#[test]
fn a_source_has_its_image_and_an_image_its_text(rt: HostRuntime) -> Result<(), Fail> {
    let alloc = rt.alloc();
    let mut shelf = shelf_of(alloc, "p.s", SOURCE)?;
    let mut image = MemorySink::make(alloc, 5, Vec::new(alloc));
    assert_eq!(rt; assemble_file(alloc, "p.s", &mut shelf, &mut image), Ok(()));
    assert_eq!(rt; image.held(), IMAGE.as_slice());
    let mut shelf = shelf_of(alloc, "p", image.held())?;
    let mut text = MemorySink::make(alloc, 5, Vec::new(alloc));
    assert_eq!(rt; disassemble_file(alloc, "p", &mut shelf, &mut text), Ok(()));
    assert_eq!(rt; text.held(), PRINTED);
    Ok(())
}

#[test]
fn a_sink_that_fails_is_told(rt: HostRuntime) -> Result<(), Fail> {
    let alloc = rt.alloc();
    let mut shelf = shelf_of(alloc, "p.s", SOURCE)?;
    let mut image = MemorySink::make(alloc, 5, vec![in alloc; 2]?);
    assert_eq!(rt;
        assemble_file(alloc, "p.s", &mut shelf, &mut image),
        Err(AssembleFault::Unwritten)
    );
    assert_eq!(rt; image.held(), &IMAGE[..5]);
    let mut shelf = shelf_of(alloc, "p", IMAGE.as_slice())?;
    let mut text = MemorySink::make(alloc, 5, vec![in alloc; 2]?);
    assert_eq!(rt;
        disassemble_file(alloc, "p", &mut shelf, &mut text),
        Err(DisassembleFault::Unwritten)
    );
    assert_eq!(rt; text.held(), b"sraiw".as_slice());
    Ok(())
}

#[test]
fn a_file_at_fault_is_told(rt: HostRuntime) -> Result<(), Fail> {
    let alloc = rt.alloc();
    let mut shelf = shelf_of(alloc, "p", b"ecall\naddi x1,x0,2048\n")?;
    let mut out = MemorySink::make(alloc, 5, Vec::new(alloc));
    let range = AssembleFault::Line {
        number: 2,
        cause: SourceCause::Range,
    };
    assert_eq!(rt; assemble_file(alloc, "p", &mut shelf, &mut out), Err(range));
    assert_eq!(rt;
        assemble_file(alloc, "q", &mut shelf, &mut out),
        Err(AssembleFault::Unread)
    );
    assert_eq!(rt;
        disassemble_file(alloc, "p", &mut shelf, &mut out),
        Err(DisassembleFault::RawOut)
    );
    assert_eq!(rt;
        disassemble_file(alloc, "q", &mut shelf, &mut out),
        Err(DisassembleFault::Unread)
    );
    assert_eq!(rt; out.held().len(), 0);
    Ok(())
}
