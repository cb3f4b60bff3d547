use super::memory::{MemoryShelf, MemorySink};
use super::real::{FileShelf, StreamSink};
use super::*;
use std::fs;
use std::io::{self, ErrorKind, Write};
use std::test::Fail;

const TEXT: &[u8] = b"act 0\nat 1 0 trap call 0000000000010000\nquiet 1 0\n";

#[test]
fn a_sink_that_fails_holds_the_first_bytes(rt: HostRuntime) -> Result<(), Fail> {
    let mut sink = MemorySink::make(rt.alloc(), 8, vec![in rt.alloc(); 2]?);
    assert_eq!(rt; write_all(&mut sink, TEXT), Err(SinkFault::Failed));
    assert_eq!(rt; sink.held(), b"act 0\nat".as_slice());
    assert_eq!(rt; sink.faults(), 1);
    Ok(())
}

// One byte at a time, and a failure at each call in turn.
#[test]
fn a_sink_may_take_one_byte_at_a_time(rt: HostRuntime) -> Result<(), Fail> {
    let mut sink = MemorySink::make(rt.alloc(), 1, Vec::new(rt.alloc()));
    assert_eq!(rt; write_all(&mut sink, TEXT), Ok(()));
    assert_eq!(rt; sink.held(), TEXT);
    for (taken, _) in TEXT.iter().enumerate() {
        let fails = vec![in rt.alloc(); taken as u64 + 1]?;
        let mut sink = MemorySink::make(rt.alloc(), 1, fails);
        assert_eq!(rt; write_all(&mut sink, TEXT), Err(SinkFault::Failed));
        assert_eq!(rt; sink.held(), &TEXT[..taken]);
    }
    Ok(())
}

#[test]
fn a_long_text_is_written_in_pieces(rt: HostRuntime) -> Result<(), Fail> {
    let text = vec![in rt.alloc(); 7u8; 200_000]?;
    let mut sink = MemorySink::make(rt.alloc(), 100_000, vec![in rt.alloc(); 4]?);
    assert_eq!(rt; write_all(&mut sink, &text), Err(SinkFault::Failed));
    assert_eq!(rt; sink.held().len(), 3 * 65_536);
    Ok(())
}

#[test]
fn a_text_may_come_in_parts(rt: HostRuntime) -> Result<(), Fail> {
    let parts = [
        b"origin: cannot read ".as_slice(),
        b"p1".as_slice(),
        b"\n".as_slice(),
    ];
    let mut sink = MemorySink::make(rt.alloc(), 8, Vec::new(rt.alloc()));
    assert_eq!(rt; write_parts(&mut sink, &parts), Ok(()));
    assert_eq!(rt; sink.held(), b"origin: cannot read p1\n".as_slice());
    let mut sink = MemorySink::make(rt.alloc(), 8, vec![in rt.alloc(); 4]?);
    assert_eq!(rt; write_parts(&mut sink, &parts), Err(SinkFault::Failed));
    assert_eq!(rt; sink.held(), b"origin: cannot read ".as_slice());
    Ok(())
}

fn owned(alloc: Global, text: &str) -> Result<String, AllocError> {
    String::from_str(alloc, text)
}

#[test]
fn a_shelf_in_memory_gives_what_was_put(rt: HostRuntime) -> Result<(), Fail> {
    let alloc = rt.alloc();
    let mut shelf = MemoryShelf::make(alloc, vec![in alloc; 1]?);
    shelf.put(owned(alloc, "old")?, vec![in alloc; 1, 2]?)?;
    shelf.put(owned(alloc, "p1")?, vec![in alloc; 3, 4, 5]?)?;
    assert!(rt; matches!(&shelf.fetch(alloc, "p1", 9), Err(ShelfFault::Failed)));
    assert!(rt; matches!(&shelf.fetch(alloc, "p2", 9), Err(ShelfFault::Failed)));
    assert!(rt; matches!(&shelf.fetch(alloc, "p1", 2), Err(ShelfFault::TooLong)));
    assert_eq!(rt;
        shelf.fetch(alloc, "p1", 3)?.as_slice(),
        [3, 4, 5].as_slice()
    );
    assert_eq!(rt; shelf.fetch(alloc, "old", 3)?.as_slice(), [1, 2].as_slice());
    Ok(())
}

// A file of more than a mebibyte, names with a blank at their end, and only what failed among the failed.
#[test]
fn a_shelf_of_files_reads_whole_files(rt: HostRuntime) -> Result<(), Fail> {
    let alloc = rt.alloc();
    let long = vec![in alloc; 9u8; 1_500_000]?;
    let short = [1u8, 2, 3];
    fs::write(&rt, "long.bin", long.as_slice())?;
    fs::write(&rt, "blank ", short.as_slice())?;
    let mut shelf = FileShelf::make(&rt, alloc);
    assert!(rt; matches!(&shelf.fetch(alloc, "missing", 9), Err(ShelfFault::Failed)));
    assert!(rt; matches!(&shelf.fetch(alloc, "blank", 9), Err(ShelfFault::Failed)));
    assert!(rt;
        matches!(
            &shelf.fetch(alloc, "long.bin", 1_499_999),
            Err(ShelfFault::TooLong)
        )
    );
    assert_eq!(rt;
        shelf.fetch(alloc, "blank ", 9)?.as_slice(),
        short.as_slice()
    );
    assert_eq!(rt;
        shelf.fetch(alloc, "long.bin", 1_500_000)?.as_slice(),
        long.as_slice()
    );
    let failed = shelf.failed();
    assert_eq!(rt; failed.len(), 2);
    assert_eq!(rt; failed[0].as_str(), "missing");
    assert_eq!(rt; failed[1].as_str(), "blank");
    fs::remove_file(&rt, "long.bin")?;
    fs::remove_file(&rt, "blank ")?;
    Ok(())
}

// Takes three bytes, then is interrupted, then takes none.
#[derive(Drop)]
struct Faltering {
    calls: u8,
}

impl Write for Faltering {
    fn write(&mut self, buf: &[u8]) -> io::Result<usize> {
        self.calls = self.calls.saturating_add(1);
        match self.calls {
            1 => Ok(buf.len().min(3)),
            2 => Err(io::Error::from(ErrorKind::Interrupted)),
            _ => Ok(0),
        }
    }

    fn flush(&mut self) -> io::Result<()> {
        Ok(())
    }
}

#[test]
fn a_stream_that_takes_nothing_fails(rt: HostRuntime) -> Result<(), Fail> {
    let mut sink = StreamSink::make(Faltering { calls: 0 });
    assert_eq!(rt; sink.write(b""), Ok(0));
    assert_eq!(rt; sink.write(TEXT), Ok(3));
    assert_eq!(rt; sink.write(TEXT), Err(SinkFault::Failed));
    let mut file = StreamSink::make(fs::create(&rt, "written.txt")?);
    assert_eq!(rt; write_all(&mut file, TEXT), Ok(()));
    assert_eq!(rt; fs::read(&rt, "written.txt")?.as_slice(), TEXT);
    fs::remove_file(&rt, "written.txt")?;
    Ok(())
}
