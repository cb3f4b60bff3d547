mod choices;
mod tools;

use super::*;
use og_io::memory::{MemoryShelf, MemorySink};
use og_io::real::StreamSink;
use std::fs::{self, File};
use std::test::Fail;

// A program of seven instructions that stores a word, loads it and exits.
const STORE: &[u8] = b"\x1c\x00\x00\x00\xb7\x05\x10\x00\x13\x06\xa0\x02\x23\xa0\xc5\x00\
    \x83\xa6\x05\x00\x93\x08\xd0\x05\x13\x05\x00\x00\x73\x00\x00\x00";

// What its run prints.
const TEXT: &[u8] =
    b"origin 2 1 64 64 2 8 1000000 64 32 4 1024\nact 0\nact 0\nact 0\ntake 1 0 0\ntake 0 1 0\n\
    act 0\ntake 0 0 1\ntake 0 0 2\nat 8 0 store 0000000000100000 4 000000000000002a\nact 0\n\
    at 9 0 load 0000000000100000 4 = 000000000000002a\nact 0\nact 0\nact 0\n\
    at 12 0 exit 0000000000000000\nquiet 12 2\n";

// How a command ended, and what it wrote.
#[derive(Drop)]
struct Answer {
    status: u8,
    out: MemorySink,
    err: MemorySink,
}

// The words of this line, with one blank between each two.
fn words_of(alloc: Global, line: &str) -> Result<Vec<String>, Fail> {
    let mut words = Vec::new(alloc);
    for word in line.split(' ') {
        words.push(String::from_str(alloc, word)?)?;
    }
    Ok(words)
}

// A shelf with the one file `store.raw`, whose calls with these numbers fail.
fn shelf_with(alloc: Global, bytes: &[u8], fails: Vec<u64>) -> Result<MemoryShelf, Fail> {
    let mut shelf = MemoryShelf::make(alloc, fails);
    shelf.put(String::from_str(alloc, "store.raw")?, bytes.to_vec(alloc)?)?;
    Ok(shelf)
}

// A sink that never fails and takes all.
fn whole_sink(alloc: Global) -> MemorySink {
    MemorySink::make(alloc, 65_536, Vec::new(alloc))
}

// A sink that takes one byte in a call, and fails at the call with this number.
fn narrow_sink(alloc: Global, failing: u64) -> Result<MemorySink, Fail> {
    Ok(MemorySink::make(alloc, 1, vec![in alloc; failing]?))
}

// The answer to the words over this shelf, with these sinks.
fn answer_with(
    alloc: Global,
    words: &[String],
    shelf: MemoryShelf,
    out: MemorySink,
    err: MemorySink,
) -> Answer {
    let mut shelf = shelf;
    let mut out = out;
    let mut err = err;
    let exit = origin_alone(alloc, words, &mut shelf, &mut out, &mut err);
    Answer {
        status: exit.status(),
        out,
        err,
    }
}

// The answer to the words of this line, where `store.raw` holds these bytes.
fn answer_to(alloc: Global, line: &str, bytes: &[u8]) -> Result<Answer, Fail> {
    let words = words_of(alloc, line)?;
    let shelf = shelf_with(alloc, bytes, Vec::new(alloc))?;
    Ok(answer_with(alloc, &words, shelf, whole_sink(alloc), whole_sink(alloc)))
}

// The answer to the run of the program, with these sinks.
fn answer_through(alloc: Global, out: MemorySink, err: MemorySink) -> Result<Answer, Fail> {
    let words = words_of(alloc, "simulate store.raw --raw")?;
    let shelf = shelf_with(alloc, STORE, Vec::new(alloc))?;
    Ok(answer_with(alloc, &words, shelf, out, err))
}

/// A run prints its text and nothing else, whether it ends quiet or at its limit.
#[test]
fn a_run_prints_its_text(rt: HostRuntime) -> Result<(), Fail> {
    let table: &[(&str, u8, &[u8])] = &[
        ("simulate store.raw --raw", 0, TEXT),
        ("simulate store.raw --raw --nodes 1", 0, TEXT),
        (
            "simulate store.raw --raw --events 0",
            3,
            b"origin 2 1 64 64 2 8 1000000 64 32 4 1024\nlimit 0 0\n",
        ),
        (
            "simulate store.raw --raw --events 8",
            3,
            b"origin 2 1 64 64 2 8 1000000 64 32 4 1024\nact 0\nact 0\nact 0\ntake 1 0 0\ntake 0 1 0\n\
            act 0\ntake 0 0 1\ntake 0 0 2\nat 8 0 store 0000000000100000 4 000000000000002a\nlimit 8 1\n",
        ),
        ("simulate store.raw --events 12 --raw", 0, TEXT),
        ("simulate --raw --nodes=1 store.raw", 0, TEXT),
        ("simulate store.raw --draw 7 --raw", 0, TEXT),
        (
            "simulate store.raw --raw --frames=2 --sets 1 --instructions=0",
            0,
            b"origin 2 1 2 1 2 8 0 64 32 4 1024\nact 0\nat 1 0 spent\nquiet 1 0\n",
        ),
        (
            "simulate store.raw --instructions 0 --raw",
            0,
            b"origin 2 1 64 64 2 8 0 64 32 4 1024\nact 0\nat 1 0 spent\nquiet 1 0\n",
        ),
    ];
    for (line, status, text) in table {
        let answer = answer_to(rt.alloc(), line, STORE)?;
        assert_eq!(rt; answer.status, *status, "{line}");
        assert_eq!(rt; answer.out.held(), *text, "{line}");
        assert_eq!(rt; answer.err.held(), b"".as_slice(), "{line}");
    }
    Ok(())
}

/// A run tells how its hart stopped: by a trap of each kind, after an emit at the end of its text, or
/// after two emits by its exit.
#[test]
fn a_run_tells_its_cause(rt: HostRuntime) -> Result<(), Fail> {
    let table: &[(&[u8], &[u8])] = &[
        (
            b"\x04\x00\x00\x00\x73\x00\x00\x00",
            b"origin 2 1 64 64 2 8 1000000 64 32 4 1024\nact 0\nat 1 0 trap call 0000000000010000\nquiet 1 0\n",
        ),
        (
            b"\x08\x00\x00\x00\x13\x05\x10\x00\x00\x00\x00\x00",
            b"origin 2 1 64 64 2 8 1000000 64 32 4 1024\nact 0\nact 0\nat 2 0 trap illegal 0000000000010004\nquiet 2 0\n",
        ),
        (
            b"\x08\x00\x00\x00\xb7\x05\x10\x00\x67\x80\x05\x00",
            b"origin 2 1 64 64 2 8 1000000 64 32 4 1024\nact 0\nact 0\nact 0\nat 3 0 trap fetch 0000000000100000\nquiet 3 0\n",
        ),
        (
            b"\x08\x00\x00\x00\xb7\x05\x01\x00\x67\x80\x25\x00",
            b"origin 2 1 64 64 2 8 1000000 64 32 4 1024\nact 0\nact 0\nat 2 0 trap misaligned 0000000000010004\nquiet 2 0\n",
        ),
        (
            b"\x08\x00\x00\x00\xb7\x05\x10\x00\x03\xa6\x25\x00",
            b"origin 2 1 64 64 2 8 1000000 64 32 4 1024\nact 0\nact 0\nat 2 0 trap misaligned 0000000000010004\nquiet 2 0\n",
        ),
        (
            b"\x08\x00\x00\x00\xb7\x05\x20\x00\x03\xa6\x05\x00",
            b"origin 2 1 64 64 2 8 1000000 64 32 4 1024\nact 0\nact 0\nat 2 0 trap unmapped 0000000000010004\nquiet 2 0\n",
        ),
        (
            b"\x04\x00\x00\x00\x73\x00\x10\x00",
            b"origin 2 1 64 64 2 8 1000000 64 32 4 1024\nact 0\nat 1 0 trap break 0000000000010000\nquiet 1 0\n",
        ),
        (
            b"\x0c\x00\x00\x00\x93\x08\x10\x00\x13\x05\x70\x00\x73\x00\x00\x00",
            b"origin 2 1 64 64 2 8 1000000 64 32 4 1024\nact 0\nact 0\nact 0\nat 3 0 emit 0000000000000007\nact 0\nat 4 0 trap fetch 000000000001000c\nquiet 4 0\n",
        ),
        (
            b"\x20\x00\x00\x00\x93\x08\x10\x00\x13\x05\x70\x00\x73\x00\x00\x00\
                \x13\x05\x15\x00\x73\x00\x00\x00\x93\x08\xd0\x05\x13\x05\x00\x00\
                \x73\x00\x00\x00",
            b"origin 2 1 64 64 2 8 1000000 64 32 4 1024\nact 0\nact 0\nact 0\nat 3 0 emit 0000000000000007\nact 0\nact 0\nat 5 0 emit 0000000000000008\nact 0\nact 0\nact 0\nat 8 0 exit 0000000000000000\nquiet 8 0\n",
        ),
    ];
    for (bytes, text) in table {
        let answer = answer_to(rt.alloc(), "simulate store.raw --raw", bytes)?;
        assert_eq!(rt; answer.status, 0, "{bytes:?}");
        assert_eq!(rt; answer.out.held(), *text, "{bytes:?}");
        assert_eq!(rt; answer.err.held(), b"".as_slice(), "{bytes:?}");
    }
    Ok(())
}

/// A sink that takes eight bytes in a call and fails at the second holds the first eight.
#[test]
fn a_sink_may_fail_at_its_second_call(rt: HostRuntime) -> Result<(), Fail> {
    let alloc = rt.alloc();
    let out = MemorySink::make(alloc, 8, vec![in alloc; 2]?);
    let words = words_of(alloc, "simulate store.raw --raw")?;
    let shelf = shelf_with(alloc, b"\x04\x00\x00\x00\x73\x00\x00\x00", Vec::new(alloc))?;
    let answer = answer_with(alloc, &words, shelf, out, whole_sink(alloc));
    assert_eq!(rt; answer.status, 14);
    assert_eq!(rt; answer.out.held(), b"origin 2".as_slice());
    assert_eq!(rt; answer.err.held(), b"origin: cannot write\n".as_slice());
    Ok(())
}

/// A command that isn't done says why in one line, and prints nothing.
#[test]
fn a_refusal_is_one_line(rt: HostRuntime) -> Result<(), Fail> {
    let table: &[(&str, u8, &[u8])] = &[
        ("", 2, b"origin: words\n"),
        ("simulate", 2, b"origin: words\n"),
        ("simulate store.raw --frobnicate", 2, b"origin: words\n"),
        ("simulate store.raw --nodes 0", 2, b"origin: words\n"),
        ("simulate store.raw --nodes 01", 2, b"origin: words\n"),
        ("simulate store.raw --raw --raw", 2, b"origin: words\n"),
        ("simulate -- store.raw", 2, b"origin: words\n"),
        ("replay store.raw", 2, b"origin: words\n"),
        ("run store.raw --raw", 2, b"origin: words\n"),
        ("simulate store.raw", 4, b"origin: image NotElf at 0\n"),
        ("simulate missing", 1, b"origin: cannot read missing\n"),
        (
            "replay store.raw missing --raw",
            1,
            b"origin: cannot read missing\n",
        ),
        (
            "replay missing store.raw --raw",
            1,
            b"origin: cannot read missing\n",
        ),
        (
            "replay store.raw missing",
            4,
            b"origin: image NotElf at 0\n",
        ),
        (
            "replay store.raw store.raw --raw",
            6,
            b"origin: choices line 1 Grammar\n",
        ),
        (
            "storm 7 --nodes 4 --frames 2",
            4,
            b"origin: image NoFrames need 12 have 8\n",
        ),
        (
            "simulate missing --raw",
            1,
            b"origin: cannot read missing\n",
        ),
        ("simulate  --raw", 1, b"origin: cannot read \n"),
    ];
    for (line, status, text) in table {
        let answer = answer_to(rt.alloc(), line, STORE)?;
        assert_eq!(rt; answer.status, *status, "{line}");
        assert_eq!(rt; answer.out.held(), b"".as_slice(), "{line}");
        assert_eq!(rt; answer.err.held(), *text, "{line}");
    }
    Ok(())
}

/// Without words nothing is done.
#[test]
fn no_words_are_refused(rt: HostRuntime) -> Result<(), Fail> {
    let alloc = rt.alloc();
    let shelf = shelf_with(alloc, STORE, Vec::new(alloc))?;
    let answer = answer_with(alloc, &[], shelf, whole_sink(alloc), whole_sink(alloc));
    assert_eq!(rt; answer.status, 2);
    assert_eq!(rt; answer.out.held(), b"".as_slice());
    assert_eq!(rt; answer.err.held(), b"origin: words\n".as_slice());
    Ok(())
}

/// A file that is there but can't be read is told by its name.
#[test]
fn a_read_may_fail(rt: HostRuntime) -> Result<(), Fail> {
    let alloc = rt.alloc();
    let words = words_of(alloc, "simulate store.raw --raw")?;
    let shelf = shelf_with(alloc, STORE, vec![in alloc; 1]?)?;
    let answer = answer_with(alloc, &words, shelf, whole_sink(alloc), whole_sink(alloc));
    assert_eq!(rt; answer.status, 1);
    assert_eq!(rt; answer.out.held(), b"".as_slice());
    assert_eq!(rt;
        answer.err.held(),
        b"origin: cannot read store.raw\n".as_slice()
    );
    Ok(())
}

/// Files that are no raw images are refused: too short for a length, and of a length that the file
/// doesn't have.
#[test]
fn a_file_may_be_no_image(rt: HostRuntime) -> Result<(), Fail> {
    let table: &[&[u8]] = &[
        b"\x04\x00\x00",
        b"\x03\x00\x00\x00\x73\x00\x00\x00",
        b"\x08\x00\x00\x00\x73\x00\x00\x00",
    ];
    for bytes in table {
        let answer = answer_to(rt.alloc(), "simulate store.raw --raw", bytes)?;
        assert_eq!(rt; answer.status, 4, "{bytes:?}");
        assert_eq!(rt; answer.out.held(), b"".as_slice(), "{bytes:?}");
        assert_eq!(rt;
            answer.err.held(),
            b"origin: image RawOut\n".as_slice(),
            "{bytes:?}"
        );
    }
    Ok(())
}

/// A file with more bytes than an image may have is refused before it is looked at.
#[test]
fn a_file_may_be_too_long(rt: HostRuntime) -> Result<(), Fail> {
    let alloc = rt.alloc();
    let words = words_of(alloc, "simulate store.raw --raw")?;
    let long = vec![in alloc; 0u8; 67_108_865]?;
    let mut shelf = MemoryShelf::make(alloc, Vec::new(alloc));
    shelf.put(String::from_str(alloc, "store.raw")?, long)?;
    let answer = answer_with(alloc, &words, shelf, whole_sink(alloc), whole_sink(alloc));
    assert_eq!(rt; answer.status, 4);
    assert_eq!(rt; answer.out.held(), b"".as_slice());
    assert_eq!(rt; answer.err.held(), b"origin: image TooLong\n".as_slice());
    Ok(())
}

// A program whose only instruction is a call that isn't known, with so many pages of data.
fn program_with_pages(alloc: Global, pages: usize) -> Result<Vec<u8>, Fail> {
    let mut bytes = b"\x04\x00\x00\x00\x73\x00\x00\x00".to_vec(alloc)?;
    for _page in 0..pages {
        bytes.extend_from_slice(&[0; 4096])?;
    }
    Ok(bytes)
}

// An ELF file with one program header at 64 and its contents at 120: two instructions at 0x10000, which exit
// with 0.
const ELF: &[u8] = b"\x7fELF\x02\x01\x01\x00\x00\x00\x00\x00\x00\x00\x00\x00\
    \x02\x00\xf3\x00\x01\x00\x00\x00\x00\x00\x01\x00\x00\x00\x00\x00\
    \x40\x00\x00\x00\x00\x00\x00\x00\x00\x00\x00\x00\x00\x00\x00\x00\
    \x00\x00\x00\x00\x40\x00\x38\x00\x01\x00\x00\x00\x00\x00\x00\x00\
    \x01\x00\x00\x00\x05\x00\x00\x00\x78\x00\x00\x00\x00\x00\x00\x00\
    \x00\x00\x01\x00\x00\x00\x00\x00\x00\x00\x01\x00\x00\x00\x00\x00\
    \x08\x00\x00\x00\x00\x00\x00\x00\x08\x00\x00\x00\x00\x00\x00\x00\
    \x04\x00\x00\x00\x00\x00\x00\x00\
    \x93\x08\xd0\x05\x73\x00\x00\x00";

// The first bytes of the file, with a number of eight bytes at most written into it.
fn elf_with(
    alloc: Global,
    length: usize,
    at: usize,
    count: usize,
    value: u64,
) -> Result<Vec<u8>, Fail> {
    let mut bytes = Vec::new(alloc);
    let new = value.to_le_bytes();
    for (i, byte) in ELF.iter().take(length).enumerate() {
        let place = i.wrapping_sub(at);
        let byte = if place < count {
            new.get(place).copied().unwrap_or(0)
        } else {
            *byte
        };
        bytes.push(byte)?;
    }
    Ok(bytes)
}

/// Without `--raw` the file is read as ELF. It is run, or its first fault is told with its offset.
#[test]
fn a_file_may_be_elf(rt: HostRuntime) -> Result<(), Fail> {
    let table: &[(usize, usize, usize, u64, u8, &[u8])] = &[
        (128, 0, 0, 0, 0, b""),
        (63, 0, 0, 0, 4, b"origin: image NotElf at 0\n"),
        (64, 0, 0, 0, 4, b"origin: image HeaderOut at 32\n"),
        (120, 0, 0, 0, 4, b"origin: image SegmentOut at 64\n"),
        (128, 4, 1, 1, 4, b"origin: image NotClass64 at 4\n"),
        (128, 5, 1, 2, 4, b"origin: image NotLittle at 5\n"),
        (128, 16, 2, 3, 4, b"origin: image NotExec at 16\n"),
        (128, 18, 2, 62, 4, b"origin: image NotRiscv at 18\n"),
        (128, 24, 8, 65_538, 4, b"origin: image NoEntry at 24\n"),
        (128, 32, 8, u64::MAX, 4, b"origin: image HeaderOut at 32\n"),
        (128, 54, 2, 55, 4, b"origin: image HeaderOut at 54\n"),
        (128, 54, 4, 0, 4, b"origin: image NoEntry at 24\n"),
        (128, 68, 4, 7, 4, b"origin: image WritableText at 64\n"),
        (128, 72, 8, u64::MAX, 4, b"origin: image SegmentOut at 64\n"),
        (
            128,
            80,
            8,
            u64::MAX - 4095,
            4,
            b"origin: image SegmentOut at 64\n",
        ),
        (
            128,
            104,
            8,
            0x120_0000,
            4,
            b"origin: image TooLarge at 64\n",
        ),
    ];
    for (length, at, count, value, status, err) in table {
        let bytes = elf_with(rt.alloc(), *length, *at, *count, *value)?;
        let answer = answer_to(rt.alloc(), "simulate store.raw", &bytes)?;
        assert_eq!(rt; answer.status, *status, "{length} {at}");
        assert_eq!(rt; answer.err.held(), *err, "{length} {at}");
        let printed = answer.out.held();
        let text: &[u8] = if *status == 0 {
            b"origin 2 1 64 64 2 8 1000000 64 32 4 1024\nact 0\nact 0\nat 2 0 exit 0000000000000000\nquiet 2 0\n"
        } else {
            b""
        };
        assert_eq!(rt; printed, text, "{length} {at}");
    }
    Ok(())
}

/// A machine of 64 frames runs a program of 63 data pages and a stack page, and no larger one.
#[test]
fn a_program_may_need_more_frames(rt: HostRuntime) -> Result<(), Fail> {
    let table: &[(usize, u8, &[u8], &[u8])] = &[
        (
            63,
            0,
            b"origin 2 1 64 64 2 8 1000000 64 32 4 1024\nact 0\nat 1 0 trap call 0000000000010000\nquiet 1 0\n",
            b"",
        ),
        (64, 4, b"", b"origin: image NoFrames need 65 have 64\n"),
    ];
    for (pages, status, out, err) in table {
        let bytes = program_with_pages(rt.alloc(), *pages)?;
        let answer = answer_to(rt.alloc(), "simulate store.raw --raw", &bytes)?;
        assert_eq!(rt; answer.status, *status, "{pages}");
        assert_eq!(rt; answer.out.held(), *out, "{pages}");
        assert_eq!(rt; answer.err.held(), *err, "{pages}");
    }
    Ok(())
}

/// A sink that takes one byte in a call gets the same text.
#[test]
fn a_text_may_go_byte_by_byte(rt: HostRuntime) -> Result<(), Fail> {
    let alloc = rt.alloc();
    let out = MemorySink::make(alloc, 1, Vec::new(alloc));
    let answer = answer_through(alloc, out, whole_sink(alloc))?;
    assert_eq!(rt; answer.status, 0);
    assert_eq!(rt; answer.out.held(), TEXT);
    assert_eq!(rt; answer.err.held(), b"".as_slice());
    Ok(())
}

/// Wherever the writing of the text fails, exactly the bytes before are held.
#[test]
fn a_sink_that_fails_holds_what_it_took(rt: HostRuntime) -> Result<(), Fail> {
    let alloc = rt.alloc();
    for (taken, _) in TEXT.iter().enumerate() {
        let out = narrow_sink(alloc, taken as u64 + 1)?;
        let answer = answer_through(alloc, out, whole_sink(alloc))?;
        assert_eq!(rt; answer.status, 14, "{taken}");
        assert_eq!(rt; answer.out.held(), &TEXT[..taken], "{taken}");
        assert_eq!(rt;
            answer.err.held(),
            b"origin: cannot write\n".as_slice(),
            "{taken}"
        );
    }
    Ok(())
}

/// Where standard output is closed, or its disk full, the text can't be written. The system answers a
/// write to a closed stream as it answers one to a file that was opened only to be read.
#[test]
fn a_closed_or_full_output_takes_nothing(rt: HostRuntime) -> Result<(), Fail> {
    let alloc = rt.alloc();
    let words = words_of(alloc, "simulate store.raw --raw")?;
    fs::write(&rt, "closed.out", b"before")?;
    let closed = File::open(&rt, "closed.out")?;
    let full = fs::create(&rt, "/dev/full")?;
    for file in [closed, full] {
        let mut shelf = shelf_with(alloc, STORE, Vec::new(alloc))?;
        let mut out = StreamSink::make(file);
        let mut err = whole_sink(alloc);
        let exit = origin_alone(alloc, &words, &mut shelf, &mut out, &mut err);
        assert_eq!(rt; exit.status(), 14);
        assert_eq!(rt; err.held(), b"origin: cannot write\n".as_slice());
    }
    assert_eq!(rt;
        fs::read(&rt, "closed.out")?.as_slice(),
        b"before".as_slice()
    );
    fs::remove_file(&rt, "closed.out")?;
    Ok(())
}

/// A line that can't be told changes no status.
#[test]
fn an_untold_line_changes_no_status(rt: HostRuntime) -> Result<(), Fail> {
    let alloc = rt.alloc();
    let table: &[(&str, u8)] = &[
        ("simulate", 2),
        ("simulate store.raw", 4),
        ("replay store.raw store.raw --raw", 6),
        ("storm 7 --loops 1", 14),
        ("simulate missing --raw", 1),
        ("simulate store.raw --raw", 14),
        ("assemble store.raw", 12),
        ("disassemble store.raw", 14),
    ];
    for (line, status) in table {
        let words = words_of(alloc, line)?;
        let shelf = shelf_with(alloc, STORE, Vec::new(alloc))?;
        let out = narrow_sink(alloc, 1)?;
        let answer = answer_with(alloc, &words, shelf, out, narrow_sink(alloc, 4)?);
        assert_eq!(rt; answer.status, *status, "{line}");
        assert_eq!(rt; answer.out.held(), b"".as_slice(), "{line}");
        assert_eq!(rt; answer.err.held(), b"ori".as_slice(), "{line}");
    }
    Ok(())
}
