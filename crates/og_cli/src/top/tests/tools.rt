// Sources that are assembled, and images that are printed.

use super::*;

// The source of the program `STORE`, and the text of its image.
const SOURCE: &[u8] =
    b"lui a1,256\naddi a2,x0,42\nsw a2,0(a1)\nlw a3,0(a1)\naddi a7,x0,93\naddi a0,x0,0\necall\n";

const PRINTED: &[u8] =
    b"lui x11,256\naddi x12,x0,42\nsw x12,0(x11)\nlw x13,0(x11)\naddi x17,x0,93\naddi x10,x0,0\necall\n";

/// What is asked for is written, and nothing else: the image of a source, the text of an image's code.
#[test]
fn a_file_has_its_image_or_its_text(rt: HostRuntime) -> Result<(), Fail> {
    let table: &[(&str, &[u8], &[u8])] = &[
        ("assemble store.raw", SOURCE, STORE),
        ("disassemble store.raw", STORE, PRINTED),
        ("assemble store.raw", PRINTED, STORE),
        (
            "assemble store.raw",
            b".word 0\n",
            b"\x04\x00\x00\x00\x00\x00\x00\x00",
        ),
        (
            "disassemble store.raw",
            b"\x04\x00\x00\x00\x00\x00\x00\x00",
            b".word 0\n",
        ),
        (
            "assemble store.raw",
            b"# a loop\n  again : jal zero , again # for ever",
            b"\x04\x00\x00\x00\x6f\x00\x00\x00",
        ),
        (
            "disassemble store.raw",
            b"\x04\x00\x00\x00\x6f\x00\x00\x00and its data",
            b"jal x0,0\n",
        ),
    ];
    for (line, bytes, text) in table {
        let answer = answer_to(rt.alloc(), line, bytes)?;
        assert_eq!(rt; answer.status, 0, "{line} {bytes:?}");
        assert_eq!(rt; answer.out.held(), *text, "{line} {bytes:?}");
        assert_eq!(rt; answer.err.held(), b"".as_slice(), "{line} {bytes:?}");
    }
    Ok(())
}

/// The first line that isn't taken is named, with why; nothing is written.
#[test]
fn a_source_may_have_a_fault(rt: HostRuntime) -> Result<(), Fail> {
    let table: &[(&[u8], &[u8])] = &[
        (
            b"a: beq x0,x0,a\njal x0,b\n",
            b"origin: source line 2 Label\n",
        ),
        (b"addi x1,x0,2048", b"origin: source line 1 Range\n"),
        (
            b"ecall\n\n addi x1 x0 1\n",
            b"origin: source line 3 Syntax\n",
        ),
        (b"halt\n", b"origin: source line 1 Name\n"),
        (b"addi x1,x2,x3\n", b"origin: source line 1 Operands\n"),
        (
            b"ecall\nadd x1,x2,x32\n",
            b"origin: source line 2 Register\n",
        ),
        (
            b"a: ecall\nb: ecall\na: ecall\n",
            b"origin: source line 3 Twice\n",
        ),
        (b"# nothing\n\n", b"origin: source line 2 Size\n"),
        (b"", b"origin: source line 1 Size\n"),
    ];
    for (source, text) in table {
        let answer = answer_to(rt.alloc(), "assemble store.raw", source)?;
        assert_eq!(rt; answer.status, 12, "{source:?}");
        assert_eq!(rt; answer.out.held(), b"".as_slice(), "{source:?}");
        assert_eq!(rt; answer.err.held(), *text, "{source:?}");
    }
    Ok(())
}

/// Words and files that are refused are told in one line, and nothing is written.
#[test]
fn other_refusals_are_one_line(rt: HostRuntime) -> Result<(), Fail> {
    let table: &[(&str, u8, &[u8])] = &[
        ("assemble", 2, b"origin: words\n"),
        ("assemble store.raw other", 2, b"origin: words\n"),
        ("assemble store.raw --raw", 2, b"origin: words\n"),
        ("assemble store.raw --nodes 1", 2, b"origin: words\n"),
        ("disassemble --raw store.raw", 2, b"origin: words\n"),
        ("assemble missing", 1, b"origin: cannot read missing\n"),
        ("disassemble missing", 1, b"origin: cannot read missing\n"),
        ("disassemble store.raw", 4, b"origin: image RawOut\n"),
    ];
    for (line, status, text) in table {
        let answer = answer_to(rt.alloc(), line, ELF)?;
        assert_eq!(rt; answer.status, *status, "{line}");
        assert_eq!(rt; answer.out.held(), b"".as_slice(), "{line}");
        assert_eq!(rt; answer.err.held(), *text, "{line}");
    }
    Ok(())
}

// The answer to the words of this line, where `store.raw` has so many bytes.
fn answer_to_many(alloc: Global, line: &str, count: usize) -> Result<Answer, Fail> {
    let words = words_of(alloc, line)?;
    let bytes = vec![in alloc; b'#'; count]?;
    let mut shelf = MemoryShelf::make(alloc, Vec::new(alloc));
    shelf.put(String::from_str(alloc, "store.raw")?, bytes)?;
    Ok(answer_with(alloc, &words, shelf, whole_sink(alloc), whole_sink(alloc)))
}

/// A source has at most 16,777,216 bytes, and an image 67,108,864.
#[test]
fn files_may_be_too_long(rt: HostRuntime) -> Result<(), Fail> {
    let table: &[(&str, usize, u8, &[u8])] = &[
        (
            "assemble store.raw",
            16_777_217,
            12,
            b"origin: source TooLong\n",
        ),
        (
            "disassemble store.raw",
            67_108_865,
            4,
            b"origin: image TooLong\n",
        ),
    ];
    for (line, count, status, text) in table {
        let answer = answer_to_many(rt.alloc(), line, *count)?;
        assert_eq!(rt; answer.status, *status, "{line} {count}");
        assert_eq!(rt; answer.out.held(), b"".as_slice(), "{line} {count}");
        assert_eq!(rt; answer.err.held(), *text, "{line} {count}");
    }
    Ok(())
}

/// A file that is there but can't be read, and a sink that fails at its fourth byte.
#[test]
fn a_file_or_a_sink_may_fail(rt: HostRuntime) -> Result<(), Fail> {
    let alloc = rt.alloc();
    let table: &[(&str, &[u8], &[u8])] = &[
        ("assemble store.raw", SOURCE, b"\x1c\x00\x00"),
        ("disassemble store.raw", STORE, b"lui"),
    ];
    for (line, bytes, first) in table {
        let words = words_of(alloc, line)?;
        let shelf = shelf_with(alloc, bytes, vec![in alloc; 1]?)?;
        let unread = answer_with(alloc, &words, shelf, whole_sink(alloc), whole_sink(alloc));
        assert_eq!(rt; unread.status, 1, "{line}");
        assert_eq!(rt; unread.out.held(), b"".as_slice(), "{line}");
        assert_eq!(rt;
            unread.err.held(),
            b"origin: cannot read store.raw\n".as_slice(),
            "{line}"
        );
        let shelf = shelf_with(alloc, bytes, Vec::new(alloc))?;
        let cut = answer_with(
            alloc,
            &words,
            shelf,
            narrow_sink(alloc, 4)?,
            whole_sink(alloc),
        );
        assert_eq!(rt; cut.status, 14, "{line}");
        assert_eq!(rt; cut.out.held(), *first, "{line}");
        assert_eq!(rt;
            cut.err.held(),
            b"origin: cannot write\n".as_slice(),
            "{line}"
        );
    }
    Ok(())
}
