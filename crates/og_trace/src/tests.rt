//! Texts, line by line, and a run both ways.

use crate::{TextFault, read_text, write_text};
use og_base::{Cause, Frame, Reason, Settings, VPage};
use og_line::{Access, AtomicOp};
use og_msg::{Event, Note};
use og_runs::{Choice, MsgId, Stamp};
use std::alloc::Global;
use std::test::Fail;

fn fault_of(alloc: Global, text: &[u8]) -> Option<TextFault> {
    read_text(alloc, text).err()
}

#[test]
fn texts_in_the_grammar_are_read(rt: HostRuntime) -> Result<(), Fail> {
    let texts: [&[u8]; 12] = [
        b"",
        b"act 0",
        b"act 128\n",
        b"take 0 0 18446744073709551615\n",
        b"origin 2 1 64 64 2 8 1000000 64 32 4 1024\nlimit 0 0\n",
        b"origin 2 128 128 1024 8 64 0 1000000 1 0 1",
        b"at 7 0 load 0000000000100000 4 = 000000000000002a\nat 0 128 store 00000000000fffff 1 ffffffffffffffff",
        b"at 1 1 lr 0000000000100000 8 = 0000000000000000\nat 2 1 sc 0000000000100000 2 000000000000ffff = 0000000000000001\n",
        b"at 1 1 maxu 0000000000100000 8 0000000000000001 = 0000000000000000\nact 1\nat 9 9 emit 0000000000000007\n",
        b"at 1 1 exit 0000000000000000\nat 1 1 spent\nat 1 1 trap misaligned 0000000000010000\nquiet 1 0\n",
        b"at 1 2 begin 0000000000100000 0.0 1.1\nat 2 2 move fffffffffffff000 255.65535 1.1\n",
        b"at 3 2 free 0.0\nat 3 2 no full 1.1 0\nat 3 2 no worn 1.1 128\n",
    ];
    for text in texts {
        assert_eq!(rt; fault_of(rt.alloc(), text), None);
    }
    Ok(())
}

#[test]
fn the_first_line_outside_the_grammar_is_named(rt: HostRuntime) -> Result<(), Fail> {
    let texts: [(&[u8], u64); 40] = [
        (b"\n", 1),
        (b"act 0\n\n", 2),
        (b"act 0\nact  0\n", 2),
        (b"act 0 \n", 1),
        (b" act 0\n", 1),
        (b"act\n", 1),
        (b"act 00\n", 1),
        (b"act 129\n", 1),
        (b"act 0\r\n", 1),
        (b"act +0\n", 1),
        (b"act 0 0\n", 1),
        (b"Act 0\n", 1),
        (b"act 0\nact 0\ntake 0 0 01\n", 3),
        (b"take 0 0 18446744073709551616\n", 1),
        (b"take 0 129 0\n", 1),
        (b"take 0 0\n", 1),
        (b"limit 0 0\nact 0\n", 2),
        (b"limit 0 0\nlimit 0 0\n", 2),
        (b"quiet 0\n", 1),
        (b"act 0\norigin 2 1 64 64 2 8 1000000 64 32 4 1024\n", 2),
        (b"origin 2 0 64 64 2 8 1000000 64 32 4 1024\n", 1),
        (b"origin 2 128 129 64 2 8 1000000 64 32 4 1024\n", 1),
        (b"origin 2 1 64 64 9 8 1000000 64 32 4 1024\n", 1),
        (b"origin 2 1 64 64 2 8 1000001 64 32 4 1024\n", 1),
        (b"origin 2 1 64 64 2 8 1000000 64 32 4 0\n", 1),
        (b"origin 2 257 64 64 2 8 1000000 64 32 4 1024\n", 1),
        (b"origin 1 1 64 64 2 8 1000000 64 32 4 1024\n", 1),
        (b"origin 2 1 64 64 2 8 1000000 64 32 4\n", 1),
        (b"at 1 1 load 0000000000100000 3 = 0000000000000000\n", 1),
        (b"at 1 1 load 000000000010000 4 = 0000000000000000\n", 1),
        (b"at 1 1 load 000000000010000A 4 = 0000000000000000\n", 1),
        (b"at 1 1 load 0000000000100000 4  0000000000000000\n", 1),
        (
            b"at 1 1 store 0000000000100000 4 0000000000000000 = 0000000000000000\n",
            1,
        ),
        (b"at 1 1 trap exit 0000000000000000\n", 1),
        (b"at 1 1 trap spent 0000000000000000\n", 1),
        (b"at 1 2 begin 0000000000100001 0.0 1.1\n", 1),
        (b"at 1 2 begin 0000000000100000 256.0 1.1\n", 1),
        (b"at 1 2 move 0000000000100000 0.65536 1.1\n", 1),
        (b"at 1 2 no other 0.0 1\n", 1),
        (
            b"at 1 2 nand 0000000000100000 4 0000000000000000 = 0000000000000000\n",
            1,
        ),
    ];
    for (text, line) in texts {
        assert_eq!(rt;
            fault_of(rt.alloc(), text),
            Some(TextFault::Grammar { line })
        );
    }
    Ok(())
}

const SETTINGS: Settings = Settings {
    nodes: 2,
    frames: 64,
    sets: 64,
    ways: 2,
    tlb: 8,
    instructions: 1_000_000,
    trigger: 64,
    sharing: 32,
    moves: 4,
    reset: 1024,
};

// An event of each kind of note, and one without.
fn events(alloc: Global) -> Result<Vec<Event>, Fail> {
    let old = Frame { home: 0, index: 0 };
    let new = Frame { home: 1, index: 1 };
    let page = VPage(0x100);
    let addr = 0x100000;
    let notes = [
        None,
        Some(Note::Access {
            access: Access::Load { addr, width: 4 },
            answer: 42,
        }),
        Some(Note::Access {
            access: Access::Store {
                addr,
                width: 2,
                value: 0xabcd,
            },
            answer: 0,
        }),
        Some(Note::Access {
            access: Access::Atomic {
                op: AtomicOp::Minu,
                addr,
                width: 8,
                value: 9,
            },
            answer: 3,
        }),
        Some(Note::Emit(7)),
        Some(Note::Trap {
            cause: Cause::Call,
            pc: 0x10000,
        }),
        Some(Note::Begin { page, old, new }),
        Some(Note::Moved { page, old, new }),
        Some(Note::Freed(old)),
        Some(Note::No {
            reason: Reason::Shared,
            frame: new,
            node: 1,
        }),
    ];
    let mut events = Vec::new(alloc);
    for (i, note) in notes.iter().enumerate() {
        let clock = i as u64;
        let choice = if i < 5 {
            Choice::Act(2)
        } else {
            Choice::Take(
                1,
                MsgId {
                    sender: 2,
                    seq: clock,
                },
            )
        };
        let stamp = Stamp { clock, actor: 2 };
        events.push(Event {
            choice,
            stamp,
            note: *note,
        })?;
    }
    Ok(events)
}

#[test]
fn a_run_is_written_and_read(rt: HostRuntime) -> Result<(), Fail> {
    let events = events(rt.alloc())?;
    let text = write_text(rt.alloc(), &SETTINGS, events.as_slice(), false)?;
    assert!(rt;
        text.as_slice().starts_with(
            b"origin 2 2 64 64 2 8 1000000 64 32 4 1024\nact 2\nact 2\nat 1 2 load 0000000000100000 4 = 000000000000002a\n"
        )
    );
    assert!(rt;
        text.as_slice()
            .ends_with(b"take 1 2 9\nat 9 2 no shared 1.1 1\nlimit 10 3\n")
    );
    let trace = read_text(rt.alloc(), text.as_slice())?;
    assert_eq!(rt; trace.head, Some(SETTINGS));
    assert_eq!(rt; trace.choices.as_slice().len(), 10);
    assert_eq!(rt; trace.notes.as_slice().len(), 9);
    assert_eq!(rt; trace.lines.as_slice().first().copied(), Some(2));
    assert_eq!(rt; trace.lines.as_slice().last().copied(), Some(19));
    Ok(())
}

// A text of 200,000 events with a note each.
#[test]
fn a_long_text_is_written_and_read(rt: HostRuntime) -> Result<(), Fail> {
    let mut events = Vec::new(rt.alloc());
    for i in 0..200_000u64 {
        let access = Access::Store {
            addr: 8 * i,
            width: 8,
            value: i,
        };
        let note = Some(Note::Access { access, answer: 0 });
        let stamp = Stamp { clock: i, actor: 1 };
        events.push(Event {
            choice: Choice::Act(1),
            stamp,
            note,
        })?;
    }
    let text = write_text(rt.alloc(), &SETTINGS, events.as_slice(), true)?;
    let trace = read_text(rt.alloc(), text.as_slice())?;
    assert_eq!(rt; trace.choices.as_slice().len(), 200_000);
    assert_eq!(rt; trace.notes.as_slice().len(), 200_000);
    Ok(())
}
