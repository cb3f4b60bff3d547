//! Runs from files in memory to their texts.

use crate::{RunFault, print_storm, replay_file, simulate_file};
use og_base::{NotEnabled, Settings};
use og_io::memory::{MemoryShelf, MemorySink};
use og_load::ChoiceFault;
use og_words::Given;
use std::alloc::{AllocError, Global};
use std::test::Fail;

// A program that stores a word, loads it and exits.
const STORE: &[u8] = b"\x1c\x00\x00\x00\xb7\x05\x10\x00\x13\x06\xa0\x02\x23\xa0\xc5\x00\
    \x83\xa6\x05\x00\x93\x08\xd0\x05\x13\x05\x00\x00\x73\x00\x00\x00";

// What its run on one node prints: each choice is the only one.
const TEXT: &[u8] =
    b"origin 2 1 64 64 2 8 1000000 64 32 4 1024\nact 0\nact 0\nact 0\ntake 1 0 0\ntake 0 1 0\n\
    act 0\ntake 0 0 1\ntake 0 0 2\nat 8 0 store 0000000000100000 4 000000000000002a\nact 0\n\
    at 9 0 load 0000000000100000 4 = 000000000000002a\nact 0\nact 0\nact 0\n\
    at 12 0 exit 0000000000000000\nquiet 12 2\n";

const SETTINGS: Settings = Settings {
    nodes: 1,
    frames: 64,
    sets: 64,
    ways: 2,
    tlb: 8,
    instructions: 1_000_000,
    trigger: 64,
    sharing: 32,
    moves: 4,
    reset: 1024,
};

// The words give three nodes.
const THREE: Given = Given {
    nodes: Some(3),
    frames: None,
    sets: None,
    ways: None,
    tlb: None,
    instructions: None,
    trigger: None,
    sharing: None,
    moves: None,
    reset: None,
};

// The words give no setting.
const NOTHING: Given = Given {
    nodes: None,
    frames: None,
    sets: None,
    ways: None,
    tlb: None,
    instructions: None,
    trigger: None,
    sharing: None,
    moves: None,
    reset: None,
};

// A shelf with the program and these choices.
fn shelf_with(alloc: Global, choices: &[u8]) -> Result<MemoryShelf, AllocError> {
    let mut shelf = MemoryShelf::make(alloc, Vec::new(alloc));
    shelf.put(String::from_str(alloc, "program")?, STORE.to_vec(alloc)?)?;
    shelf.put(String::from_str(alloc, "choices")?, choices.to_vec(alloc)?)?;
    Ok(shelf)
}

#[test]
fn a_run_is_printed_and_replayed(rt: HostRuntime) -> Result<(), Fail> {
    let alloc = rt.alloc();
    let mut shelf = shelf_with(alloc, TEXT)?;
    let mut out = MemorySink::make(alloc, 100, Vec::new(alloc));
    let made = simulate_file(
        alloc, "program", true, &SETTINGS, 1, 1000, &mut shelf, &mut out,
    );
    assert_eq!(rt; made, Ok(true));
    assert_eq!(rt; out.held(), TEXT);
    let mut again = MemorySink::make(alloc, 100, Vec::new(alloc));
    let made = replay_file(
        alloc, "program", "choices", true, &SETTINGS, &NOTHING, &mut shelf, &mut again,
    );
    assert_eq!(rt; made, Ok(true));
    assert_eq!(rt; again.held(), TEXT);
    Ok(())
}

#[test]
fn choices_are_refused(rt: HostRuntime) -> Result<(), Fail> {
    let alloc = rt.alloc();
    let table: [(&[u8], &Given, ChoiceFault); 6] = [
        (
            b"act 0\nact 2\n",
            &NOTHING,
            ChoiceFault::Refused {
                line: 2,
                cause: NotEnabled::NoActor,
            },
        ),
        (
            b"act 1\n",
            &NOTHING,
            ChoiceFault::Refused {
                line: 1,
                cause: NotEnabled::NothingToDo,
            },
        ),
        (
            b"at 1 0 spent\ntake 0 0 0\n",
            &NOTHING,
            ChoiceFault::Refused {
                line: 2,
                cause: NotEnabled::NoMessage,
            },
        ),
        (
            b"act 0\nact 0\nact 0\nact 0\n",
            &NOTHING,
            ChoiceFault::Refused {
                line: 4,
                cause: NotEnabled::Outstanding,
            },
        ),
        (
            b"act 0\nact 01\n",
            &NOTHING,
            ChoiceFault::Grammar { line: 2 },
        ),
        (
            b"origin 2 2 64 64 2 8 1000000 64 32 4 1024\n",
            &THREE,
            ChoiceFault::Settings,
        ),
    ];
    for (choices, given, fault) in table {
        let mut shelf = shelf_with(alloc, choices)?;
        let mut out = MemorySink::make(alloc, 100, Vec::new(alloc));
        let made = replay_file(
            alloc, "program", "choices", true, &SETTINGS, given, &mut shelf, &mut out,
        );
        assert_eq!(rt; made, Err(RunFault::Choices(fault)));
        assert_eq!(rt; out.held(), b"".as_slice());
    }
    Ok(())
}

#[test]
fn a_head_gives_the_settings(rt: HostRuntime) -> Result<(), Fail> {
    let alloc = rt.alloc();
    let head = b"origin 2 2 64 64 2 8 1000000 64 32 4 1024\n";
    let mut shelf = shelf_with(alloc, head.as_slice())?;
    let mut out = MemorySink::make(alloc, 100, Vec::new(alloc));
    let made = replay_file(
        alloc, "program", "choices", true, &SETTINGS, &NOTHING, &mut shelf, &mut out,
    );
    assert_eq!(rt; made, Ok(false));
    assert_eq!(rt;
        out.held(),
        b"origin 2 2 64 64 2 8 1000000 64 32 4 1024\nlimit 0 0\n".as_slice()
    );
    Ok(())
}

#[test]
fn a_storm_is_told_in_one_line(rt: HostRuntime) -> Result<(), Fail> {
    let alloc = rt.alloc();
    let table: [(u32, bool, &[u8]); 2] = [
        (1_000_000, true, b"storm 1 1 sum 1 moves 0 events 27\n"),
        (5, false, b"storm 1 1 limit 5\n"),
    ];
    for (most, quiet, line) in table {
        let mut out = MemorySink::make(alloc, 100, Vec::new(alloc));
        let made = print_storm(alloc, 7, &SETTINGS, 1, most, &mut out);
        assert_eq!(rt; made, Ok(quiet));
        assert_eq!(rt; out.held(), line);
    }
    Ok(())
}
