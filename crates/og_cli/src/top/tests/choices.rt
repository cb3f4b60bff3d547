// Replays of choices from files, and storms.

use super::*;

// Two nodes that load the same word and trap.
const SHARE: &[u8] = b"\x0c\x00\x00\x00\xb7\x05\x10\x00\x03\xa6\x05\x00\x73\x00\x00\x00";

// A run of theirs, one node after the other: the second meets a clean owner.
const ONE_AFTER_ANOTHER: &[u8] =
    b"act 0\nact 0\ntake 2 0 0\ntake 0 2 0\nact 0\ntake 0 0 1\ntake 0 0 2\n\
    act 1\nact 1\ntake 2 1 0\ntake 1 2 1\nact 1\ntake 0 1 1\ntake 0 0 3\ntake 1 0 4\ntake 1 0 5\n\
    take 0 0 6\nact 0\nact 1\n";

// The same in the order of its stamps.
const BY_STAMPS: &[u8] =
    b"origin 2 2 64 64 2 8 1000000 64 32 4 1024\nact 0\nact 1\nact 0\nact 1\ntake 2 0 0\n\
    take 0 2 0\ntake 2 1 0\nact 0\ntake 1 2 1\ntake 0 0 1\nact 1\ntake 0 0 2\n\
    at 7 0 load 0000000000100000 4 = 0000000000000000\ntake 0 1 1\ntake 0 0 3\ntake 1 0 4\n\
    take 0 0 6\ntake 1 0 5\nat 10 1 load 0000000000100000 4 = 0000000000000000\nact 0\n\
    at 11 0 trap call 0000000000010008\nact 1\nat 11 1 trap call 0000000000010008\nquiet 19 2\n";

// The answer to these words, where `store.raw` holds a program and `choices` these choices.
fn answer_to_choices(
    alloc: Global,
    line: &str,
    program: &[u8],
    choices: &[u8],
) -> Result<Answer, Fail> {
    let words = words_of(alloc, line)?;
    let mut shelf = shelf_with(alloc, program, Vec::new(alloc))?;
    shelf.put(String::from_str(alloc, "choices")?, choices.to_vec(alloc)?)?;
    Ok(answer_with(alloc, &words, shelf, whole_sink(alloc), whole_sink(alloc)))
}

/// A replay prints the run of the choices in the order of its stamps; of that text it prints the text again.
#[test]
fn a_replay_prints_its_run(rt: HostRuntime) -> Result<(), Fail> {
    let table: &[(&str, &[u8], &[u8], u8, &[u8])] = &[
        (
            "replay store.raw choices --raw --nodes 2",
            SHARE,
            ONE_AFTER_ANOTHER,
            0,
            BY_STAMPS,
        ),
        (
            "replay store.raw choices --raw --nodes 2",
            SHARE,
            BY_STAMPS,
            0,
            BY_STAMPS,
        ),
        (
            "replay store.raw choices --raw",
            SHARE,
            BY_STAMPS,
            0,
            BY_STAMPS,
        ),
        ("replay store.raw choices --raw", STORE, TEXT, 0, TEXT),
        (
            "replay --raw store.raw choices --nodes=1",
            STORE,
            b"",
            3,
            b"origin 2 1 64 64 2 8 1000000 64 32 4 1024\nlimit 0 0\n",
        ),
        (
            "replay store.raw choices --raw --ways 1",
            STORE,
            b"act 0\nat 1 0 trap call 0000000000010000\nact 0",
            3,
            b"origin 2 1 64 64 1 8 1000000 64 32 4 1024\nact 0\nact 0\nlimit 2 0\n",
        ),
    ];
    for (line, program, choices, status, text) in table {
        let answer = answer_to_choices(rt.alloc(), line, program, choices)?;
        assert_eq!(rt; answer.status, *status, "{line}");
        assert_eq!(rt; answer.out.held(), *text, "{line}");
        assert_eq!(rt; answer.err.held(), b"".as_slice(), "{line}");
    }
    Ok(())
}

/// Choices that are refused are told by their line and why, and nothing is printed.
#[test]
fn choices_are_refused_by_their_line(rt: HostRuntime) -> Result<(), Fail> {
    let table: &[(&str, &[u8], &[u8])] = &[
        (
            "",
            b"act 0\nact 0\ntake 0 0 9\n",
            b"origin: choices line 3 NoMessage\n",
        ),
        ("", b"act 0\nact  0\n", b"origin: choices line 2 Grammar\n"),
        ("", b"act 128\n", b"origin: choices line 1 NoActor\n"),
        ("", b"act 129\n", b"origin: choices line 1 Grammar\n"),
        ("", b"act 1\n", b"origin: choices line 1 NothingToDo\n"),
        (
            "",
            b"act 0\nact 0\nact 0\nact 0\n",
            b"origin: choices line 4 Outstanding\n",
        ),
        (
            " --instructions 0",
            b"act 0\nat 1 0 spent\nact 0\n",
            b"origin: choices line 3 Stopped\n",
        ),
        (
            "",
            b"take 0 0 18446744073709551615\n",
            b"origin: choices line 1 NoMessage\n",
        ),
        (
            "",
            b"take 0 0 18446744073709551616\n",
            b"origin: choices line 1 Grammar\n",
        ),
        (
            "",
            b"act 0\nlimit 0 0\nact 0\n",
            b"origin: choices line 3 Grammar\n",
        ),
        ("", b"act 7\nact 01\n", b"origin: choices line 2 Grammar\n"),
        (
            " --nodes 2",
            b"origin 2 1 64 64 2 8 1000000 64 32 4 1024\nact 0\n",
            b"origin: choices line 1 Settings\n",
        ),
    ];
    for (options, choices, text) in table {
        let alloc = rt.alloc();
        let line = format!(in alloc; "replay store.raw choices --raw{options}")?;
        let answer = answer_to_choices(alloc, line.as_str(), STORE, choices)?;
        assert_eq!(rt; answer.status, 6, "{choices:?}");
        assert_eq!(rt; answer.out.held(), b"".as_slice(), "{choices:?}");
        assert_eq!(rt; answer.err.held(), *text, "{choices:?}");
    }
    Ok(())
}

/// A choices file of too many lines is refused before it is looked at.
#[test]
fn choices_may_be_too_long(rt: HostRuntime) -> Result<(), Fail> {
    let alloc = rt.alloc();
    let words = words_of(alloc, "replay store.raw choices --raw")?;
    let mut shelf = shelf_with(alloc, STORE, Vec::new(alloc))?;
    let feeds = vec![in alloc; b'\n'; 16_777_217]?;
    shelf.put(String::from_str(alloc, "choices")?, feeds)?;
    let answer = answer_with(alloc, &words, shelf, whole_sink(alloc), whole_sink(alloc));
    assert_eq!(rt; answer.status, 6);
    assert_eq!(rt; answer.out.held(), b"".as_slice());
    assert_eq!(rt; answer.err.held(), b"origin: choices TooLong\n".as_slice());
    Ok(())
}

/// Whichever of its two files can't be read, a replay names it.
#[test]
fn either_file_may_fail(rt: HostRuntime) -> Result<(), Fail> {
    let alloc = rt.alloc();
    let table: &[(u64, &[u8])] = &[
        (1, b"origin: cannot read store.raw\n"),
        (2, b"origin: cannot read choices\n"),
    ];
    for (failing, text) in table {
        let words = words_of(alloc, "replay store.raw choices --raw")?;
        let mut shelf = shelf_with(alloc, STORE, vec![in alloc; *failing]?)?;
        shelf.put(String::from_str(alloc, "choices")?, TEXT.to_vec(alloc)?)?;
        let answer = answer_with(alloc, &words, shelf, whole_sink(alloc), whole_sink(alloc));
        assert_eq!(rt; answer.status, 1, "{failing}");
        assert_eq!(rt; answer.out.held(), b"".as_slice(), "{failing}");
        assert_eq!(rt; answer.err.held(), *text, "{failing}");
    }
    Ok(())
}

/// A storm is told in one line. Where its run ends quiet, each loop of each hart has added one.
#[test]
fn a_storm_prints_its_line(rt: HostRuntime) -> Result<(), Fail> {
    let table: &[(&str, u8, &[u8])] = &[
        (
            "storm 7 --loops 1",
            0,
            b"storm 1 1 sum 1 moves 0 events 27\n",
        ),
        ("storm 7 --loops 1 --events 5", 3, b"storm 1 1 limit 5\n"),
        ("storm --events=0 7", 3, b"storm 1 200 limit 0\n"),
        (
            "storm 7 --nodes 4 --loops 50",
            0,
            b"storm 4 50 sum 200 moves 0 events 2856\n",
        ),
    ];
    for (line, status, text) in table {
        let answer = answer_to(rt.alloc(), line, b"")?;
        assert_eq!(rt; answer.status, *status, "{line}");
        assert_eq!(rt; answer.out.held(), *text, "{line}");
        assert_eq!(rt; answer.err.held(), b"".as_slice(), "{line}");
    }
    Ok(())
}
