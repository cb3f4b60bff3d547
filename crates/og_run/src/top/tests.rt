use super::*;
use og_actors::NoGate;
use og_io::memory::{MemoryShelf, MemorySink};
use std::sync::atomic::{AtomicBool, AtomicU64, Ordering};
use std::test::Fail;

// A program of seven instructions that stores a word, loads it and exits.
const STORE: &[u8] = b"\x1c\x00\x00\x00\xb7\x05\x10\x00\x13\x06\xa0\x02\x23\xa0\xc5\x00\
    \x83\xa6\x05\x00\x93\x08\xd0\x05\x13\x05\x00\x00\x73\x00\x00\x00";

// A jump to itself.
const LOOP: &[u8] = b"\x04\x00\x00\x00\x6f\x00\x00\x00";

// The head of a text of one node.
const HEAD: &str = "origin 2 1 64 64 2 8 1000000 64 32 4 1024\n";

// How a command ended, and what it wrote.
#[derive(Drop)]
struct Answer {
    status: u8,
    out: MemorySink,
    err: MemorySink,
}

// The words of this line, with one blank between each two.
fn words_of(alloc: Global, line: &str) -> Result<Vec<String>, Fail> {
    let mut words = Vec::new(alloc);
    for word in line.split(' ') {
        words.push(String::from_str(alloc, word)?)?;
    }
    Ok(words)
}

// The answer to the words of this line, where `program` holds these bytes and `choices` these choices.
fn answer_with<R: Threads + Wait + Sync, G: Gate + Sync>(
    rt: &R,
    alloc: Global,
    line: &str,
    program: &[u8],
    choices: &[u8],
    gate: &G,
) -> Result<Answer, Fail> {
    let words = words_of(alloc, line)?;
    let mut shelf = MemoryShelf::make(alloc, Vec::new(alloc));
    shelf.put(String::from_str(alloc, "program")?, program.to_vec(alloc)?)?;
    shelf.put(String::from_str(alloc, "choices")?, choices.to_vec(alloc)?)?;
    let mut out = MemorySink::make(alloc, 65_536, Vec::new(alloc));
    let mut err = MemorySink::make(alloc, 65_536, Vec::new(alloc));
    let exit = origin(rt, alloc, &words, &mut shelf, &mut out, &mut err, gate);
    Ok(Answer {
        status: exit.status(),
        out,
        err,
    })
}

/// A run begins with its rounds. Where there are none, or too few, it has as many events as turns, the later ones drawn.
#[test]
fn a_run_has_as_many_events_as_turns(rt: HostRuntime) -> Result<(), Fail> {
    let table: &[(&str, u8, &str)] = &[
        ("run program --raw --rounds 0", 3, "limit 0 0\n"),
        (
            "run program --raw --rounds 1 --turns 1",
            3,
            "act 0\nact 0\nlimit 2 0\n",
        ),
        (
            "run program --raw --rounds 4 --turns 3",
            0,
            "act 0\nact 0\nact 0\ntake 1 0 0\ntake 0 1 0\nact 0\ntake 0 0 1\ntake 0 0 2\n\
            at 8 0 store 0000000000100000 4 000000000000002a\nact 0\n\
            at 9 0 load 0000000000100000 4 = 000000000000002a\nact 0\nact 0\nact 0\n\
            at 12 0 exit 0000000000000000\nquiet 12 2\n",
        ),
    ];
    for (line, status, text) in table {
        let answer = answer_with(&rt, rt.alloc(), line, STORE, b"", &NoGate)?;
        let whole = format!(in rt.alloc(); "{HEAD}{text}")?;
        assert_eq!(rt; answer.status, *status, "{line}");
        assert_eq!(rt; answer.out.held(), whole.as_bytes(), "{line}");
        assert_eq!(rt; answer.err.held(), b"".as_slice(), "{line}");
    }
    Ok(())
}

/// In one round of one turn each of sixteen nodes acts once, whatever the schedule; one more event is drawn, by the first word of
/// the number 1: it is 866,585,574, and of the sixteen choices that are enabled names number 6.
#[test]
fn each_node_has_its_turn(rt: HostRuntime) -> Result<(), Fail> {
    let line = "run program --raw --nodes 16 --rounds 1 --turns 1";
    let answer = answer_with(&rt, rt.alloc(), line, LOOP, b"", &NoGate)?;
    assert_eq!(rt; answer.status, 3);
    assert_eq!(rt;
        answer.out.held(),
        b"origin 2 16 64 64 2 8 1000000 64 32 4 1024\nact 0\nact 1\nact 2\nact 3\nact 4\nact 5\nact 6\nact 7\n\
            act 8\nact 9\nact 10\nact 11\nact 12\nact 13\nact 14\nact 15\nact 6\nlimit 17 0\n"
            .as_slice()
    );
    Ok(())
}

/// A run that begins in threads is replayed to its own text, whatever the threads did.
#[test]
fn a_run_is_replayed(rt: HostRuntime) -> Result<(), Fail> {
    let line = "run program --raw --nodes 5 --rounds 20 --turns 3";
    for _time in 0..3u8 {
        let begun = answer_with(&rt, rt.alloc(), line, STORE, b"", &NoGate)?;
        let again = answer_with(
            &rt,
            rt.alloc(),
            "replay program choices --raw",
            STORE,
            begun.out.held(),
            &NoGate,
        )?;
        assert_eq!(rt; again.status, begun.status);
        assert_eq!(rt; again.out.held(), begun.out.held());
        assert_eq!(rt; begun.err.held(), b"".as_slice());
    }
    Ok(())
}

/// Other commands are done as without threads; a run that can't be begun says why in one line.
#[test]
fn other_answers_are_one_line(rt: HostRuntime) -> Result<(), Fail> {
    let table: &[(&str, u8, &[u8])] = &[
        (
            "run program --raw --rounds 10000 --turns 1000",
            2,
            b"origin: words\n",
        ),
        ("run program", 4, b"origin: image NotElf at 0\n"),
        ("run missing --raw", 1, b"origin: cannot read missing\n"),
        ("run choices --raw", 4, b"origin: image RawOut\n"),
        ("run program --raw --nodes 2 --frames 2 --rounds 0", 3, b""),
        (
            "replay program missing --raw",
            1,
            b"origin: cannot read missing\n",
        ),
        (
            "simulate missing --raw",
            1,
            b"origin: cannot read missing\n",
        ),
        ("walk program", 2, b"origin: words\n"),
    ];
    for (line, status, text) in table {
        let answer = answer_with(&rt, rt.alloc(), line, STORE, b"", &NoGate)?;
        assert_eq!(rt; answer.status, *status, "{line}");
        assert_eq!(rt; answer.err.held(), *text, "{line}");
    }
    Ok(())
}

/// At its first turn each of two actors raises its flag, and looks for the other's.
#[derive(Drop)]
struct Meeting {
    here: [AtomicBool; 2],
    seen: AtomicU64,
}

impl Gate for Meeting {
    fn turn(&self, actor: u8, turn: u64) {
        if turn != 0 {
            return;
        }
        let own = usize::from(actor) % 2;
        self.here[own].store(true, Ordering::SeqCst);
        for _ in 0..100_000_000u64 {
            if self.here[1 - own].load(Ordering::SeqCst) {
                self.seen.fetch_add(1, Ordering::SeqCst);
                return;
            }
        }
    }
}

// One thread never passes this gate: the node and the mover have to be at their first turn at once.
#[test]
fn node_and_mover_meet(rt: HostRuntime) -> Result<(), Fail> {
    let gate = Meeting {
        here: [AtomicBool::new(false), AtomicBool::new(false)],
        seen: AtomicU64::new(0),
    };
    let answer = answer_with(
        &rt,
        rt.alloc(),
        "run program --raw --rounds 1 --turns 1",
        STORE,
        b"",
        &gate,
    )?;
    assert_eq!(rt; (gate.seen.load(Ordering::SeqCst), answer.status), (2, 3));
    Ok(())
}
