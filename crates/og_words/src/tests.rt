use super::*;
use std::test::Fail;

// The answer to the words of this line, with one blank between each two.
fn answer_to(alloc: Global, line: &str) -> Result<Result<Job, WordsFault>, Fail> {
    let mut words = Vec::new(alloc);
    for word in line.split(' ') {
        words.push(String::from_str(alloc, word)?)?;
    }
    Ok(read_words(alloc, &words))
}

/// Words of each kind that are refused.
#[test]
fn words_are_refused(rt: HostRuntime) -> Result<(), Fail> {
    let table = [
        "",
        "simulate",
        "simulated p1",
        "Simulate p1",
        "p1 simulate",
        "--raw simulate p1",
        "simulate p1 p2",
        "simulate p1 --nodes 0",
        "simulate p1 --nodes 01",
        "simulate p1 --nodes +1",
        "simulate p1 --nodes 129",
        "simulate p1 --nodes 128 --frames 129",
        "simulate p1 --frames 1",
        "simulate p1 --frames 1025",
        "simulate p1 --ways 9",
        "simulate p1 --tlb 65",
        "simulate p1 --sets 0",
        "simulate p1 --instructions 1000001",
        "simulate p1 --events 4000001",
        "simulate p1 --draw 18446744073709551616",
        "simulate p1 --draw",
        "simulate p1 --draw --raw",
        "simulate p1 --draw -1",
        "simulate p1 --draw=",
        "simulate p1 --raw --raw",
        "simulate p1 --raw=yes",
        "simulate p1 --nodes=1 --nodes 1",
        "simulate p1 --loops 3",
        "simulate p1 --rounds 3",
        "simulate p1 --unknown 3",
        "simulate p1 -r",
        "simulate -",
        "simulate -- p1",
        "simulate p1 --",
        "replay p1",
        "replay p1 p2 p3",
        "replay p1 p2 --draw 1",
        "replay p1 p2 --events 1",
        "storm",
        "storm 01",
        "storm seven",
        "storm 18446744073709551616",
        "storm 7 --raw",
        "storm 7 --loops 0",
        "storm 7 --loops 2048",
        "run p1 --turns 0",
        "run p1 --events 1",
        "run p1 --rounds 10001",
        "run p1 --rounds 10000 --turns 1000",
        "run p1 --rounds 485 --nodes 128",
        "assemble",
        "assemble p1 p2",
        "assemble p1 --raw",
        "assemble p1 --nodes 1",
        "assemble --reset=1 p1",
        "assemble p1 --draw 1",
        "assemble -p1",
        "assemble --",
        "disassemble",
        "disassemble p1 p2",
        "disassemble p1 --raw",
        "disassemble p1 --frames 64",
        "disassemble p1 --turns=1",
        "Assemble p1",
        "disassembles p1",
    ];
    for line in table {
        let refused = matches!(answer_to(rt.alloc(), line)?, Err(WordsFault::Words));
        assert!(rt; refused, "{line}");
    }
    Ok(())
}

/// Simulations: options in any place, in one word or in two, and what isn't given.
#[test]
fn simulations_are_read(rt: HostRuntime) -> Result<(), Fail> {
    let table = [
        ("simulate p1", false, 1, 64, 1, 1_000_000),
        ("simulate --raw --nodes=1 p1", true, 1, 64, 1, 1_000_000),
        (
            "simulate --nodes 128 p1 --frames=128",
            false,
            128,
            128,
            1,
            1_000_000,
        ),
        (
            "simulate p1 --draw 18446744073709551615 --events 0",
            false,
            1,
            64,
            u64::MAX,
            0,
        ),
        (
            "simulate --frames 1024 --nodes 16 --draw=0 p1 --raw",
            true,
            16,
            1024,
            0,
            1_000_000,
        ),
    ];
    for (line, raw_wanted, nodes, frames, draw_wanted, events_wanted) in table {
        let answer = answer_to(rt.alloc(), line)?;
        let Ok(
            Job::Simulate {
                image,
                raw,
                settings,
                draw,
                events,
            },
        ) = answer
        else {
            return Err(Fail::new("another job"));
        };
        assert_eq!(rt; image.as_str(), "p1", "{line}");
        assert_eq!(rt; raw, raw_wanted, "{line}");
        assert_eq!(rt;
            (settings.nodes, settings.frames),
            (nodes, frames),
            "{line}"
        );
        assert_eq!(rt; (draw, events), (draw_wanted, events_wanted), "{line}");
    }
    Ok(())
}

/// Runs in threads: the usual rounds are fewer where there are many nodes or turns.
#[test]
fn rounds_have_their_default(rt: HostRuntime) -> Result<(), Fail> {
    let table = [
        ("run p1", 2_000, 64),
        ("run p1 --nodes 128", 484, 64),
        ("run p1 --turns 1000", 2_000, 1_000),
        ("run p1 --rounds 0 --turns 1", 0, 1),
        ("run p1 --rounds=484 --nodes=128", 484, 64),
    ];
    for (line, rounds_wanted, turns_wanted) in table {
        let answer = answer_to(rt.alloc(), line)?;
        let Ok(Job::Run { rounds, turns, .. }) = answer else {
            return Err(Fail::new("another job"));
        };
        assert_eq!(rt; (rounds, turns), (rounds_wanted, turns_wanted), "{line}");
    }
    Ok(())
}

/// A replay tells which settings its words give; a storm has its number.
#[test]
fn replays_and_storms_are_read(rt: HostRuntime) -> Result<(), Fail> {
    let answer = answer_to(rt.alloc(), "replay p1 --sets 64 text --reset=7")?;
    let Ok(
        Job::Replay {
            image,
            choices,
            settings,
            given,
            ..
        },
    ) = answer
    else {
        return Err(Fail::new("another job"));
    };
    assert_eq!(rt; (image.as_str(), choices.as_str()), ("p1", "text"));
    assert_eq!(rt;
        (given.sets, given.reset, given.nodes),
        (Some(64), Some(7), None)
    );
    assert_eq!(rt; (settings.sets, settings.reset, settings.nodes), (64, 7, 1));
    let answer = answer_to(rt.alloc(), "storm 18446744073709551615 --loops 1")?;
    let Ok(
        Job::Storm {
            number,
            loops,
            events,
            ..
        },
    ) = answer
    else {
        return Err(Fail::new("another job"));
    };
    assert_eq!(rt; (number, loops, events), (u64::MAX, 1, 1_000_000));
    Ok(())
}

/// The assembler and the printer have a file and nothing else.
#[test]
fn files_of_the_tools_are_read(rt: HostRuntime) -> Result<(), Fail> {
    let Ok(Job::Assemble { source }) = answer_to(rt.alloc(), "assemble a-b.asm")? else {
        return Err(Fail::new("another job"));
    };
    assert_eq!(rt; source.as_str(), "a-b.asm");
    let Ok(Job::Disassemble { image }) = answer_to(rt.alloc(), "disassemble p=1")? else {
        return Err(Fail::new("another job"));
    };
    assert_eq!(rt; image.as_str(), "p=1");
    Ok(())
}
