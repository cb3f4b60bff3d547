use super::*;
use og_base::VPage;
use og_elf::read_raw;
use og_runs::{MsgId, Stamp};
use std::test::Fail;

// Two nodes of two frames, whose mover is actor 2. A count of 1 above the home's is noticed.
const SETTINGS: Settings = Settings {
    nodes: 2,
    frames: 2,
    sets: 1,
    ways: 1,
    tlb: 1,
    instructions: 0,
    trigger: 1,
    sharing: 1,
    moves: 1,
    reset: 1_024,
};

const FRAME: Frame = Frame { home: 0, index: 0 };

fn block(index: u16, number: u8) -> Block {
    Block {
        frame: Frame { home: 0, index },
        number,
    }
}

// Home 0 of a program with one page of data, whose first byte is 7: it lies in frame 0.0.
fn home(alloc: Global) -> Result<Home, Fail> {
    let bytes = Vec::from_slice(alloc, &[4, 0, 0, 0, 0x73, 0, 0, 0, 7])?;
    let Ok(elf) = read_raw(alloc, bytes.as_slice()) else {
        return Err("no raw program".into());
    };
    let image = Image::make(alloc, elf, 2)?;
    let Ok(layout) = Layout::make(alloc, &image, &SETTINGS) else {
        return Err("no layout".into());
    };
    Ok(Home::make(alloc, 0, &image, &layout, &SETTINGS)?)
}

fn message(sender: ActorId, kind: Kind) -> Msg {
    Msg {
        id: MsgId { sender, seq: 0 },
        to: 0,
        stamp: Stamp {
            clock: 1,
            actor: sender,
        },
        kind,
    }
}

fn name(kind: &Kind) -> &'static str {
    match kind {
        Kind::SharedReply { .. } => "SharedReply",
        Kind::SpecReply { .. } => "SpecReply",
        Kind::ExclusiveReply { .. } => "ExclusiveReply",
        Kind::Nak { .. } => "Nak",
        Kind::PoisonError { .. } => "PoisonError",
        Kind::InterveneShared { .. } => "InterveneShared",
        Kind::WbAck { .. } => "WbAck",
        Kind::Invalidate { .. } => "Invalidate",
        Kind::PoisonReply { .. } => "PoisonReply",
        Kind::CopyDone { .. } => "CopyDone",
        Kind::FrameClean { .. } => "FrameClean",
        Kind::Hot(_) => "Hot",
        _ => "another kind",
    }
}

// The letters that a message makes, in their order; "no row" where it has none.
fn served(alloc: Global, home: &mut Home, msg: &Msg) -> Result<String, Fail> {
    let mut text = String::new(alloc);
    if !home.has_row(msg) {
        text.push_str("no row")?;
        return Ok(text);
    }
    let mut out = Outbox::empty();
    let _mover = home.mover();
    home.serve(msg, &mut out);
    for letter in out.letters() {
        write!(text, "{}", name(&letter.kind))?;
        if let Kind::Hot(
            Hot {
                frame,
                node,
                count,
                most,
            },
        ) = letter.kind
        {
            write!(
                text,
                " {}.{} {node} {count} {most}",
                frame.home, frame.index
            )?;
        }
        write!(text, " to {};", letter.to)?;
    }
    Ok(text)
}

// A notice is the last letter of its event; a refused request isn't counted; the mover's judgement lets the next one through.
#[test]
fn requests_are_served_and_counted(rt: HostRuntime) -> Result<(), Fail> {
    let mut home = home(rt.alloc())?;
    let hot = "ExclusiveReply to 1;Hot 0.0 1 1 0 to 2;";
    let table = [
        (1, Kind::Read { block: block(0, 0) }, hot),
        // A notice is open.
        (1, Kind::Read { block: block(0, 1) }, "ExclusiveReply to 1;"),
        (2, Kind::Rearm { frame: FRAME }, ""),
        (1, Kind::ReadEx { block: block(0, 1) }, hot),
        (2, Kind::Rearm { frame: FRAME }, ""),
        // The home's own count, then a request that is refused and isn't counted.
        (
            0,
            Kind::ReadEx { block: block(0, 2) },
            "ExclusiveReply to 0;",
        ),
        (
            1,
            Kind::Read { block: block(0, 2) },
            "InterveneShared to 0;SpecReply to 1;",
        ),
        (1, Kind::Read { block: block(0, 2) }, "Nak to 1;"),
        (1, Kind::Upgrade { block: block(0, 3) }, "Nak to 1;"),
        (
            1,
            Kind::Read { block: block(0, 3) },
            "ExclusiveReply to 1;Hot 0.0 1 2 0 to 2;",
        ),
        // The other frame has counts of its own.
        (
            1,
            Kind::Read { block: block(1, 0) },
            "ExclusiveReply to 1;Hot 0.1 1 1 0 to 2;",
        ),
        // Poison isn't counted.
        (
            2,
            Kind::PoisonRead { block: block(1, 1) },
            "PoisonReply to 2;",
        ),
        (1, Kind::Read { block: block(1, 1) }, "PoisonError to 1;"),
    ];
    for (sender, kind, expected) in table {
        let text = served(rt.alloc(), &mut home, &message(sender, kind))?;
        assert_eq!(rt; text.as_str(), expected);
    }
    Ok(())
}

// A frame is cleaned once all its blocks are poisoned; then its blocks are unowned and its counters begin anew.
#[test]
fn a_frame_is_cleaned(rt: HostRuntime) -> Result<(), Fail> {
    let mut home = home(rt.alloc())?;
    let read = message(
        1,
        Kind::Read {
            block: block(0, 31),
        },
    );
    let clean = message(2, Kind::CleanFrame { frame: FRAME });
    assert_eq!(rt;
        served(rt.alloc(), &mut home, &read)?.as_str(),
        "ExclusiveReply to 1;Hot 0.0 1 1 0 to 2;"
    );
    assert_eq!(rt;
        served(
            rt.alloc(),
            &mut home,
            &message(
                1,
                Kind::WriteBack {
                    block: block(0, 31),
                    line: Line::zero()
                }
            )
        )?
        .as_str(),
        "WbAck to 1;"
    );
    for number in 0..32 {
        assert!(rt; !home.has_row(&clean));
        let poison = message(
            2,
            Kind::PoisonRead {
                block: block(0, number),
            },
        );
        assert_eq!(rt;
            served(rt.alloc(), &mut home, &poison)?.as_str(),
            "PoisonReply to 2;"
        );
    }
    assert_eq!(rt;
        served(rt.alloc(), &mut home, &clean)?.as_str(),
        "FrameClean to 2;"
    );
    assert_eq!(rt; served(rt.alloc(), &mut home, &clean)?.as_str(), "no row");
    assert_eq!(rt;
        served(rt.alloc(), &mut home, &read)?.as_str(),
        "ExclusiveReply to 1;Hot 0.0 1 1 0 to 2;"
    );
    Ok(())
}

// Messages of other homes, frames and blocks, from the wrong sender, and of kinds that no home serves.
#[test]
fn other_messages_have_no_row(rt: HostRuntime) -> Result<(), Fail> {
    let mut home = home(rt.alloc())?;
    let other = Frame { home: 1, index: 0 };
    let table = [
        (
            1,
            Kind::Read {
                block: block(0, 32),
            },
        ),
        (1, Kind::Read { block: block(2, 0) }),
        (
            1,
            Kind::Read {
                block: Block {
                    frame: other,
                    number: 0,
                },
            },
        ),
        (2, Kind::Read { block: block(0, 0) }),
        (3, Kind::Read { block: block(0, 0) }),
        (1, Kind::PoisonRead { block: block(0, 0) }),
        (
            1,
            Kind::WriteBack {
                block: block(0, 0),
                line: Line::zero(),
            },
        ),
        (1, Kind::Nak { block: block(0, 0) }),
        (2, Kind::CleanFrame { frame: FRAME }),
        (1, Kind::Rearm { frame: FRAME }),
        (2, Kind::Rearm { frame: other }),
        (
            2,
            Kind::Rearm {
                frame: Frame { home: 0, index: 2 },
            },
        ),
        (1, Kind::Walk { page: VPage(256) }),
        (1, Kind::Dropped { frame: FRAME }),
    ];
    for (sender, kind) in table {
        assert_eq!(rt;
            served(rt.alloc(), &mut home, &message(sender, kind))?.as_str(),
            "no row"
        );
    }
    assert!(rt; home.has_row(&message(2, Kind::Rearm { frame: FRAME })));
    Ok(())
}

// The lines of the placed page have the program's bytes and no stores; entries are unowned.
#[test]
fn a_home_at_the_start(rt: HostRuntime) -> Result<(), Fail> {
    let mut home = home(rt.alloc())?;
    let copies = [(block(0, 0), 7), (block(0, 1), 0), (block(1, 0), 0)];
    for (block, first) in copies {
        let reply = message(
            2,
            Kind::CopyIn {
                block,
                line: Line::zero(),
            },
        );
        assert!(rt; home.has_row(&reply));
        let mut out = Outbox::empty();
        let _mover = home.mover();
        let read = message(0, Kind::Read { block });
        if home.has_row(&read) {
            home.serve(&read, &mut out);
        }
        let line = out
            .letters()
            .first()
            .and_then(|letter| letter.kind.line())
            .ok_or("no line")?;
        assert_eq!(rt; (line.load(0, 1), line.stores), (first, 0));
    }
    Ok(())
}
