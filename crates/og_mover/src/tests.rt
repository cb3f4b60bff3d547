//! The mover of two nodes of two frames: each row of its table.

ghost use Rattle.std.specs.Prelude.{◌≡◌};

use crate::Mover;
use og_base::{Block, Frame, Hot, MsgId, NodeId, Reason, Settings, Stamp, VPage};
use og_elf::read_raw;
use og_image::{Image, Layout};
use og_line::Line;
use og_msg::{Kind, Letter, Msg, Note, Outbox};
use std::alloc::Global;
use std::process::Abort;
use std::test::Fail;

const SETTINGS: Settings = Settings {
    nodes: 2,
    frames: 2,
    sets: 64,
    ways: 2,
    tlb: 8,
    instructions: 1_000_000,
    trigger: 1,
    sharing: 32,
    moves: 4,
    reset: 1024,
};

const DATA: VPage = VPage(0x100);

fn at(home: u8, index: u16) -> Frame {
    Frame { home, index }
}

// The mover of an environment call with so many pages of data, of which there is at least one.
fn mover(alloc: Global, pages: usize) -> Result<Mover, Fail> {
    let mut file = Vec::from_slice(alloc, &[4, 0, 0, 0, 0x73, 0, 0, 0])?;
    for _ in 1..pages {
        for _ in 0..4096 {
            file.push(1)?;
        }
        file.push(1)?;
    }
    let elf = read_raw(alloc, file.as_slice())?;
    let image = Image::make(alloc, elf, 2)?;
    let layout = Layout::make(alloc, &image, &SETTINGS)?;
    og_pager::laws::layout_suits();
    Ok(Mover::make(alloc, &layout, &SETTINGS)?)
}

fn message(sender: NodeId, kind: Kind) -> Msg {
    Msg {
        id: MsgId { sender, seq: 0 },
        to: 2,
        stamp: Stamp {
            clock: 1,
            actor: sender,
        },
        kind,
    }
}

// Serves a message, and gives the note.
fn take(
    rt: &impl Abort,
    mover: &mut Mover,
    out: &mut Outbox,
    sender: NodeId,
    kind: Kind,
) -> Option<Note> {
    let msg = message(sender, kind);
    out.clear();
    assert!(rt; mover.has_row(&msg));
    mover.take(&msg, out)
}

// Makes the mover's own next step, and gives the note.
fn act(rt: &impl Abort, mover: &mut Mover, out: &mut Outbox) -> Option<Note> {
    out.clear();
    assert!(rt; mover.can_act());
    mover.act(out)
}

// Whether just this letter was sent.
fn sent(out: &Outbox, to: u8, kind: Kind) -> bool {
    let letters = out.letters();
    letters.len() == 1 && letters[0].to == to && letters[0].kind == kind
}

fn silent(out: &Outbox) -> bool {
    out.letters().is_empty()
}

fn hot(frame: Frame, node: NodeId, most: u32) -> Kind {
    Kind::Hot(Hot {
        frame,
        node,
        count: 1,
        most,
    })
}

fn block(frame: Frame, number: u8) -> Block {
    Block { frame, number }
}

fn place(rt: &impl Abort, mover: &Mover, page: VPage, number: u8) -> Option<Frame> {
    assert!(rt; number < 32);
    mover.place(page, number)
}

// Collects a block of a page and copies it: with acknowledgements before and after the reply, and once refused before.
fn copy(rt: &impl Abort, mover: &mut Mover, out: &mut Outbox, old: Frame, new: Frame, number: u8) {
    let line = Line::zero();
    let from = block(old, number);
    let into = block(new, number);
    assert!(rt;
        act(rt, mover, out).is_none() && sent(out, old.home, Kind::PoisonRead { block: from })
    );
    assert!(rt; !mover.can_act());
    if number == 5 {
        assert!(rt;
            take(rt, mover, out, old.home, Kind::Nak { block: from }).is_none() && silent(out)
        );
        assert!(rt;
            act(rt, mover, out).is_none() && sent(out, old.home, Kind::PoisonRead { block: from })
        );
    }
    let acks = number % 3;
    if acks == 2 {
        assert!(rt;
            take(rt, mover, out, 1, Kind::InvalAck { block: from }).is_none() && silent(out)
        );
    }
    let reply = Kind::PoisonReply {
        block: from,
        line,
        acks,
    };
    assert!(rt; take(rt, mover, out, old.home, reply).is_none() && silent(out));
    assert!(rt; mover.can_act() == (acks == 0) && !mover.has_row(&message(old.home, reply)));
    if acks > 0 {
        assert!(rt;
            take(rt, mover, out, 0, Kind::InvalAck { block: from }).is_none() && silent(out)
        );
    }
    assert!(rt; !mover.has_row(&message(0, Kind::InvalAck { block: from })));
    assert!(rt;
        act(rt, mover, out).is_none() && sent(out, new.home, Kind::CopyIn { block: into, line })
    );
    assert!(rt; place(rt, mover, DATA, number) == Some(old));
    assert!(rt; !mover.has_row(&message(new.home, Kind::CopyDone { block: from })));
    assert!(rt;
        take(rt, mover, out, new.home, Kind::CopyDone { block: into }).is_none() && silent(out)
    );
    assert!(rt; place(rt, mover, DATA, number) == Some(new));
}

// A node's walk, and whether it was told the frame.
fn walks(rt: &impl Abort, mover: &mut Mover, out: &mut Outbox, node: NodeId, frame: Frame) -> bool {
    let note = take(rt, mover, out, node, Kind::Walk { page: DATA });
    note.is_none() && sent(out, node, Kind::Walked { page: DATA, frame })
}

// The first page moves from 0.0 to 1.1. Meanwhile a walk for it is to be tried again, and another notice finds the mover busy.
// Then nothing is free at node 0, and its frame in quarantine is reclaimed, after both of its holders have dropped it.
#[test]
fn a_page_moves_and_its_frame_is_freed(rt: HostRuntime) -> Result<(), Fail> {
    let mut mover = mover(rt.alloc(), 1)?;
    let mut out = Outbox::empty();
    let (old, new) = (at(0, 0), at(1, 1));
    assert!(rt; mover.idle() && !mover.can_act());
    assert!(rt; walks(&rt, &mut mover, &mut out, 0, old));
    assert!(rt; walks(&rt, &mut mover, &mut out, 1, old));
    let begin = Note::Begin {
        page: DATA,
        old,
        new,
    };
    assert!(rt; take(&rt, &mut mover, &mut out, 0, hot(old, 1, 0)) == Some(begin) && silent(&out));
    assert!(rt; !mover.idle());
    for number in 0..32 {
        copy(&rt, &mut mover, &mut out, old, new, number);
        let retry = take(&rt, &mut mover, &mut out, 0, Kind::Walk { page: DATA });
        assert!(rt; retry.is_none() && sent(&out, 0, Kind::WalkRetry { page: DATA }));
    }
    let busy = Note::No {
        reason: Reason::Busy,
        frame: at(1, 0),
        node: 0,
    };
    assert!(rt; take(&rt, &mut mover, &mut out, 1, hot(at(1, 0), 0, 0)) == Some(busy));
    assert!(rt; sent(&out, 1, Kind::Rearm { frame: at(1, 0) }));
    assert!(rt; !mover.has_row(&message(0, hot(new, 0, 0))));
    let moved = Note::Moved {
        page: DATA,
        old,
        new,
    };
    assert!(rt; act(&rt, &mut mover, &mut out) == Some(moved) && silent(&out));
    assert!(rt; mover.idle() && place(&rt, &mover, DATA, 0) == Some(new));
    assert!(rt; walks(&rt, &mut mover, &mut out, 0, new));
    // Nothing is free at node 1 either, but there nothing is in quarantine.
    let full = Note::No {
        reason: Reason::Full,
        frame: at(0, 1),
        node: 1,
    };
    assert!(rt;
        take(&rt, &mut mover, &mut out, 0, hot(at(0, 1), 1, 0)) == Some(full) && mover.idle()
    );
    let full = Note::No {
        reason: Reason::Full,
        frame: new,
        node: 0,
    };
    assert!(rt; take(&rt, &mut mover, &mut out, 1, hot(new, 0, 0)) == Some(full));
    assert!(rt; sent(&out, 1, Kind::Rearm { frame: new }) && !mover.idle());
    assert!(rt; act(&rt, &mut mover, &mut out).is_none() && out.letters().len() == 2);
    for (node, letter) in out.letters().iter().enumerate() {
        assert!(rt;
            usize::from(letter.to) == node && letter.kind == Kind::DropFrame { frame: old }
        );
    }
    for node in 0..2 {
        assert!(rt; !mover.can_act());
        assert!(rt;
            take(
                &rt,
                &mut mover,
                &mut out,
                node,
                Kind::Dropped { frame: old }
            )
            .is_none()
                && silent(&out)
        );
        assert!(rt; !mover.has_row(&message(node, Kind::Dropped { frame: old })));
    }
    assert!(rt;
        act(&rt, &mut mover, &mut out).is_none() && sent(&out, 0, Kind::CleanFrame { frame: old })
    );
    let freed = take(
        &rt,
        &mut mover,
        &mut out,
        0,
        Kind::FrameClean { frame: old },
    );
    assert!(rt; freed == Some(Note::Freed(old)) && silent(&out) && mover.idle());
    Ok(())
}

// Nothing is free, and nothing is in quarantine: the notice is refused, and the home may send another. A page that others use
// isn't moved either.
#[test]
fn a_notice_is_refused(rt: HostRuntime) -> Result<(), Fail> {
    let mut mover = mover(rt.alloc(), 2)?;
    let mut out = Outbox::empty();
    for (most, reason) in [(31, Reason::Full), (32, Reason::Shared)] {
        let note = Note::No {
            reason,
            frame: at(0, 0),
            node: 1,
        };
        assert!(rt; take(&rt, &mut mover, &mut out, 0, hot(at(0, 0), 1, most)) == Some(note));
        assert!(rt; sent(&out, 0, Kind::Rearm { frame: at(0, 0) }) && mover.idle());
    }
    let strangers = [
        message(0, Kind::Walk { page: VPage(0x10) }),
        message(2, Kind::Walk { page: DATA }),
        message(0, hot(at(0, 2), 1, 0)),
        message(0, hot(at(0, 0), 2, 0)),
        message(0, Kind::FrameClean { frame: at(0, 0) }),
        message(
            0,
            Kind::Read {
                block: block(at(0, 0), 0),
            },
        ),
    ];
    for msg in strangers {
        assert!(rt; !mover.has_row(&msg));
    }
    Ok(())
}
