use super::*;
use og_base::{Block, Frame};
use og_line::Line;
use og_msg::{Kind, Letter, Msg, Outbox};
use og_runs::{MsgId, Stamp};
use std::alloc::{AllocError, Global};
use std::mem::size_of;
use std::process::Abort;
use std::test::Fail;

const BLOCK: Block = Block {
    frame: Frame { home: 0, index: 3 },
    number: 7,
};

// The words of the states, from the format and not from the code.
const UNOWNED: (u64, u64) = (0, 0);

const POISON: (u64, u64) = (6, 0);

fn shared(groups: u64) -> (u64, u64) {
    (1, groups)
}

fn exclusive(owner: u8) -> (u64, u64) {
    (2 + 256 * u64::from(owner), 0)
}

fn busy_shared(owner: u8, requester: u8) -> (u64, u64) {
    (
        3 + 256 * u64::from(owner) + 65_536 * u64::from(requester),
        0,
    )
}

fn busy_exclusive(owner: u8, requester: u8) -> (u64, u64) {
    (
        4 + 256 * u64::from(owner) + 65_536 * u64::from(requester),
        0,
    )
}

fn returned(owner: u8, requester: u8) -> (u64, u64) {
    let fields = 4 + 256 * u64::from(owner) + 65_536 * u64::from(requester);
    (fields + 16_777_216, 0)
}

fn busy_poison(owner: u8) -> (u64, u64) {
    (5 + 256 * u64::from(owner), 0)
}

// The home's line has the first byte 1, and the line that a message brings has 2.
fn line(first: u64) -> Line {
    let mut line = Line::zero();
    line.store(0, 1, first);
    line
}

fn name(kind: &Kind) -> &'static str {
    match kind {
        Kind::SharedReply { .. } => "SharedReply",
        Kind::SpecReply { .. } => "SpecReply",
        Kind::ExclusiveReply { .. } => "ExclusiveReply",
        Kind::UpgradeReply { .. } => "UpgradeReply",
        Kind::Nak { .. } => "Nak",
        Kind::PoisonError { .. } => "PoisonError",
        Kind::WbAck { .. } => "WbAck",
        Kind::WbBusyAck { .. } => "WbBusyAck",
        Kind::InterveneShared { .. } => "InterveneShared",
        Kind::InterveneEx { .. } => "InterveneEx",
        Kind::IntervenePoison { .. } => "IntervenePoison",
        Kind::Invalidate { .. } => "Invalidate",
        Kind::SharedResponse { .. } => "SharedResponse",
        Kind::ExclusiveResponse { .. } => "ExclusiveResponse",
        Kind::PoisonReply { .. } => "PoisonReply",
        Kind::CopyDone { .. } => "CopyDone",
        _ => "another kind",
    }
}

fn line_name(line: &Line) -> &'static str {
    if line.load(0, 1) == 1 { "M" } else { "L" }
}

fn write_letter(text: &mut String, letter: &Letter) -> Result<(), AllocError> {
    write!(text, " {}", name(&letter.kind))?;
    if let Some(line) = letter.kind.line() {
        write!(text, " {}", line_name(&line))?;
    }
    match letter.kind {
        Kind::ExclusiveReply { acks, .. }
        | Kind::UpgradeReply { acks, .. }
        | Kind::PoisonReply { acks, .. } => write!(text, " {acks}")?,
        Kind::InterveneShared { requester, .. }
        | Kind::InterveneEx { requester, .. }
        | Kind::Invalidate { requester, .. } => write!(text, " {{{requester}}}")?,
        _ => {}
    }
    write!(text, " to {};", letter.to)
}

// What the home makes of a message: the head and the set of the entry in hexadecimal, the home's
// line, whether the message counts, and the letters. Nothing where there is no row.
fn served(
    alloc: Global,
    nodes: u8,
    (head, set): (u64, u64),
    sender: u8,
    kind: Kind,
) -> Result<Option<String>, Fail> {
    let mut entry = Entry::of_words(head, set).ok_or("no entry")?;
    let msg = Msg {
        id: MsgId { sender, seq: 0 },
        to: 0,
        stamp: Stamp {
            clock: 1,
            actor: sender,
        },
        kind,
    };
    let is_sent = if kind.is_from_mover() {
        sender == nodes
    } else {
        sender < nodes
    };
    if nodes > 128 || !is_sent || !entry.names_nodes(nodes) || !entry.has_row(&msg) {
        return Ok(None);
    }
    let mut memory = line(1);
    let mut out = Outbox::empty();
    let counts = home_step(&mut entry, &mut memory, &msg, nodes, &mut out);
    let (head, set) = entry.words();
    let mut text = format!(in alloc; "{head:x} {set:x} {} {counts}:", line_name(&memory))?;
    for letter in out.letters() {
        write_letter(&mut text, letter)?;
    }
    Ok(Some(text))
}

// One row: nodes, entry, sender and message, then entry, line, whether it counts and letters.
type Served = (
    u8,
    (u64, u64),
    u8,
    Kind,
    (u64, u64),
    &'static str,
    bool,
    &'static str,
);

fn check_rows(rt: &impl Abort, alloc: Global, table: &[Served]) -> Result<(), Fail> {
    for (nodes, before, sender, kind, after, memory, counts, letters) in table {
        let text = served(alloc, *nodes, *before, *sender, *kind)?.ok_or("no row")?;
        let (head, set) = *after;
        let expected = format!(in alloc; "{head:x} {set:x} {memory} {counts}:{letters}")?;
        assert_eq!(rt; text.as_str(), expected.as_str());
    }
    Ok(())
}

// Each row of the table for requests of nodes, of four nodes.
#[test]
fn requests(rt: HostRuntime) -> Result<(), Fail> {
    let read = Kind::Read { block: BLOCK };
    let read_ex = Kind::ReadEx { block: BLOCK };
    let upgrade = Kind::Upgrade { block: BLOCK };
    let table = [
        (
            4,
            UNOWNED,
            1,
            read,
            exclusive(1),
            "M",
            true,
            " ExclusiveReply M 0 to 1;",
        ),
        (
            4,
            shared(0b1),
            1,
            read,
            shared(0b11),
            "M",
            true,
            " SharedReply M to 1;",
        ),
        (
            4,
            exclusive(1),
            1,
            read,
            exclusive(1),
            "M",
            true,
            " ExclusiveReply M 0 to 1;",
        ),
        (
            4,
            exclusive(0),
            1,
            read,
            busy_shared(0, 1),
            "M",
            true,
            " InterveneShared {1} to 0; SpecReply M to 1;",
        ),
        (
            4,
            busy_shared(0, 1),
            2,
            read,
            busy_shared(0, 1),
            "M",
            false,
            " Nak to 2;",
        ),
        (
            4,
            busy_exclusive(0, 1),
            2,
            read,
            busy_exclusive(0, 1),
            "M",
            false,
            " Nak to 2;",
        ),
        (
            4,
            busy_poison(0),
            2,
            read,
            busy_poison(0),
            "M",
            false,
            " Nak to 2;",
        ),
        (4, POISON, 2, read, POISON, "M", false, " PoisonError to 2;"),
        (
            4,
            UNOWNED,
            1,
            read_ex,
            exclusive(1),
            "M",
            true,
            " ExclusiveReply M 0 to 1;",
        ),
        (
            4,
            shared(0b1110),
            2,
            read_ex,
            exclusive(2),
            "M",
            true,
            " Invalidate {2} to 1; Invalidate {2} to 3; ExclusiveReply M 2 to 2;",
        ),
        (
            4,
            exclusive(1),
            1,
            read_ex,
            exclusive(1),
            "M",
            true,
            " ExclusiveReply M 0 to 1;",
        ),
        (
            4,
            exclusive(0),
            1,
            read_ex,
            busy_exclusive(0, 1),
            "M",
            true,
            " InterveneEx {1} to 0; SpecReply M to 1;",
        ),
        (
            4,
            busy_shared(0, 1),
            2,
            read_ex,
            busy_shared(0, 1),
            "M",
            false,
            " Nak to 2;",
        ),
        (
            4,
            returned(0, 1),
            2,
            read_ex,
            returned(0, 1),
            "M",
            false,
            " Nak to 2;",
        ),
        (
            4,
            busy_poison(0),
            2,
            read_ex,
            busy_poison(0),
            "M",
            false,
            " Nak to 2;",
        ),
        (
            4,
            POISON,
            2,
            read_ex,
            POISON,
            "M",
            false,
            " PoisonError to 2;",
        ),
        (
            4,
            shared(0b1101),
            2,
            upgrade,
            exclusive(2),
            "M",
            true,
            " Invalidate {2} to 0; Invalidate {2} to 3; UpgradeReply 2 to 2;",
        ),
        (
            4,
            shared(0b1001),
            2,
            upgrade,
            shared(0b1001),
            "M",
            false,
            " Nak to 2;",
        ),
        (4, UNOWNED, 2, upgrade, UNOWNED, "M", false, " Nak to 2;"),
        (
            4,
            exclusive(1),
            2,
            upgrade,
            exclusive(1),
            "M",
            false,
            " Nak to 2;",
        ),
        (
            4,
            busy_shared(0, 1),
            2,
            upgrade,
            busy_shared(0, 1),
            "M",
            false,
            " Nak to 2;",
        ),
        (
            4,
            returned(0, 1),
            2,
            upgrade,
            returned(0, 1),
            "M",
            false,
            " Nak to 2;",
        ),
        (
            4,
            busy_poison(0),
            2,
            upgrade,
            busy_poison(0),
            "M",
            false,
            " Nak to 2;",
        ),
        (
            4,
            POISON,
            2,
            upgrade,
            POISON,
            "M",
            false,
            " PoisonError to 2;",
        ),
    ];
    check_rows(&rt, rt.alloc(), &table)
}

// Each row for write-backs and revisions, and for what the mover sends.
#[test]
fn write_backs_and_poison(rt: HostRuntime) -> Result<(), Fail> {
    let fresh = line(2);
    let write_back = Kind::WriteBack {
        block: BLOCK,
        line: fresh,
    };
    let sharing_back = Kind::SharingWriteBack {
        block: BLOCK,
        line: fresh,
    };
    let sharing = Kind::SharingTransfer { block: BLOCK };
    let dirty = Kind::DirtyTransfer { block: BLOCK };
    let poison = Kind::PoisonRead { block: BLOCK };
    let poison_back = Kind::PoisonBack {
        block: BLOCK,
        line: fresh,
    };
    let poison_clean = Kind::PoisonClean { block: BLOCK };
    let copy = Kind::CopyIn {
        block: BLOCK,
        line: fresh,
    };
    let table = [
        (
            4,
            exclusive(1),
            1,
            write_back,
            UNOWNED,
            "L",
            false,
            " WbAck to 1;",
        ),
        (
            4,
            busy_shared(1, 2),
            1,
            write_back,
            shared(0b100),
            "L",
            false,
            " SharedResponse L to 2; WbBusyAck to 1;",
        ),
        (
            4,
            busy_exclusive(1, 2),
            1,
            write_back,
            exclusive(2),
            "L",
            false,
            " ExclusiveResponse L to 2; WbBusyAck to 1;",
        ),
        (
            4,
            busy_exclusive(1, 2),
            2,
            write_back,
            returned(1, 2),
            "L",
            false,
            " WbAck to 2;",
        ),
        (
            4,
            busy_poison(1),
            1,
            write_back,
            POISON,
            "L",
            false,
            " PoisonReply L 0 to 4; WbBusyAck to 1;",
        ),
        (
            4,
            busy_shared(0, 1),
            0,
            sharing_back,
            shared(0b11),
            "L",
            false,
            "",
        ),
        (
            4,
            busy_shared(0, 3),
            0,
            sharing,
            shared(0b1001),
            "M",
            false,
            "",
        ),
        (
            4,
            busy_exclusive(0, 1),
            0,
            dirty,
            exclusive(1),
            "M",
            false,
            "",
        ),
        (4, returned(0, 1), 0, dirty, UNOWNED, "M", false, ""),
        (
            4,
            UNOWNED,
            4,
            poison,
            POISON,
            "M",
            false,
            " PoisonReply M 0 to 4;",
        ),
        (
            4,
            shared(0b1010),
            4,
            poison,
            POISON,
            "M",
            false,
            " Invalidate {4} to 1; Invalidate {4} to 3; PoisonReply M 2 to 4;",
        ),
        (
            4,
            shared(0),
            4,
            poison,
            POISON,
            "M",
            false,
            " PoisonReply M 0 to 4;",
        ),
        (
            4,
            exclusive(3),
            4,
            poison,
            busy_poison(3),
            "M",
            false,
            " IntervenePoison to 3;",
        ),
        (
            4,
            busy_shared(0, 1),
            4,
            poison,
            busy_shared(0, 1),
            "M",
            false,
            " Nak to 4;",
        ),
        (
            4,
            busy_exclusive(0, 1),
            4,
            poison,
            busy_exclusive(0, 1),
            "M",
            false,
            " Nak to 4;",
        ),
        (
            4,
            busy_poison(1),
            1,
            poison_back,
            POISON,
            "L",
            false,
            " PoisonReply L 0 to 4;",
        ),
        (
            4,
            busy_poison(1),
            1,
            poison_clean,
            POISON,
            "M",
            false,
            " PoisonReply M 0 to 4;",
        ),
        (4, UNOWNED, 4, copy, UNOWNED, "L", false, " CopyDone to 4;"),
    ];
    check_rows(&rt, rt.alloc(), &table)
}

// Groups of two nodes, from 65 nodes on: an upgrade gets the line, and a sibling is told, whether or
// not it has a copy.
#[test]
fn groups(rt: HostRuntime) -> Result<(), Fail> {
    let upgrade = Kind::Upgrade { block: BLOCK };
    let read = Kind::Read { block: BLOCK };
    let read_ex = Kind::ReadEx { block: BLOCK };
    let poison = Kind::PoisonRead { block: BLOCK };
    let table = [
        (
            128,
            shared(0b10),
            2,
            upgrade,
            exclusive(2),
            "M",
            true,
            " Invalidate {2} to 3; ExclusiveReply M 1 to 2;",
        ),
        (
            65,
            shared(1 << 32),
            0,
            read_ex,
            exclusive(0),
            "M",
            true,
            " Invalidate {0} to 64; ExclusiveReply M 1 to 0;",
        ),
        (
            128,
            shared(0b10),
            4,
            upgrade,
            shared(0b10),
            "M",
            false,
            " Nak to 4;",
        ),
        (
            128,
            shared(0b1),
            127,
            read,
            shared(0x8000_0000_0000_0001),
            "M",
            true,
            " SharedReply M to 127;",
        ),
        (
            128,
            shared(0x8000_0000_0000_0001),
            128,
            poison,
            POISON,
            "M",
            false,
            " Invalidate {128} to 0; Invalidate {128} to 1; Invalidate {128} to 126; Invalidate {128} to 127; PoisonReply M 4 to 128;",
        ),
        (
            64,
            shared(1 << 63),
            63,
            upgrade,
            exclusive(63),
            "M",
            true,
            " UpgradeReply 0 to 63;",
        ),
    ];
    check_rows(&rt, rt.alloc(), &table)
}

// No row: messages that no run sends to an entry in this state.
#[test]
fn pairs_without_a_row(rt: HostRuntime) -> Result<(), Fail> {
    let fresh = line(2);
    let write_back = Kind::WriteBack {
        block: BLOCK,
        line: fresh,
    };
    let table = [
        (exclusive(1), 1, Kind::Upgrade { block: BLOCK }),
        (UNOWNED, 1, write_back),
        (shared(0b10), 1, write_back),
        (exclusive(2), 1, write_back),
        (busy_shared(1, 2), 2, write_back),
        (returned(1, 2), 2, write_back),
        (busy_poison(2), 1, write_back),
        (busy_shared(1, 2), 2, Kind::SharingTransfer { block: BLOCK }),
        (
            busy_exclusive(1, 2),
            2,
            Kind::DirtyTransfer { block: BLOCK },
        ),
        (busy_poison(1), 4, Kind::PoisonRead { block: BLOCK }),
        (POISON, 4, Kind::PoisonRead { block: BLOCK }),
        (busy_poison(1), 2, Kind::PoisonClean { block: BLOCK }),
        (
            POISON,
            4,
            Kind::CopyIn {
                block: BLOCK,
                line: fresh,
            },
        ),
        (UNOWNED, 1, Kind::Nak { block: BLOCK }),
        (exclusive(4), 1, Kind::Read { block: BLOCK }),
    ];
    for (before, sender, kind) in table {
        let text = served(rt.alloc(), 4, before, sender, kind)?;
        assert!(rt; text.is_none(), "{before:?} {sender}");
    }
    Ok(())
}

// The words of some states, and words of no state.
#[test]
fn words(rt: HostRuntime) -> Result<(), Fail> {
    let mut sharers = og_sharers::Sharers::none();
    sharers.add(0, 16);
    sharers.add(1, 16);
    sharers.add(15, 16);
    let full = Entry::of(State::BusyExclusive {
        owner: 1,
        requester: 2,
        returned: true,
    });
    assert_eq!(rt; full.words(), (0x0102_0104, 0));
    assert_eq!(rt; Entry::of(State::Shared(sharers)).words(), (1, 0x8003));
    assert_eq!(rt; Entry::unowned().words(), (0, 0));
    for (head, set) in [(0x102, 0), (1, 65_536), (6, 0), (0x01ff_fe04, 0)] {
        let entry = Entry::of_words(head, set).ok_or("no entry")?;
        assert_eq!(rt; entry.words(), (head, set));
    }
    for (head, set) in [
        (2, 1),
        (7, 0),
        (0x101, 1),
        (0x1_0102, 0),
        (0x10_0004 << 8, 0),
        (0x200_0004, 0),
    ] {
        assert!(rt; Entry::of_words(head, set).is_none(), "{head:x} {set:x}");
    }
    assert_eq!(rt; size_of::<Entry>(), 16);
    Ok(())
}
