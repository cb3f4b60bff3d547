use super::*;
use og_base::{ActorId, Block, Frame, VPage};
use og_elf::read_raw;
use og_runs::{MsgId, Stamp};
use std::test::Fail;

// Two nodes of two frames, whose mover is actor 2.
const SETTINGS: Settings = Settings {
    nodes: 2,
    frames: 2,
    sets: 1,
    ways: 1,
    tlb: 1,
    instructions: 9,
    trigger: 1,
    sharing: 1,
    moves: 1,
    reset: 1_024,
};

const PAGE: VPage = VPage(0x100);

const FRAME: Frame = Frame { home: 0, index: 0 };

const BLOCK: Block = Block {
    frame: FRAME,
    number: 0,
};

// A program that loads the word at 0x100000: `lui a1,256`, `lw a2,0(a1)`, `ecall`.
const PROGRAM: [u8; 16] = [
    12, 0, 0, 0, 0xb7, 0x05, 0x10, 0, 0x03, 0xa6, 0x05, 0, 0x73, 0, 0, 0,
];

fn message(sender: ActorId, kind: Kind) -> Msg {
    Msg {
        id: MsgId { sender, seq: 0 },
        to: 0,
        stamp: Stamp {
            clock: 1,
            actor: sender,
        },
        kind,
    }
}

fn block(home: u8, number: u8) -> Block {
    Block {
        frame: Frame { home, index: 0 },
        number,
    }
}

// Of the messages for the home a new node serves requests for its own blocks and the mover's; of those for the processor,
// with nothing outstanding and an empty cache, invalidations, interventions and drop requests alone.
#[test]
fn rows_of_a_new_node(rt: HostRuntime) -> Result<(), Fail> {
    let alloc = rt.alloc();
    let bytes = Vec::from_slice(alloc, &PROGRAM)?;
    let Ok(elf) = read_raw(alloc, bytes.as_slice()) else {
        return Err("no raw program".into());
    };
    let image = Image::make(alloc, elf, 2)?;
    let Ok(layout) = Layout::make(alloc, &image, &SETTINGS) else {
        return Err("no layout".into());
    };
    let node = Node::make(alloc, 0, &image, &layout, &SETTINGS)?;
    assert!(rt; node.can_act(&image).is_ok());
    assert!(rt; node.victim_free());
    assert!(rt; node.request().is_none());
    assert!(rt; node.cache().look(BLOCK).is_none());
    assert_eq!(rt; node.home().frames(), 2);
    let other = Frame { home: 1, index: 2 };
    let table = [
        (0, Kind::Read { block: BLOCK }, true),
        (1, Kind::ReadEx { block: BLOCK }, true),
        (1, Kind::Upgrade { block: BLOCK }, true),
        // The mover asks for no copy; the block is another home's; a frame has 32 blocks.
        (2, Kind::Read { block: BLOCK }, false),
        (1, Kind::Read { block: block(1, 0) }, false),
        (
            1,
            Kind::Read {
                block: block(0, 32),
            },
            false,
        ),
        (2, Kind::PoisonRead { block: BLOCK }, true),
        (1, Kind::PoisonRead { block: BLOCK }, false),
        (1, Kind::DirtyTransfer { block: BLOCK }, false),
        (2, Kind::Rearm { frame: FRAME }, true),
        // Its blocks aren't poisoned.
        (2, Kind::CleanFrame { frame: FRAME }, false),
        (
            1,
            Kind::Invalidate {
                block: BLOCK,
                requester: 2,
            },
            true,
        ),
        (
            1,
            Kind::Invalidate {
                block: BLOCK,
                requester: 3,
            },
            false,
        ),
        (
            1,
            Kind::InterveneEx {
                block: BLOCK,
                requester: 1,
            },
            true,
        ),
        (
            1,
            Kind::InterveneEx {
                block: BLOCK,
                requester: 2,
            },
            false,
        ),
        // Nothing is outstanding.
        (1, Kind::Nak { block: BLOCK }, false),
        (1, Kind::WbAck { block: BLOCK }, false),
        (2, Kind::WalkRetry { page: PAGE }, false),
        (2, Kind::DropFrame { frame: FRAME }, true),
        (1, Kind::DropFrame { frame: FRAME }, false),
        (2, Kind::DropFrame { frame: other }, false),
        (2, Kind::Dropped { frame: FRAME }, false),
    ];
    for (row, (sender, kind, has)) in table.into_iter().enumerate() {
        assert!(rt; node.has_row(&message(sender, kind)) == has, "row {row}");
    }
    Ok(())
}
