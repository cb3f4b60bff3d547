//! Page tables of small machines.

ghost use Rattle.std.specs.Prelude.{◌≡◌, IfOk};

use crate::Pager;
use og_base::{Frame, NodeId, Settings, VPage};
use og_elf::read_raw;
use og_image::{Image, Layout};
use std::alloc::Global;
use std::process::Abort;
use std::test::Fail;

const TWO_NODES: Settings = Settings {
    nodes: 2,
    frames: 2,
    sets: 64,
    ways: 2,
    tlb: 8,
    instructions: 1_000_000,
    trigger: 64,
    sharing: 32,
    moves: 4,
    reset: 1024,
};

const ONE_NODE: Settings = Settings {
    nodes: 1,
    frames: 4,
    sets: 64,
    ways: 2,
    tlb: 8,
    instructions: 1_000_000,
    trigger: 64,
    sharing: 32,
    moves: 4,
    reset: 1024,
};

const DATA: VPage = VPage(0x100);

const STACK: VPage = VPage(0x70000);

fn at(home: u8, index: u16) -> Frame {
    Frame { home, index }
}

// The page table of an environment call with one page of data, on so many nodes.
fn pager(alloc: Global, nodes: u8, settings: &Settings) -> Result<Pager, Fail>
    requires { settings.now.nodes ≡ nodes }
{
    let file = Vec::from_slice(alloc, &[4, 0, 0, 0, 0x73, 0, 0, 0])?;
    let elf = read_raw(alloc, file.as_slice())?;
    let image = Image::make(alloc, elf, nodes)?;
    let layout = Layout::make(alloc, &image, settings)?;
    crate::laws::layout_suits();
    Ok(Pager::make(alloc, &layout, settings)?)
}

// Begins to move a page and gives its new frame.
fn begin(rt: &impl Abort, pager: &mut Pager, page: VPage, node: NodeId) -> Frame {
    assert!(rt; node < pager.nodes());
    assert!(rt; pager.frame_of(page).is_some());
    assert!(rt; pager.has_free(node));
    assert!(rt; pager.moving().is_none());
    pager.begin(page, node)
}

// Publishes the move under way.
fn settle(rt: &impl Abort, pager: &mut Pager) {
    match pager.moving() {
        Some((page, _, _)) => {
            assert!(rt; pager.moves(page) < 4);
            pager.settle();
        }
        None => assert!(rt; false),
    }
}

// Reclaims a frame.
fn reclaim(rt: &impl Abort, pager: &mut Pager, frame: Frame) {
    assert!(rt; pager.has_frame(frame));
    assert!(rt; pager.is_quarantined(frame));
    assert!(rt; pager.holders(frame).count() == 0);
    pager.reclaim(frame);
}

// What a table has: of a frame its page, whether it is in quarantine and how many hold it.
fn seen(rt: &impl Abort, pager: &Pager, frame: Frame) -> (Option<VPage>, bool, u8) {
    assert!(rt; pager.has_frame(frame));
    (
        pager.page_of(frame),
        pager.is_quarantined(frame),
        pager.holders(frame).count(),
    )
}

// A node's walk.
fn walk(rt: &impl Abort, pager: &mut Pager, page: VPage, node: NodeId) -> Option<Frame> {
    assert!(rt; node < pager.nodes());
    assert!(rt; pager.frame_of(page).is_some());
    pager.walk(page, node)
}

fn drop_frame(rt: &impl Abort, pager: &mut Pager, frame: Frame, node: NodeId) {
    assert!(rt; node < pager.nodes());
    assert!(rt; pager.has_frame(frame));
    pager.dropped(frame, node);
}

fn oldest(rt: &impl Abort, pager: &Pager, node: NodeId) -> Option<Frame> {
    assert!(rt; node < pager.nodes());
    pager.oldest(node)
}

fn has_free(rt: &impl Abort, pager: &Pager, node: NodeId) -> bool {
    assert!(rt; node < pager.nodes());
    pager.has_free(node)
}

// Two nodes of two frames: three pages are placed, the fourth frame is free. The first page moves into it, and its old frame is
// reclaimed once its holder has dropped it.
#[test]
fn a_page_moves(rt: HostRuntime) -> Result<(), Fail> {
    let mut pager = pager(rt.alloc(), 2, &TWO_NODES)?;
    let placed = [
        (DATA, at(0, 0)),
        (STACK, at(1, 0)),
        (VPage(0x70002), at(0, 1)),
    ];
    for (page, frame) in placed {
        assert_eq!(rt; pager.frame_of(page), Some(frame));
        assert_eq!(rt; seen(&rt, &pager, frame), (Some(page), false, 0));
    }
    assert_eq!(rt; pager.frame_of(VPage(0x70001)), None);
    assert_eq!(rt; has_free(&rt, &pager, 0), false);
    assert_eq!(rt; walk(&rt, &mut pager, DATA, 0), Some(at(0, 0)));
    assert_eq!(rt; begin(&rt, &mut pager, DATA, 1), at(1, 1));
    assert_eq!(rt; pager.moving(), Some((DATA, at(0, 0), at(1, 1))));
    assert_eq!(rt;
        (pager.is_moving(DATA), pager.is_moving(STACK)),
        (true, false)
    );
    assert_eq!(rt; walk(&rt, &mut pager, DATA, 1), None);
    assert_eq!(rt; seen(&rt, &pager, at(1, 1)), (None, false, 0));
    assert_eq!(rt; has_free(&rt, &pager, 1), false);
    settle(&rt, &mut pager);
    assert_eq!(rt; pager.moving(), None);
    assert_eq!(rt;
        (pager.frame_of(DATA), pager.moves(DATA)),
        (Some(at(1, 1)), 1)
    );
    assert_eq!(rt; seen(&rt, &pager, at(1, 1)), (Some(DATA), false, 0));
    assert_eq!(rt; seen(&rt, &pager, at(0, 0)), (None, true, 1));
    assert_eq!(rt; oldest(&rt, &pager, 0), Some(at(0, 0)));
    assert_eq!(rt; oldest(&rt, &pager, 1), None);
    drop_frame(&rt, &mut pager, at(0, 0), 0);
    reclaim(&rt, &mut pager, at(0, 0));
    assert_eq!(rt; seen(&rt, &pager, at(0, 0)), (None, false, 0));
    assert_eq!(rt; has_free(&rt, &pager, 0), true);
    assert_eq!(rt; oldest(&rt, &pager, 0), None);
    Ok(())
}

// One node of four frames: the least free frame is taken, and the frame that was left first is the oldest, also after a frame
// with a lesser number was left later.
#[test]
fn frames_in_order(rt: HostRuntime) -> Result<(), Fail> {
    let mut pager = pager(rt.alloc(), 1, &ONE_NODE)?;
    // (page, its new frame, the oldest frame in quarantine then)
    let moves = [(DATA, 2, 0), (STACK, 3, 0)];
    for (page, new, old) in moves {
        assert_eq!(rt; begin(&rt, &mut pager, page, 0), at(0, new));
        settle(&rt, &mut pager);
        assert_eq!(rt; oldest(&rt, &pager, 0), Some(at(0, old)));
    }
    reclaim(&rt, &mut pager, at(0, 0));
    assert_eq!(rt; oldest(&rt, &pager, 0), Some(at(0, 1)));
    assert_eq!(rt; begin(&rt, &mut pager, STACK, 0), at(0, 0));
    settle(&rt, &mut pager);
    reclaim(&rt, &mut pager, at(0, 1));
    assert_eq!(rt; begin(&rt, &mut pager, STACK, 0), at(0, 1));
    settle(&rt, &mut pager);
    assert_eq!(rt; oldest(&rt, &pager, 0), Some(at(0, 3)));
    assert_eq!(rt; pager.moves(STACK), 3);
    Ok(())
}
