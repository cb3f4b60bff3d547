use crate::Tlb;
use og_base::{Frame, VPage};
use std::test::Fail;

// Frame `index` of home 1.
fn frame(index: u16) -> Frame {
    Frame { home: 1, index }
}

// One entry: the second page takes the first one's place.
#[test]
fn one_entry(rt: HostRuntime) -> Result<(), Fail> {
    let mut tlb = Tlb::make(rt.alloc(), 1)?;
    tlb.fill(VPage(1), frame(1));
    tlb.fill(VPage(2), frame(2));
    assert_eq!(rt; tlb.look(VPage(1)), None);
    assert_eq!(rt; tlb.look(VPage(2)), Some(frame(2)));
    Ok(())
}

// Three entries: fills, and which of the pages 1 to 6 are there afterwards. A page that is there gets its new frame in its
// own slot, an empty slot is used before a full one, and full slots are used in turn.
#[test]
fn slots_in_turn(rt: HostRuntime) -> Result<(), Fail> {
    let mut tlb = Tlb::make(rt.alloc(), 3)?;
    let table: [(u64, &[u64]); 9] = [
        (1, &[1]),
        (2, &[1, 2]),
        (1, &[1, 2]),
        (3, &[1, 2, 3]),
        (4, &[2, 3, 4]),
        (3, &[2, 3, 4]),
        (5, &[3, 4, 5]),
        (6, &[4, 5, 6]),
        (1, &[1, 5, 6]),
    ];
    for (page, there) in table {
        tlb.fill(VPage(page), frame(page as u16));
        for other in 1..=6u64 {
            let expected = if there.contains(&other) {
                Some(frame(other as u16))
            } else {
                None
            };
            assert_eq!(rt; tlb.look(VPage(other)), expected, "{other} after {page}");
        }
    }
    // A dropped page's slot is empty, and used before the next one's turn.
    tlb.drop_page(VPage(5));
    assert_eq!(rt; tlb.look(VPage(5)), None);
    tlb.fill(VPage(2), frame(2));
    assert_eq!(rt; tlb.look(VPage(1)), Some(frame(1)));
    assert_eq!(rt; tlb.look(VPage(6)), Some(frame(6)));
    Ok(())
}

// A dropped frame takes each of its pages along, and leaves the frame of the same number at another home.
#[test]
fn frames_are_dropped(rt: HostRuntime) -> Result<(), Fail> {
    let mut tlb = Tlb::make(rt.alloc(), 4)?;
    let other = Frame { home: 2, index: 7 };
    tlb.fill(VPage(1), frame(7));
    tlb.fill(VPage(2), other);
    tlb.fill(VPage(3), frame(7));
    tlb.drop_frame(frame(7));
    for (page, expected) in [(1, None), (2, Some(other)), (3, None)] {
        assert_eq!(rt; tlb.look(VPage(page)), expected, "{page}");
    }
    Ok(())
}
