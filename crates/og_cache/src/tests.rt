use crate::Cache;
use og_base::{Block, Frame};
use og_line::{Line, Mode};
use std::process::Abort;
use std::test::Fail;

// Block `number` of the first frame at home 0.
fn block(number: u8) -> Block {
    Block {
        frame: Frame { home: 0, index: 0 },
        number,
    }
}

// A line that has seen so many stores.
fn line(stores: u64) -> Line {
    Line {
        stores,
        ..Line::zero()
    }
}

// Makes room for a block and puts it there, and gives the number of the block that was thrown out.
fn bring(rt: &impl Abort, cache: &mut Cache, number: u8, mode: Mode) -> Option<u8> {
    let new = block(number);
    let thrown = cache.reserve_way(new);
    assert!(rt; cache.look(new).is_none());
    assert!(rt; cache.has_room(new));
    cache.fill(new, mode, &line(u64::from(number)));
    thrown.map(|(block, _, _)| block.number)
}

// One way: the block in it is thrown out with its line, and then there is room.
#[test]
fn one_way(rt: HostRuntime) -> Result<(), Fail> {
    let mut cache = Cache::make(rt.alloc(), 1, 1)?;
    assert_eq!(rt; bring(&rt, &mut cache, 7, Mode::Dirty), None);
    assert_eq!(rt; cache.victim_of(block(7)), None);
    assert_eq!(rt; cache.victim_of(block(8)), Some((block(7), Mode::Dirty)));
    assert!(rt; cache.reserve_way(block(8)) == Some((block(7), Mode::Dirty, line(7))));
    assert!(rt; cache.reserve_way(block(8)) == None);
    assert_eq!(rt; cache.look(block(7)), None);
    Ok(())
}

// Two sets of two ways. The set of a block is its number modulo 2: the even blocks throw each other out in turn, and the odd
// ones stay. The lowest empty way is used: a block that comes in place of another is thrown out in that one's turn.
#[test]
fn ways_in_turn(rt: HostRuntime) -> Result<(), Fail> {
    let mut cache = Cache::make(rt.alloc(), 2, 2)?;
    let table = [
        (0, None),
        (1, None),
        (2, None),
        (3, None),
        (4, Some(0)),
        (6, Some(2)),
        (8, Some(4)),
        (0, Some(6)),
        (2, Some(8)),
    ];
    for (number, thrown) in table {
        assert_eq!(rt;
            bring(&rt, &mut cache, number, Mode::Clean),
            thrown,
            "{number}"
        );
    }
    // Now 2 and 0 are there, and the second way is the next: 0 goes, and a new block takes its way.
    assert!(rt; cache.take_out(block(2)) == Some((Mode::Clean, line(2))));
    assert_eq!(rt; bring(&rt, &mut cache, 10, Mode::Clean), None);
    assert_eq!(rt; bring(&rt, &mut cache, 12, Mode::Clean), Some(0));
    assert_eq!(rt; bring(&rt, &mut cache, 14, Mode::Clean), Some(10));
    for (number, mode) in [
        (1, Some(Mode::Clean)),
        (3, Some(Mode::Clean)),
        (12, Some(Mode::Clean)),
        (10, None),
    ] {
        assert_eq!(rt; cache.look(block(number)), mode, "{number}");
    }
    Ok(())
}

// The same number in another frame and at another home is another block, and its set goes by frame and number.
#[test]
fn names_of_blocks(rt: HostRuntime) -> Result<(), Fail> {
    let mut cache = Cache::make(rt.alloc(), 64, 1)?;
    let _ = bring(&rt, &mut cache, 5, Mode::Shared);
    let places = [(1, 0, 5), (0, 1, 5), (0, 0, 6)];
    for (home, index, number) in places {
        let other = Block {
            frame: Frame { home, index },
            number,
        };
        assert_eq!(rt; cache.look(other), None);
        // Home 1's block has the same set; frame 1's begins 32 sets later.
        assert_eq!(rt; cache.victim_of(other).is_some(), home == 1);
    }
    Ok(())
}

// A mode and a line are changed in place; what was taken out is gone.
#[test]
fn changes_in_place(rt: HostRuntime) -> Result<(), Fail> {
    let mut cache = Cache::make(rt.alloc(), 4, 2)?;
    let _ = bring(&rt, &mut cache, 9, Mode::Clean);
    let nine = block(9);
    assert!(rt; cache.look(nine).is_some());
    cache.line_mut(nine).stores = 40;
    assert!(rt; cache.look(nine).is_some());
    cache.set_mode(nine, Mode::Dirty);
    assert_eq!(rt; cache.look(nine), Some(Mode::Dirty));
    assert!(rt; cache.look(nine).is_some());
    assert!(rt; *cache.line(nine) == line(40));
    assert!(rt; cache.take_out(nine) == Some((Mode::Dirty, line(40))));
    assert!(rt; cache.take_out(nine) == None);
    Ok(())
}
