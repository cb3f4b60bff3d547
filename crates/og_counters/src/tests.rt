ghost use Rattle.std.specs.Prelude.{◌≤◌};

use super::*;
use std::test::Fail;

fn settings(nodes: u8, trigger: u32, reset: u32) -> Settings
    requires nodes { (1 ≤ nodes) × (nodes ≤ 128) }
    requires trigger { (1 ≤ trigger) × (trigger ≤ 1000000) }
    requires reset { (1 ≤ reset) × (reset ≤ 1000000) }
{
    Settings {
        nodes,
        frames: 3,
        sets: 1,
        ways: 1,
        tlb: 1,
        instructions: 0,
        trigger,
        sharing: 1,
        moves: 0,
        reset,
    }
}

// Counts a request for a block of the frame, or resets the frame's counters where no node is named.
fn step(counters: &mut Counters, index: u16, node: Option<NodeId>) -> Option<Hot> {
    let rules = *counters.rules();
    if index >= rules.frames {
        return None;
    }
    match node {
        Some(node) if node < rules.nodes => counters.count(index, node),
        Some(_) => None,
        None => {
            counters.reset(index);
            None
        }
    }
}

fn hot(index: u16, node: NodeId, count: u32, most: u32) -> Option<Hot> {
    Some(Hot {
        frame: Frame { home: 0, index },
        node,
        count,
        most,
    })
}

// Home 0 of four nodes, with a trigger of 3: three counts above the home's own are noticed, once.
#[test]
fn a_node_is_noticed(rt: HostRuntime) -> Result<(), Fail> {
    let mut counters = Counters::make(rt.alloc(), 0, &settings(4, 3, 1_024))?;
    let table = [
        // Three counts of node 1, and one more.
        (0, Some(1), None),
        (0, Some(1), None),
        (0, Some(1), hot(0, 1, 3, 0)),
        (0, Some(1), None),
        // No other node is noticed while the notice is open.
        (0, Some(2), None),
        (0, Some(2), None),
        (0, Some(2), None),
        (0, Some(2), None),
        // The frame begins anew.
        (0, None, None),
        (0, Some(1), None),
        // Another frame has counts of its own. The home's own count puts the notice off, and isn't among the others'.
        (2, Some(0), None),
        (2, Some(1), None),
        (2, Some(1), None),
        (2, Some(1), None),
        (2, Some(1), hot(2, 1, 4, 0)),
        // The greatest of the others, with the home's own in between.
        (1, Some(2), None),
        (1, Some(3), None),
        (1, Some(3), None),
        (1, Some(1), None),
        (1, Some(1), None),
        (1, Some(1), hot(1, 1, 3, 2)),
        // Two counts of node 1 on frame 0 make three.
        (0, Some(1), None),
        (0, Some(1), hot(0, 1, 3, 0)),
    ];
    for (index, node, expected) in table {
        assert_eq!(rt; step(&mut counters, index, node), expected);
    }
    Ok(())
}

// With a reset of 2 no node's count ever passes 1 before the counts begin anew.
#[test]
fn counts_begin_anew(rt: HostRuntime) -> Result<(), Fail> {
    let mut counters = Counters::make(rt.alloc(), 0, &settings(4, 3, 2))?;
    for node in [1, 1, 1, 1, 1, 2, 2, 2, 0, 1, 1, 1, 1] {
        assert_eq!(rt; step(&mut counters, 0, Some(node)), None);
    }
    // The notice comes before the counts begin anew, and stays open afterwards.
    let mut counters = Counters::make(rt.alloc(), 0, &settings(2, 2, 2))?;
    for (node, expected) in [(1, None), (1, hot(0, 1, 2, 0)), (1, None), (1, None)] {
        assert_eq!(rt; step(&mut counters, 0, Some(node)), expected);
    }
    Ok(())
}

// Each first count is noticed with a trigger of 1, and again after a reset; at 128 nodes too.
#[test]
fn a_reset_closes_the_notice(rt: HostRuntime) -> Result<(), Fail> {
    for node in [1, 127] {
        let mut counters = Counters::make(rt.alloc(), 0, &settings(128, 1, 1))?;
        for _ in 0..2 {
            assert_eq!(rt; step(&mut counters, 0, Some(node)), hot(0, node, 1, 0));
            assert_eq!(rt; step(&mut counters, 0, Some(node)), None);
            assert_eq!(rt; step(&mut counters, 0, None), None);
        }
        assert_eq!(rt; step(&mut counters, 0, Some(0)), None);
    }
    Ok(())
}
