ghost use Rattle.std.specs.Prelude.{◌*◌, ◌≤◌};

use super::*;

fn settings(nodes: u8, frames: u16) -> Settings
    requires nodes { (1 ≤ nodes) × (nodes ≤ 128) }
    requires frames { (2 ≤ frames) × (frames ≤ 1024) }
    requires all_frames { nodes * frames ≤ 16384 }
{
    Settings {
        nodes,
        frames,
        sets: 64,
        ways: 2,
        tlb: 8,
        instructions: 1,
        trigger: 64,
        sharing: 32,
        moves: 4,
        reset: 1024,
    }
}

#[test]
fn rooms(rt: HostRuntime) {
    assert_eq!(rt; room(&settings(1, 64)), 2_121);
    assert_eq!(rt; room(&settings(16, 1_024)), 541_041);
    assert_eq!(rt; room(&settings(128, 128)), 557_953);
}

#[test]
fn sizes_of_groups(rt: HostRuntime) {
    for (nodes, size) in [(1, 1), (64, 1), (65, 2), (128, 2)] {
        assert_eq!(rt; group_size(nodes), size, "{nodes} nodes");
    }
}
