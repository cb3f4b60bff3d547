use super::*;
use og_base::NodeId;

// The nodes of a list that are below 128.
fn nodes_of(list: &[NodeId]) -> Nodes {
    let mut nodes = Nodes::none();
    for node in list {
        if *node < 128 {
            nodes.add(*node);
        }
    }
    nodes
}

// Sets of nodes: how many there are, whether 64 is in, and the least from 0, from 64 and from 127 on.
#[test]
fn sets_of_nodes(rt: HostRuntime) {
    let table: [(
        &[NodeId],
        u8,
        bool,
        Option<NodeId>,
        Option<NodeId>,
        Option<NodeId>,
    ); 6] = [
        (&[], 0, false, None, None, None),
        (&[0], 1, false, Some(0), None, None),
        (&[127, 63, 0], 3, false, Some(0), Some(127), Some(127)),
        (&[64, 65, 64], 2, true, Some(64), Some(64), None),
        (&[127], 1, false, Some(127), Some(127), Some(127)),
        (&[5, 64, 126], 3, true, Some(5), Some(64), None),
    ];
    for (list, count, has, first, middle, last) in table {
        let nodes = nodes_of(list);
        assert_eq!(rt; nodes.count(), count, "{list:?}");
        assert_eq!(rt; nodes.has(64), has, "{list:?}");
        assert_eq!(rt; nodes.least(0), first, "{list:?}");
        assert_eq!(rt; nodes.least(64), middle, "{list:?}");
        assert_eq!(rt; nodes.least(127), last, "{list:?}");
        assert_eq!(rt; (nodes.has(200), nodes.least(128)), (false, None));
    }
    let mut left = nodes_of(&[3, 100]);
    left.remove(100);
    left.remove(7);
    assert_eq!(rt;
        (left.count(), left.has(3), left.has(100)),
        (1, true, false)
    );
}

// The nodes of a word's groups without one: how many nodes the machine has, the word, the one that
// is left out, how many others there are, and the least of them.
#[test]
fn others(rt: HostRuntime) {
    let table = [
        (4, 0b1011, 1, 2, Some(0)),
        (4, 0b1011, 4, 3, Some(0)),
        (64, 1 << 63, 63, 0, None),
        (65, 1 << 32, 0, 1, Some(64)),
        (65, 1 << 32, 64, 0, None),
        (128, 0b10, 2, 1, Some(3)),
        (128, 0b10, 128, 2, Some(2)),
        (128, u64::MAX, 0, 127, Some(1)),
        (2, 0b1100, 0, 0, None),
    ];
    for (nodes, word, node, count, least) in table {
        assert!(rt; node <= nodes && nodes <= 128);
        let sharers = Sharers::of_word(word);
        let others = sharers.others(node, nodes);
        assert_eq!(rt;
            (others.count(), others.least(0)),
            (count, least),
            "{nodes} {word:x} {node}"
        );
        assert_eq!(rt; sharers.word(), word);
    }
}

#[test]
fn groups(rt: HostRuntime) {
    let mut few = Sharers::none();
    few.add(63, 64);
    assert_eq!(rt;
        (few.word(), few.has(63, 64), few.has(62, 64)),
        (1 << 63, true, false)
    );
    let mut many = Sharers::none();
    many.add(3, 128);
    assert_eq!(rt;
        (many.word(), many.has(2, 128), many.has(4, 128)),
        (2, true, false)
    );
}
