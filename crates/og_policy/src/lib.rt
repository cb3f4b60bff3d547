//! The policy: whether a page moves to the node that uses it most.
//!
//! After the migration policy of Verghese, Devine, Gupta and Rosenblum ("Operating System Support for
//! Improving Data Locality on CC-NUMA Compute Servers", ASPLOS 1996): a home notices that a node's
//! count has passed its own by the trigger threshold; then the page is moved unless another node uses
//! it more than the sharing threshold, or it has been moved as often as the migrate threshold lets it.
//! `specs/Policy` has the reasons in their order.
//!
//! Below stand the names and settings; above it the mover. A decision takes no memory.
#![tactic(auto)]

ghost use Rattle.std.specs.Prelude.{◌≡◌};
ghost use Rattle.og_policy.specs.Policy.{decision};

use og_base::{Hot, Reason, Settings};

/// Why the page that a notice is about isn't moved, by the first reason that applies; None where it is
/// moved. `moves` are the page's moves so far, `idle` says whether the mover is, and `free` whether
/// the hot node has a free frame.
pub fn decide(hot: &Hot, moves: u32, idle: bool, free: bool, settings: &Settings) -> Option<Reason>
    ensures { result ≡ decision hot.now moves idle free settings.now }
{
    if !idle {
        Some(Reason::Busy)
    } else if hot.most >= settings.sharing {
        Some(Reason::Shared)
    } else if moves >= settings.moves {
        Some(Reason::Worn)
    } else if !free {
        Some(Reason::Full)
    } else {
        None
    }
}

#[cfg(test)]
mod tests {
    use super::*;
    use og_base::Frame;

    // Each reason at its limit and one below it, and the first where several apply.
    #[test]
    fn first_reason(rt: HostRuntime) {
        let settings = Settings {
            nodes: 2,
            frames: 2,
            sets: 1,
            ways: 1,
            tlb: 1,
            instructions: 0,
            trigger: 1,
            sharing: 32,
            moves: 4,
            reset: 1,
        };
        let table = [
            (0, 0, true, true, None),
            (31, 3, true, true, None),
            (32, 0, true, true, Some(Reason::Shared)),
            (0, 4, true, true, Some(Reason::Worn)),
            (0, 0, true, false, Some(Reason::Full)),
            (0, 0, false, true, Some(Reason::Busy)),
            (32, 4, false, false, Some(Reason::Busy)),
            (32, 4, true, false, Some(Reason::Shared)),
            (31, 4, true, false, Some(Reason::Worn)),
        ];
        for (most, moves, idle, free, reason) in table {
            let hot = Hot {
                frame: Frame { home: 0, index: 1 },
                node: 1,
                count: 100,
                most,
            };
            assert_eq!(rt;
                decide(&hot, moves, idle, free, &settings),
                reason,
                "{most} {moves} {idle} {free}"
            );
        }
    }
}
