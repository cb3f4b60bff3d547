use crate::{intervene, invalidate};
use og_base::{Block, Frame};
use og_cache::Cache;
use og_line::{Line, Mode};
use og_msg::{Kind, Outbox};
use og_request::{Held, Outcome, Request, Want};
use std::alloc::Global;
use std::process::Abort;
use std::test::Fail;

const HOME: u8 = 6;

const BLOCK: Block = Block {
    frame: Frame {
        home: HOME,
        index: 2,
    },
    number: 11,
};

// The line of the copy.
fn line() -> Line {
    Line {
        stores: 42,
        ..Line::zero()
    }
}

// A cache that has the block in this mode, or not at all.
fn cache_with(rt: &impl Abort, alloc: Global, mode: Option<Mode>) -> Result<Cache, Fail> {
    let mut cache = Cache::make(alloc, 4, 2)?;
    if let Some(mode) = mode {
        assert!(rt; cache.look(BLOCK).is_none());
        assert!(rt; cache.has_room(BLOCK));
        cache.fill(BLOCK, mode, &line());
    }
    Ok(cache)
}

// Whether just these letters were added, in this order: receivers and what they say.
fn has_letters(out: &Outbox, expected: &[(u8, Kind)]) -> bool {
    let letters = out.letters();
    letters.len() == expected.len()
        && letters.iter().zip(expected).all(|(letter, (to, kind))| letter.to == *to
            && letter.kind == *kind)
}

// Each row of the owner's table: the copy, the intervention, the letters and the copy afterwards.
#[test]
fn interventions(rt: HostRuntime) -> Result<(), Fail> {
    let block = BLOCK;
    let line = line();
    let shares = Held::Shared(3);
    let gives = Held::Exclusive(3);
    let owner_ack = (3, Kind::OwnerAck { block });
    let sharing = (HOME, Kind::SharingTransfer { block });
    let dirty = (HOME, Kind::DirtyTransfer { block });
    let clean = (HOME, Kind::PoisonClean { block });
    let table: [(Option<Mode>, Held, &[(u8, Kind)], Option<Mode>); 9] = [
        (
            Some(Mode::Dirty),
            shares,
            &[
                (3, Kind::SharedResponse { block, line }),
                (HOME, Kind::SharingWriteBack { block, line }),
            ],
            Some(Mode::Shared),
        ),
        (
            Some(Mode::Dirty),
            gives,
            &[(3, Kind::ExclusiveResponse { block, line }), dirty],
            None,
        ),
        (
            Some(Mode::Dirty),
            Held::Poison,
            &[(HOME, Kind::PoisonBack { block, line })],
            None,
        ),
        (
            Some(Mode::Clean),
            shares,
            &[owner_ack, sharing],
            Some(Mode::Shared),
        ),
        (Some(Mode::Clean), gives, &[owner_ack, dirty], None),
        (Some(Mode::Clean), Held::Poison, &[clean], None),
        (None, shares, &[owner_ack, sharing], None),
        (None, gives, &[owner_ack, dirty], None),
        (None, Held::Poison, &[clean], None),
    ];
    for (row, (before, held, letters, after)) in table.into_iter().enumerate() {
        let mut cache = cache_with(&rt, rt.alloc(), before)?;
        let mut out = Outbox::empty();
        if cache.look(BLOCK) != Some(Mode::Shared) {
            intervene(&mut cache, BLOCK, held, &mut out);
        }
        assert!(rt; has_letters(&out, letters), "row {row}");
        assert_eq!(rt; cache.look(BLOCK), after, "row {row}");
    }
    Ok(())
}

// An invalidation drops a shared copy, marks a read of the block, and is acknowledged to the requester in each case.
#[test]
fn invalidations(rt: HostRuntime) -> Result<(), Fail> {
    let other = Block {
        number: 12,
        ..BLOCK
    };
    let table = [
        (Some(Mode::Shared), None, false),
        (None, None, false),
        // A read that the invalidation overtakes is marked: its shared line is refused when it comes.
        (None, Some((Want::Read, BLOCK)), true),
        (None, Some((Want::Read, other)), false),
        (None, Some((Want::ReadEx, BLOCK)), false),
        // An upgrade that lost: the copy goes, and the home refuses the request.
        (Some(Mode::Shared), Some((Want::Upgrade, BLOCK)), false),
    ];
    for (row, (copy, asked, marked)) in table.into_iter().enumerate() {
        let mut cache = cache_with(&rt, rt.alloc(), copy)?;
        let mut request = asked.map(|(want, block)| Request::issue(want, block));
        let mut out = Outbox::empty();
        let mode = cache.look(BLOCK);
        if mode != Some(Mode::Clean) && mode != Some(Mode::Dirty) {
            invalidate(&mut cache, &mut request, BLOCK, 4, &mut out);
        }
        assert!(rt;
            has_letters(&out, &[(4, Kind::InvalAck { block: BLOCK })]),
            "row {row}"
        );
        assert_eq!(rt; cache.look(BLOCK), None, "row {row}");
        assert_eq!(rt; request.is_some(), asked.is_some(), "row {row}");
        assert_eq!(rt; is_marked(request), marked, "row {row}");
    }
    Ok(())
}

// Whether a request is a read whose shared line is refused.
fn is_marked(request: Option<Request>) -> bool {
    let Some(mut request) = request else {
        return false;
    };
    let reply = Kind::SharedReply {
        block: request.block(),
        line: line(),
    };
    request.has_row(&reply) && request.reply(&reply) == Outcome::Again
}

// What a request makes of a letter to its node.
fn received(rt: &impl Abort, request: &mut Request, kind: &Kind) -> Outcome {
    assert!(rt; request.has_row(kind));
    request.reply(kind)
}

// What the only letter to this node says.
fn letter_to(rt: &impl Abort, out: &Outbox, node: u8) -> Kind {
    let said = out.letters().iter().find(|letter| letter.to == node);
    said.expect(rt, "a letter").kind
}

// A dirty owner is asked to share: its line goes to the reader, who has the home's older line already, and home.
#[test]
fn newer_line_is_read(rt: HostRuntime) -> Result<(), Fail> {
    let mut cache = cache_with(&rt, rt.alloc(), Some(Mode::Dirty))?;
    let mut read = Request::issue(Want::Read, BLOCK);
    let mut out = Outbox::empty();
    let speculative = Kind::SpecReply {
        block: BLOCK,
        line: Line::zero(),
    };
    assert!(rt; received(&rt, &mut read, &speculative) == Outcome::Waiting);
    if cache.look(BLOCK) != Some(Mode::Shared) {
        intervene(&mut cache, BLOCK, Held::Shared(1), &mut out);
    }
    let filled = Outcome::Filled {
        mode: Mode::Shared,
        line: Some(line()),
    };
    assert!(rt; received(&rt, &mut read, &letter_to(&rt, &out, 1)) == filled);
    Ok(())
}

// An intervention comes before the grant that it follows: it is held, and answered with what was stored.
#[test]
fn held_intervention_is_answered(rt: HostRuntime) -> Result<(), Fail> {
    let mut cache = cache_with(&rt, rt.alloc(), None)?;
    let mut write = Request::issue(Want::ReadEx, BLOCK);
    let mut out = Outbox::empty();
    assert!(rt; write.held().is_none());
    write.hold(Held::Shared(0));
    let grant = Kind::ExclusiveReply {
        block: BLOCK,
        line: Line::zero(),
        acks: 0,
    };
    if let Outcome::Filled {
        mode,
        line: Some(granted),
    } = received(&rt, &mut write, &grant)
    {
        assert!(rt; cache.look(BLOCK).is_none());
        assert!(rt; cache.has_room(BLOCK));
        cache.fill(BLOCK, mode, &granted);
    }
    assert_eq!(rt; cache.look(BLOCK), Some(Mode::Dirty));
    assert!(rt; cache.look(BLOCK).is_some());
    *cache.line_mut(BLOCK) = line();
    let held = write.held().expect(&rt, "held");
    if cache.look(BLOCK) != Some(Mode::Shared) {
        intervene(&mut cache, BLOCK, held, &mut out);
    }
    let block = BLOCK;
    let expected = [
        (
            0,
            Kind::SharedResponse {
                block,
                line: line(),
            },
        ),
        (
            HOME,
            Kind::SharingWriteBack {
                block,
                line: line(),
            },
        ),
    ];
    assert!(rt; has_letters(&out, &expected));
    assert_eq!(rt; cache.look(BLOCK), Some(Mode::Shared));
    Ok(())
}
