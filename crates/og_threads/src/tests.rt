ghost use Rattle.std.specs.Prelude.{◌≡◌, ◌+◌, ◌*◌, ◌<◌, ◌≤◌, ◌^◌, ◌∷◌, [], length, IfOk};
ghost use Rattle.og_fabric.specs.Shown.{AreNew};
ghost use Rattle.og_actors.specs.Rounds.{AreInTurn};
ghost use Rattle.og_threads.specs.Threads.{Plays, actors_of};

use super::*;
use crate::part::MachinePart;
use og_actors::actor::Actor;
use og_actors::rounds::Rounds;
use og_actors::{NoGate, Turn};
use og_elf::read_raw;
use og_fabric::{Fabric, Gathered, Seat};
use og_runs::{Choice, MsgId};
use std::test::Fail;

/// Settings that suit a small program on so many nodes.
fn settings(nodes: u8) -> Settings
    requires { (1 ≤ nodes) × (nodes ≤ 128) }
    ensures { result.nodes ≡ nodes }
{
    Settings {
        nodes,
        frames: 64,
        sets: 64,
        ways: 2,
        tlb: 8,
        instructions: 1_000_000,
        trigger: 64,
        sharing: 32,
        moves: 4,
        reset: 1024,
    }
}

/// A program loaded from a raw file, for so many nodes.
fn program(alloc: Global, file: &[u8], nodes: u8) -> Result<Image, Fail>
    requires { 1 ≤ nodes }
    ensures { IfOk result (λ image. image.nodes ≡ nodes) }
{
    let elf = read_raw(alloc, file)?;
    Ok(Image::make(alloc, elf, nodes)?)
}

// Each of sixteen nodes jumps to itself once; the mover has nothing to do.
#[test]
fn each_node_acts_once(rt: HostRuntime) -> Result<(), Fail> {
    let image = program(rt.alloc(), &[4, 0, 0, 0, 0x6f, 0, 0, 0], 16)?;
    let settings = settings(16);
    let Ok(_) = Layout::make(rt.alloc(), &image, &settings) else {
        return Err(Fail::from("frames"));
    };
    let ran = run_in_threads(&rt, rt.alloc(), &image, &settings, &NoGate, 1, 1)?;
    assert_eq!(rt; ran.logs.len(), 17);
    for (number, log) in ran.logs.iter().enumerate() {
        assert_eq!(rt; log.events.len(), if number < 16 { 1 } else { 0 });
        for event in &log.events {
            assert_eq!(rt; event.choice, Choice::Act(number as u8));
        }
    }
    assert_eq!(rt;
        (ran.rounds, ran.events.len(), ran.left.len()),
        (
            Rounds::Spent {
                events: 16,
                idle: 1
            },
            16,
            0
        )
    );
    Ok(())
}

/// The fabric of a machine.
type Queue<M> = Fabric<Player, Kind, Note, OfMachine<M>>;

/// An actor of a machine at its seat.
type Seated<'a, M> = Actor<Player, Kind, Note, OfMachine<M>, MachinePart<'a, M>>;

/// The node and the mover of a machine of one node, neither of which has moved.
fn two_of<'a, M: Machines>(
    alloc: Global,
    players: &Players<'a, M>,
    fabric: &Queue<M>,
    seats: Vec<Seat<Kind>>,
) -> Result<(Seated<'a, M>, Seated<'a, M>), NoMemory>
    requires new { AreNew fabric.now 0 seats.items }
    requires seats { length seats.items ≡ 2 }
    requires two { actors_of M.setup ≡ 2 }
    ensures seated { IfOk result (λ r. AreInTurn fabric.now 0 (r.0 ∷ r.1 ∷ [])) }
    ensures new { IfOk result (λ r. (r.0.made + r.0.idle ≡ 0) × (r.1.made + r.1.idle ≡ 0)) }
{
    let mut actors = whole::make_all(alloc, players, fabric, seats)?;
    let Some(mover) = actors.pop() else {
        unreachable!()
    };
    let Some(node) = actors.pop() else {
        unreachable!()
    };
    Ok((node, mover))
}

/// One turn of an actor, which keeps its place and counts the turn.
fn turn<M: Machines, R: Wait>(rt: &R, actor: &mut Seated<'_, M>, fabric: &Queue<M>) -> Turn
    requires table { actor.old.table ≡ fabric.now }
    requires turns { actor.old.made + actor.old.idle < M.most }
    requires few { (M.most < 2 ^ 40) × (actors_of M.setup * M.most < 2 ^ 60) }
    ensures table { actor.new.table ≡ actor.old.table }
    ensures actor { actor.new.actor ≡ actor.old.actor }
    ensures turns { actor.new.made + actor.new.idle ≡ actor.old.made + actor.old.idle + 1 }
{
    actor.turn(rt, fabric)
}

/// Three turns of the node and two of the mover, without threads: what each answers, and what is gathered after them.
fn play<M: Machines, R: Wait>(
    rt: &R,
    alloc: Global,
    image: &Image,
    layout: &Layout,
    settings: &Settings,
) -> Result<([Turn; 5], Gathered<Kind, Note>), NoMemory>
    requires plays { Plays M.setup M.most image.now }
    requires setup { M.setup ≡ record { image = image.now; layout = layout.now; settings = settings.now } }
    requires one { settings.now.nodes ≡ 1 }
    requires most { M.most ≡ 5 }
{
    let (fabric, seats) = Queue::<M>::make(alloc, room(settings) as usize, 2)?;
    let players = Players::<M> {
        image,
        layout,
        settings,
        of: PhantomData,
    };
    let (mut node, mut mover) = two_of(alloc, &players, &fabric, seats)?;
    let turns = [
        turn(rt, &mut node, &fabric),
        turn(rt, &mut node, &fabric),
        turn(rt, &mut node, &fabric),
        turn(rt, &mut mover, &fabric),
        turn(rt, &mut mover, &fabric),
    ];
    if !node.is_whole() || !mover.is_whole() {
        return Err(AllocError);
    }
    let mut posted = Vec::new(alloc);
    posted.push(node.post(&fabric))?;
    posted.push(mover.post(&fabric))?;
    Ok((turns, fabric.gather(rt, alloc, posted)?))
}

// The node sends its walk in its third act; the mover takes it and answers, and then puts its answer back.
#[test]
fn a_walk_by_hand(rt: HostRuntime) -> Result<(), Fail> {
    let text = [
        0x1c, 0, 0, 0, 0xb7, 0x05, 0x10, 0x00, 0x13, 0x06, 0xa0, 0x02, 0x23, 0xa0, 0xc5, 0x00,
        0x83, 0xa6, 0x05, 0x00, 0x93, 0x08, 0xd0, 0x05, 0x13, 0x05, 0x00, 0x00, 0x73, 0x00, 0x00,
        0x00,
    ];
    let image = program(rt.alloc(), &text, 1)?;
    let settings = settings(1);
    let Ok(layout) = Layout::make(rt.alloc(), &image, &settings) else {
        return Err(Fail::from("frames"));
    };
    image.stays_loadable();
    let (turns, Gathered { logs, left }) = play::<Brand, HostRuntime>(
        &rt,
        rt.alloc(),
        &image,
        &layout,
        &settings,
    )?;
    assert_eq!(rt;
        turns,
        [
            Turn::Event,
            Turn::Event,
            Turn::Event,
            Turn::Event,
            Turn::Idle
        ]
    );
    assert_eq!(rt; (logs.len(), left.len()), (2, 1));
    let log = &logs[1];
    assert_eq!(rt; log.events.len(), 1);
    let first = MsgId { sender: 0, seq: 0 };
    assert_eq!(rt; log.events[0].choice, Choice::Take(1, first));
    Ok(())
}
