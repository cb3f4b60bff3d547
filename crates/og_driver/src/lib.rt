//! A machine driven from its start: by the choices that are drawn from a number, or by choices that are given.
//!
//! Below stand the machine in code (`og_engine`), draws (`og_draws`), and what is claimed of every run that is printed
//! (`og_headline`); above stand the commands. Events are kept in the order in which they are made, and sorted once, by stamp, at the
//! end. An event takes no memory but its place in the list of events, and none where events are only counted.
#![tactic(auto)]

ghost use Rattle.std.specs.Prelude.{◌≡◌, ℕ, ◌+◌, ◌<◌, ◌^◌, ◌++◌, ◌∷◌, [], length, true, false, None, Some, Err, IfOk, OnOk, if◌then◌else◌};
ghost use Rattle.og_draws.specs.Draws.{after};
ghost use Rattle.og_machine.specs.Machine.{is_quiet};
ghost use Rattle.og_machine.specs.Choices.{next_choice as next_choice_of};
ghost use Rattle.og_refine.specs.Laws.{RunsTo};
ghost use Rattle.og_headline.specs.Headline.{IsSimulation, IsReplay, IsRefused, drawn};
ghost use Rattle.og_engine.specs.Kept.{machine_of, setup_in, IsMade};
ghost use Rattle.og_runs.specs.declared.Event.{Event};
ghost use Rattle.og_msg.specs.declared.Note.{Note};
ghost use Rattle.og_driver.specs.Driven.{IsAtStart, IsDrawing, IsNextEvent};
ghost use Rattle.og_driver.specs.Tallied.{is_move, moves_of, IsNextTallied};

use og_base::{Choice, NoMemory, NotEnabled};
use og_draws::Draws;
use og_engine::Machine;
use og_image::Image;
use og_msg::{Event, Note};
use og_runs::sort_events;
use std::alloc::Global;

/// The events of a run in the order of their stamps, and whether it ended quiet.
#[derive(Drop)]
pub struct Run {
    pub events: Vec<Event>,
    pub quiet: bool,
}

/// Why choices aren't all made.
#[derive(Clone, Copy, PartialEq, Eq, Debug)]
pub enum Unmade {
    /// The choice at this place, from 0, isn't enabled, for this reason.
    Refused { at: usize, cause: NotEnabled },
    /// Want of memory.
    Memory,
}

impl From<NoMemory> for Unmade {
    ghost use Rattle.std.specs.Prelude.{◌≡◌};
    ghost use Rattle.og_driver.specs.declared.Unmade.TheVariants.{Memory};

    ghost from_gives = { λ _ e. e ≡ Memory };

    fn from(_: NoMemory) -> Unmade {
        Unmade::Memory
    }
}

/// The next choice of a simulation: while a hart isn't stopped the one that is drawn, afterwards the drain's. A word is drawn for
/// each event, also for one of the drain, which doesn't need it.
fn next_choice(image: &Image, machine: &Machine, draws: &mut Draws) -> Choice
    requires made { IsMade image.now machine.now }
    requires unquiet { is_quiet (machine_of machine.now) ≡ false }
    ensures next { (number k : ℕ) → draws.old ≡ after number k → next_choice_of (setup_in image.now machine.now) number k (machine_of machine.now) ≡ Some result }
    ensures draws { (number k : ℕ) → draws.old ≡ after number k → draws.new ≡ after number (k + 1) }
{
    if machine.stopped() {
        let _unused = draws.next_choice(1);
        return match machine.drain_next() {
            Some(choice) => choice,
            None => unreachable!(),
        };
    }
    let count = machine.enabled_count(image);
    machine.enabled(image, draws.next_choice(count))
}

/// The next event of a simulation, None exactly where the machine is quiet.
fn next_event(image: &Image, machine: &mut Machine, draws: &mut Draws) -> Option<Event>
    requires made { IsMade image.now machine.old }
    requires young { machine.old.events < 2 ^ 55 }
    requires drawing { IsDrawing draws.old }
    ensures ended { result ≡ None → is_quiet (machine_of machine.old) ≡ true × machine.new ≡ machine.old }
    ensures made { (event : Event Note) → result ≡ Some event → IsNextEvent image.now machine.old machine.new draws.old draws.new event }
{
    if machine.quiet() {
        return None;
    }
    let choice = next_choice(image, machine, draws);
    match machine.step(image, choice) {
        Ok(event) => Some(event),
        Err(_) => unreachable!(),
    }
}

/// Makes events from a machine's start on, until it is quiet or `most` were made: the choices are those that are drawn from the number,
/// and once each hart has stopped those of the drain. They stand in the order in which they were made.
pub fn advance(
    alloc: Global,
    image: &Image,
    machine: &mut Machine,
    number: u64,
    most: u32,
) -> Result<Vec<Event>, NoMemory>
    requires start { IsAtStart image.now machine.old }
    ensures drawn { IfOk result (λ events. (machine_of machine.new, events.items) ≡ drawn (setup_in image.now machine.old) number most) }
    ensures settings { machine.new.settings ≡ machine.old.settings }
    ensures made { IsMade image.now machine.new }
{
    let mut events = Vec::new(alloc);
    let mut draws = Draws::of_number(number);
    for made in 0..most {
        match next_event(image, machine, &mut draws) {
            Some(event) => events.push(event)?,
            None => return Ok(events),
        }
    }
    Ok(events)
}

/// How many events were made, and how many of them noted that a page was moved.
#[derive(Clone, Copy, PartialEq, Eq, Debug)]
pub struct Tally {
    pub events: u32,
    pub moves: u32,
}

/// How many moves an event noted: one or none.
fn moves_noted(note: &Option<Note>) -> u32
    ensures { result ≡ (if is_move note.now then 1 else 0) }
{
    match note {
        Some(Note::Moved { .. }) => 1,
        _ => 0,
    }
}

/// Makes the next event of a simulation, of a machine that isn't quiet, and tells how many moves it noted.
fn next_moves(image: &Image, machine: &mut Machine, draws: &mut Draws) -> u32
    requires made { IsMade image.now machine.old }
    requires young { machine.old.events < 2 ^ 55 }
    requires drawing { IsDrawing draws.old }
    requires unquiet { is_quiet (machine_of machine.old) ≡ false }
    ensures { IsNextTallied image.now machine.old machine.new draws.old draws.new result }
{
    let choice = next_choice(image, machine, draws);
    match machine.step(image, choice) {
        Ok(event) => moves_noted(&event.note),
        Err(_) => unreachable!(),
    }
}

/// Makes the same events as [`advance`], and counts them. It takes no memory.
pub fn survey(image: &Image, machine: &mut Machine, number: u64, most: u32) -> Tally
    requires start { IsAtStart image.now machine.old }
    ensures end { machine_of machine.new ≡ (drawn (setup_in image.now machine.old) number most).0 }
    ensures events { result.events ≡ length (drawn (setup_in image.now machine.old) number most).1 }
    ensures moves { result.moves ≡ moves_of (drawn (setup_in image.now machine.old) number most).1 }
    ensures made { IsMade image.now machine.new }
{
    let mut moves = 0;
    let mut draws = Draws::of_number(number);
    for events in 0..most {
        if !machine.quiet() {
            moves += next_moves(image, machine, &mut draws);
        } else {
            return Tally { events, moves };
        }
    }
    Tally {
        events: most,
        moves,
    }
}

/// The run that a simulation makes from a machine's start on, of `most` events at most. It ends where the machine is quiet.
pub fn simulate(
    alloc: Global,
    image: &Image,
    machine: &mut Machine,
    number: u64,
    most: u32,
) -> Result<Run, NoMemory>
    requires start { IsAtStart image.now machine.old }
    ensures run { IfOk result (λ run. IsSimulation (setup_in image.now machine.old) number most run.events.items run.quiet) }
    ensures made { IsMade image.now machine.new }
{
    let mut events = advance(alloc, image, machine, number, most)?;
    sort_events(&mut events)?;
    Ok(Run {
        events,
        quiet: machine.quiet(),
    })
}

/// Puts an event at the end of the list.
fn keep(events: &mut Vec<Event>, event: Event) -> Result<(), NoMemory>
    ensures { OnOk result (events.new.items ≡ events.old.items ++ event ∷ []) }
{
    events.push(event)?;
    Ok(())
}

/// Makes the choices, in their order, from a machine's start on. Their events stand in this order.
fn follow(
    alloc: Global,
    image: &Image,
    machine: &mut Machine,
    choices: &[Choice],
) -> Result<Vec<Event>, Unmade>
    requires start { IsAtStart image.now machine.old }
    requires few { length choices.now < 2 ^ 55 }
    ensures run { IfOk result (λ events. RunsTo (setup_in image.now machine.old) choices.now (machine_of machine.new) events.items) }
    ensures refused { (at : ℕ) (cause : NotEnabled) → result ≡ Err (Unmade.Refused at cause) → IsRefused (setup_in image.now machine.old) choices.now at cause }
    ensures made { IsMade image.now machine.new }
{
    let mut events = Vec::new(alloc);
    for at in 0..choices.len() {
        match machine.step(image, choices[at]) {
            Ok(event) => keep(&mut events, event)?,
            Err(cause) => return Err(Unmade::Refused { at, cause }),
        }
    }
    Ok(events)
}

/// The run of the choices, from a machine's start on; or the place of the first that isn't enabled.
pub fn replay(
    alloc: Global,
    image: &Image,
    machine: &mut Machine,
    choices: &[Choice],
) -> Result<Run, Unmade>
    requires start { IsAtStart image.now machine.old }
    requires few { length choices.now < 2 ^ 55 }
    ensures run { IfOk result (λ run. IsReplay (setup_in image.now machine.old) choices.now run.events.items run.quiet) }
    ensures refused { (at : ℕ) (cause : NotEnabled) → result ≡ Err (Unmade.Refused at cause) → IsRefused (setup_in image.now machine.old) choices.now at cause }
    ensures made { IsMade image.now machine.new }
{
    let mut events = follow(alloc, image, machine, choices)?;
    sort_events(&mut events)?;
    Ok(Run {
        events,
        quiet: machine.quiet(),
    })
}
