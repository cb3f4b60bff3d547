//! How a run that began in threads is finished: on the machine in code, with no thread and no wait.
//!
//! Below stand the machine in code (`og_engine`), what is claimed of every run that is printed (`og_headline`), the end of the drain
//! (`og_drain_ends`), draws (`og_draws`), and runs that are driven by one number or by given choices (`og_driver`). Above stands the
//! command that runs the actors in threads: it merges their logs, and gives the merged events to [`finish_run`].
//!
//! A run has three parts. First come the choices of the merged events, which make just these events; then, while a hart isn't stopped
//! and events may still be made, choices that are drawn from the number 1; last, once each hart has stopped, the drain to its end,
//! however many events that takes. `specs/Finish` says so; `specs/Parts` says what one event and one part add to a list of events.
#![tactic(auto)]

ghost use Rattle.std.specs.Prelude.{◌≡◌, ◌+◌, ◌<◌, ◌≤◌, ◌^◌, [], true, length, None, IfOk, OnOk};
ghost use Rattle.og_runs.specs.Runs.{choices};
ghost use Rattle.og_machine.specs.Machine.{refusal_of, is_stopped, is_quiet};
ghost use Rattle.og_refine.specs.Laws.{RunsTo};
ghost use Rattle.og_drain_ends.specs.Laws.{drain_most as drain_bound_of};
ghost use Rattle.og_engine.specs.Kept.{machine_of, setup_in, IsMade};
ghost use Rattle.og_driver.specs.Driven.{IsAtStart};
ghost use Rattle.og_finish.specs.Finish.{IsRun, IsThreadRun, drawn_after, drain_of_all};
ghost use Rattle.og_finish.specs.Laws.{ThreadRunsAreOne};
ghost use Rattle.og_finish.specs.Parts.{Makes, Adds, IsFinished};

use og_base::{Choice, NoMemory};
use og_draws::Draws;
use og_driver::Run;
use og_engine::Machine;
use og_image::Image;
use og_msg::Event;
use og_runs::sort_events;
use std::alloc::Global;

/// The number that choices are drawn from after the merged ones.
const NUMBER: u64 = 1;

/// Makes an event by a choice that isn't refused, and puts it at the end of the list.
fn make(
    image: &Image,
    machine: &mut Machine,
    choice: Choice,
    events: &mut Vec<Event>,
) -> Result<(), NoMemory>
    requires made { IsMade image.now machine.old }
    requires young { machine.old.events < 2 ^ 55 }
    requires free { refusal_of (setup_in image.now machine.old) (machine_of machine.old) choice ≡ None }
    ensures makes { OnOk result (Makes (setup_in image.now machine.old) choice machine.old machine.new events.old.items events.new.items) }
    ensures settings { machine.new.settings ≡ machine.old.settings }
    ensures stays_made { IsMade image.now machine.new }
{
    match machine.step(image, choice) {
        Ok(event) => events.push(event)?,
        Err(_) => unreachable!(),
    }
    Ok(())
}

/// Makes the choices of the merged events, from a machine's start on: they make just these events.
fn begin(
    alloc: Global,
    image: &Image,
    machine: &mut Machine,
    merged: &[Event],
) -> Result<Vec<Event>, NoMemory>
    requires start { IsAtStart image.now machine.old }
    requires run { IsRun (setup_in image.now machine.old) merged.now }
    requires few { length merged.now < 2 ^ 32 }
    ensures same { IfOk result (λ events. events.items ≡ merged.now) }
    ensures reached { OnOk result (RunsTo (setup_in image.now machine.old) (choices merged.now) (machine_of machine.new) merged.now) }
    ensures counted { OnOk result (machine.new.events ≡ length merged.now) }
    ensures settings { machine.new.settings ≡ machine.old.settings }
    ensures stays_made { IsMade image.now machine.new }
{
    let mut events = Vec::new(alloc);
    for at in 0..merged.len() {
        make(image, machine, merged[at].choice, &mut events)?;
    }
    Ok(events)
}

/// Makes so many drawn choices at most, while a hart isn't stopped.
fn draw(
    image: &Image,
    machine: &mut Machine,
    most: u32,
    events: &mut Vec<Event>,
) -> Result<(), NoMemory>
    requires made { IsMade image.now machine.old }
    requires young { machine.old.events < 2 ^ 32 }
    ensures drawn { OnOk result (Adds (drawn_after (setup_in image.now machine.old) most (machine_of machine.old)) (machine_of machine.new) events.old.items events.new.items) }
    ensures counted { OnOk result (machine.new.events ≤ machine.old.events + most) }
    ensures settings { machine.new.settings ≡ machine.old.settings }
    ensures stays_made { IsMade image.now machine.new }
{
    let mut draws = Draws::of_number(NUMBER);
    for drawn in 0..most {
        if machine.stopped() {
            return Ok(());
        }
        let count = machine.enabled_count(image);
        let choice = machine.enabled(image, draws.next_choice(count));
        make(image, machine, choice, events)?;
    }
    Ok(())
}

/// How many events the drain makes at most.
fn drain_bound(image: &Image, machine: &Machine) -> u64
    requires made { IsMade image.now machine.now }
    ensures bound { result ≡ drain_bound_of (setup_in image.now machine.now) (machine_of machine.now) }
    ensures few { result < 2 ^ 50 }
{
    64 * (32 + u64::from(machine.in_flight())) * (u64::from(image.nodes()) + 4)
}

/// The drain of a machine whose harts have all stopped, to its end: it is quiet then.
fn drain(image: &Image, machine: &mut Machine, events: &mut Vec<Event>) -> Result<(), NoMemory>
    requires made { IsMade image.now machine.old }
    requires young { machine.old.events < 2 ^ 34 }
    requires stopped { is_stopped (machine_of machine.old) ≡ true }
    ensures drained { OnOk result (Adds (drain_of_all (setup_in image.now machine.old) (machine_of machine.old)) (machine_of machine.new) events.old.items events.new.items) }
    ensures quiet { OnOk result (is_quiet (machine_of machine.new) ≡ true) }
    ensures settings { machine.new.settings ≡ machine.old.settings }
    ensures stays_made { IsMade image.now machine.new }
{
    let most = drain_bound(image, machine);
    for drained in 0..most {
        match machine.drain_next() {
            Some(choice) => make(image, machine, choice, events)?,
            None => return Ok(()),
        }
    }
    Ok(())
}

/// The events of all three parts, in the order in which they are made.
fn make_all(
    alloc: Global,
    image: &Image,
    machine: &mut Machine,
    merged: &[Event],
    most: u32,
) -> Result<Vec<Event>, NoMemory>
    requires start { IsAtStart image.now machine.old }
    requires run { IsRun (setup_in image.now machine.old) merged.now }
    requires few { length merged.now ≤ most }
    ensures finished { IfOk result (λ events. IsFinished (setup_in image.now machine.old) most merged.now (machine_of machine.new) events.items) }
    ensures stays_made { IsMade image.now machine.new }
{
    let mut events = begin(alloc, image, machine, merged)?;
    draw(image, machine, most - merged.len() as u32, &mut events)?;
    if !machine.stopped() {
        return Ok(events);
    }
    drain(image, machine, &mut events)?;
    Ok(events)
}

/// The run that begins with the merged events, from a machine's start on. While a hart isn't stopped it goes on by draws, to `most`
/// events at most; once each has stopped it is drained, and quiet.
pub fn finish_run(
    alloc: Global,
    image: &Image,
    machine: &mut Machine,
    merged: &[Event],
    most: u32,
) -> Result<Run, NoMemory>
    requires start { IsAtStart image.now machine.old }
    requires run { IsRun (setup_in image.now machine.old) merged.now }
    requires few { length merged.now ≤ most }
    ensures run { IfOk result (λ run. IsThreadRun (setup_in image.now machine.old) most merged.now run.events.items run.quiet) }
    ensures made { IsMade image.now machine.new }
{
    let mut events = make_all(alloc, image, machine, merged, most)?;
    sort_events(&mut events)?;
    Ok(Run {
        events,
        quiet: machine.quiet(),
    })
}

/// The merged events, and how many events may be made, decide the whole run.
pub fn thread_runs_are_one()
    ensures { ThreadRunsAreOne }
{}
