//! The storm: a run that is told in one line.

ghost use Rattle.std.specs.Prelude.{◌≡◌, ◌%◌, ◌^◌, ◌≤◌, List, length};
ghost use Rattle.og_runs.specs.declared.Event.{Event};
ghost use Rattle.og_msg.specs.declared.Note.{Note};
ghost use Rattle.og_driver.specs.Tallied.{moves_of};
ghost use Rattle.og_machine.specs.Machine.{is_quiet};
ghost use Rattle.og_engine.specs.Kept.{machine_of, WasMade};
ghost use Rattle.og_print.specs.Runs.{TextEnds};
ghost use Rattle.og_print.specs.Storm.{StormEnds, LineEnds, answer_of, line_sum as sum_of_line, storm_sum as sum_of_storm, storm_line, quiet_end, limit_end, storm_text};

use crate::RunFault;
use crate::place::place_machine;
use itoa::Buffer;
use og_base::{Settings, VPage};
use og_driver::{Tally, survey};
use og_engine::Machine;
use og_image::storm_image;
use og_io::{Sink, SinkFault, write_parts};
use og_line::Line;
use std::alloc::Global;

/// The first page of the storm's data.
const FIRST_PAGE: u64 = 256;

/// How many blocks its data have.
const BLOCKS: u16 = 256;

/// The sum of the 16 doublewords of a line, modulo 2^64.
fn line_sum(line: &Line) -> u64
    ensures { result ≡ sum_of_line 16 line.now % 2 ^ 64 }
{
    let mut sum = 0_u64;
    for at in 0..16 {
        sum = sum.wrapping_add(line.load(8 * at, 8));
    }
    sum
}

/// The sum of the storm's 4,096 doublewords, modulo 2^64, by the lines that the machine holds.
fn storm_sum(machine: &Machine) -> u64
    requires { WasMade machine.now }
    ensures { result ≡ sum_of_storm (machine_of machine.now) }
{
    let mut sum = 0_u64;
    for block in 0..BLOCKS {
        let page = VPage(FIRST_PAGE + u64::from(block / 32));
        if let Some(line) = machine.line(page, (block % 32) as u8) {
            sum = sum.wrapping_add(line_sum(&line));
        }
    }
    sum
}

/// Writes the line of a storm that ended quiet.
fn write_quiet<K: Sink>(
    nodes: u8,
    loops: u16,
    sum: u64,
    tally: Tally,
    out: &mut K,
) -> Result<(), SinkFault>
    ensures { LineEnds (storm_line nodes loops (quiet_end sum tally.moves tally.events)) (K.seen out.old) (K.seen out.new) result }
{
    let mut first = Buffer::new();
    let mut second = Buffer::new();
    let mut third = Buffer::new();
    let mut fourth = Buffer::new();
    let mut fifth = Buffer::new();
    let nodes = first.format(nodes).as_bytes();
    let loops = second.format(loops).as_bytes();
    let sum = third.format(sum).as_bytes();
    let moves = fourth.format(tally.moves).as_bytes();
    let count = fifth.format(tally.events).as_bytes();
    write_parts(
        out,
        &[
            b"storm ",
            nodes,
            b" ",
            loops,
            b" sum ",
            sum,
            b" moves ",
            moves,
            b" events ",
            count,
            b"\n",
        ],
    )
}

/// Writes the line of a storm that came to its limit.
fn write_limit<K: Sink>(nodes: u8, loops: u16, count: u32, out: &mut K) -> Result<(), SinkFault>
    ensures { LineEnds (storm_line nodes loops (limit_end count)) (K.seen out.old) (K.seen out.new) result }
{
    let mut first = Buffer::new();
    let mut second = Buffer::new();
    let mut third = Buffer::new();
    let nodes = first.format(nodes).as_bytes();
    let loops = second.format(loops).as_bytes();
    let count = third.format(count).as_bytes();
    write_parts(
        out,
        &[b"storm ", nodes, b" ", loops, b" limit ", count, b"\n"],
    )
}

/// Writes the line of a storm whose run has ended, by the tally of its events, and answers whether it ended quiet.
fn write_storm<K: Sink>(
    nodes: u8,
    loops: u16,
    machine: &Machine,
    tally: Tally,
    out: &mut K,
) -> Result<bool, RunFault>
    requires { WasMade machine.now }
    ensures { (events : List (Event Note)) → tally.events ≡ length events → tally.moves ≡ moves_of events → TextEnds (storm_text nodes loops (machine_of machine.now, events)) (is_quiet (machine_of machine.now)) (K.seen out.old) (K.seen out.new) result }
{
    if machine.quiet() {
        let sum = storm_sum(machine);
        return answer(write_quiet(nodes, loops, sum, tally, out), true);
    }
    answer(write_limit(nodes, loops, tally.events, out), false)
}

/// The answer to how the writing of a line ended.
fn answer(written: Result<(), SinkFault>, quiet: bool) -> Result<bool, RunFault>
    ensures { result ≡ answer_of written quiet }
{
    match written {
        Ok(()) => Ok(quiet),
        Err(SinkFault::Failed) => Err(RunFault::Unwritten),
        Err(SinkFault::Memory) => Err(RunFault::Memory),
    }
}

/// Simulates the storm of a number, of so many loops of each hart, for so many events at most; writes its line, and answers whether it
/// ended quiet. Its events are counted and not kept, so that its memory doesn't grow.
pub fn print_storm<K: Sink>(
    alloc: Global,
    number: u64,
    settings: &Settings,
    loops: u16,
    most: u32,
    out: &mut K,
) -> Result<bool, RunFault>
    requires { (1 ≤ loops) × (loops ≤ 2047) }
    ensures { StormEnds number loops settings.now most (K.seen out.old) (K.seen out.new) result }
{
    let image = storm_image(alloc, number, loops, settings.nodes)?;
    let mut machine = place_machine(alloc, &image, settings)?;
    let tally = survey(&image, &mut machine, number, most);
    write_storm(settings.nodes, loops, &machine, tally, out)
}
