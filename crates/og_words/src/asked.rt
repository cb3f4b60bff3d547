//! From the options and the command's own words to the job.

ghost use Rattle.std.specs.Prelude.{◌≡◌, ◌≤◌, ◌*◌, ◌+◌, nat_le, IfOk, IfSome, option_map};
ghost use Rattle.og_base.specs.Settings.{settings_seen};
ghost use Rattle.og_words.specs.Words.{IsWithin, number_of as number_chosen, given_of as given_in, given_seen, job_seen, settings_of as settings_with, one_of as one_in, two_of as two_in, job_in as job_asked, simulate_job, run_job, replay_job, storm_job, assemble_job, disassemble_job, command_job as job_of_command, default_rounds as usual_rounds, turns_of_round as turns_in_round};
ghost use Rattle.og_words.specs.Reading.{reading_seen, chosen_seen, word_seen, IsJob};

use crate::command::{Command, Named};
use crate::job::{Given, Job};
use crate::number::number_in;
use crate::reading::{Chosen, Reading};
use og_base::{MOST_FRAMES, Settings};
use std::alloc::{AllocError, Global};

/// A job, None where the words are refused.
type Asked = Result<Option<Job>, AllocError>;

/// The number of an option: `Some(None)` where the option isn't chosen, None where its value is no
/// number of this range.
fn number_of(option: Named, low: u64, high: u64, chosen: &Chosen<'_>) -> Option<Option<u64>>
    ensures value { result ≡ number_chosen option low high (chosen_seen chosen.now) }
    ensures in_range { IfSome result (λ o. IfSome o (λ n. (low ≤ n) × (n ≤ high))) }
{
    match chosen.value_of(option) {
        None => Some(None),
        Some(value) => Some(Some(number_in(value, low, high)?)),
    }
}

/// The same for a range of small numbers.
fn small_of(option: Named, low: u32, high: u32, chosen: &Chosen<'_>) -> Option<Option<u32>>
    ensures value { result ≡ number_chosen option low high (chosen_seen chosen.now) }
    ensures in_range { IfSome result (λ o. IfSome o (λ n. (low ≤ n) × (n ≤ high))) }
{
    match number_of(option, u64::from(low), u64::from(high), chosen)? {
        None => Some(None),
        Some(number) => Some(Some(number as u32)),
    }
}

/// The settings that are chosen: None where one has a value that is no number of its range.
fn given_of(chosen: &Chosen<'_>) -> Option<Given>
    ensures { option_map given_seen result ≡ given_in (chosen_seen chosen.now) }
{
    Some(Given {
        nodes: small_of(Named::Nodes, 1, 128, chosen)?,
        frames: small_of(Named::Frames, 2, 1024, chosen)?,
        sets: small_of(Named::Sets, 1, 1024, chosen)?,
        ways: small_of(Named::Ways, 1, 8, chosen)?,
        tlb: small_of(Named::Tlb, 1, 64, chosen)?,
        instructions: small_of(Named::Instructions, 0, 1_000_000, chosen)?,
        trigger: small_of(Named::Trigger, 1, 1_000_000, chosen)?,
        sharing: small_of(Named::Sharing, 1, 1_000_000, chosen)?,
        moves: small_of(Named::Moves, 0, 1_000_000, chosen)?,
        reset: small_of(Named::Reset, 1, 1_000_000, chosen)?,
    })
}

/// The settings of a run: what isn't given has its default.
fn settings_of(given: &Given) -> Option<Settings>
    ensures { option_map settings_seen result ≡ settings_with (given_seen given.now) }
{
    let nodes = given.nodes.unwrap_or(1);
    let frames = given.frames.unwrap_or(64);
    if nodes * frames > MOST_FRAMES {
        return None;
    }
    Some(Settings {
        nodes: nodes as u8,
        frames: frames as u16,
        sets: given.sets.unwrap_or(64) as u16,
        ways: given.ways.unwrap_or(2) as u8,
        tlb: given.tlb.unwrap_or(8) as u8,
        instructions: given.instructions.unwrap_or(1_000_000),
        trigger: given.trigger.unwrap_or(64),
        sharing: given.sharing.unwrap_or(32),
        moves: given.moves.unwrap_or(4),
        reset: given.reset.unwrap_or(1024),
    })
}

/// The command's own word where there is just one.
fn one_of<'a>(reading: &Reading<'a>) -> Option<&'a str>
    ensures { word_seen result ≡ one_in (reading_seen reading.now).first (reading_seen reading.now).second }
{
    match (reading.first, reading.second) {
        (Some(word), None) => Some(word),
        _ => None,
    }
}

/// The command's own words where there are two.
fn two_of<'a>(reading: &Reading<'a>) -> Option<(&'a str, &'a str)>
    ensures { option_map (λ p. (p.0.now, p.1.now)) result ≡ two_in (reading_seen reading.now).first (reading_seen reading.now).second }
{
    match (reading.first, reading.second) {
        (Some(first), Some(second)) => Some((first, second)),
        _ => None,
    }
}

fn simulate(alloc: Global, reading: &Reading<'_>, settings: Settings) -> Asked
    ensures job { IsJob (simulate_job (reading_seen reading.now) (settings_seen settings)) result }
    ensures within { IfOk result (λ asked. IfSome asked (λ job. IsWithin (job_seen job))) }
{
    let Some(image) = one_of(reading) else {
        return Ok(None);
    };
    let Some(draw) = number_of(Named::Draw, 0, u64::MAX, &reading.chosen) else {
        return Ok(None);
    };
    let Some(events) = small_of(Named::Events, 0, 4_000_000, &reading.chosen) else {
        return Ok(None);
    };
    let image = String::from_str(alloc, image)?;
    Ok(Some(Job::Simulate {
        image,
        raw: reading.raw,
        settings,
        draw: draw.unwrap_or(1),
        events: events.unwrap_or(1_000_000),
    }))
}

/// How many turns of all actors a round has.
fn turns_of_round(nodes: u8, turns: u32) -> u32
    requires { turns ≤ 1000 }
    ensures { result ≡ turns_in_round nodes turns }
{
    turns * (u32::from(nodes) + 1)
}

/// How many rounds are made where no word says so.
fn default_rounds(nodes: u8, turns: u32) -> u32
    requires some { 1 ≤ turns }
    requires few { turns ≤ 1000 }
    ensures value { result ≡ usual_rounds nodes turns }
    ensures in_range { result ≤ 2000 }
{
    let most = 4_000_000 / turns_of_round(nodes, turns);
    most.min(2_000)
}

/// Whether so many rounds have at most 4,000,000 turns.
fn are_few(rounds: u32, turns: u32, nodes: u8) -> bool
    requires rounds { rounds ≤ 10000 }
    requires turns { turns ≤ 1000 }
    requires nodes { nodes ≤ 128 }
    ensures { result ≡ nat_le (rounds * turns_in_round nodes turns) 4000000 }
{
    rounds * (turns * (u32::from(nodes) + 1)) <= 4_000_000
}

fn run(alloc: Global, reading: &Reading<'_>, settings: Settings) -> Asked
    ensures job { IsJob (run_job (reading_seen reading.now) (settings_seen settings)) result }
    ensures within { IfOk result (λ asked. IfSome asked (λ job. IsWithin (job_seen job))) }
{
    let Some(image) = one_of(reading) else {
        return Ok(None);
    };
    let Some(turns) = small_of(Named::Turns, 1, 1000, &reading.chosen) else {
        return Ok(None);
    };
    let Some(rounds) = small_of(Named::Rounds, 0, 10_000, &reading.chosen) else {
        return Ok(None);
    };
    let turns = turns.unwrap_or(64);
    let rounds = rounds.unwrap_or(default_rounds(settings.nodes, turns));
    if !are_few(rounds, turns, settings.nodes) {
        return Ok(None);
    }
    let image = String::from_str(alloc, image)?;
    Ok(Some(Job::Run {
        image,
        raw: reading.raw,
        settings,
        rounds,
        turns,
    }))
}

fn replay(alloc: Global, reading: &Reading<'_>, given: Given, settings: Settings) -> Asked
    ensures job { IsJob (replay_job (reading_seen reading.now) (given_seen given) (settings_seen settings)) result }
    ensures within { IfOk result (λ asked. IfSome asked (λ job. IsWithin (job_seen job))) }
{
    let Some((image, choices)) = two_of(reading) else {
        return Ok(None);
    };
    let image = String::from_str(alloc, image)?;
    let choices = String::from_str(alloc, choices)?;
    Ok(Some(Job::Replay {
        image,
        choices,
        raw: reading.raw,
        settings,
        given,
    }))
}

fn storm(reading: &Reading<'_>, settings: Settings) -> Option<Job>
    ensures job { option_map job_seen result ≡ storm_job (reading_seen reading.now) (settings_seen settings) }
    ensures within { IfSome result (λ job. IsWithin (job_seen job)) }
{
    let number = number_in(one_of(reading)?, 0, u64::MAX)?;
    let loops = small_of(Named::Loops, 1, 2047, &reading.chosen)?;
    let events = small_of(Named::Events, 0, 4_000_000, &reading.chosen)?;
    Some(Job::Storm {
        number,
        settings,
        loops: loops.unwrap_or(200) as u16,
        events: events.unwrap_or(1_000_000),
    })
}

fn assemble(alloc: Global, reading: &Reading<'_>) -> Asked
    ensures job { IsJob (assemble_job (reading_seen reading.now)) result }
    ensures within { IfOk result (λ asked. IfSome asked (λ job. IsWithin (job_seen job))) }
{
    let Some(source) = one_of(reading) else {
        return Ok(None);
    };
    let source = String::from_str(alloc, source)?;
    Ok(Some(Job::Assemble { source }))
}

fn disassemble(alloc: Global, reading: &Reading<'_>) -> Asked
    ensures job { IsJob (disassemble_job (reading_seen reading.now)) result }
    ensures within { IfOk result (λ asked. IfSome asked (λ job. IsWithin (job_seen job))) }
{
    let Some(image) = one_of(reading) else {
        return Ok(None);
    };
    let image = String::from_str(alloc, image)?;
    Ok(Some(Job::Disassemble { image }))
}

/// The job of a command with these settings.
fn command_job(
    alloc: Global,
    command: Command,
    reading: &Reading<'_>,
    given: Given,
    settings: Settings,
) -> Asked
    ensures job { IsJob (job_of_command command (reading_seen reading.now) (given_seen given) (settings_seen settings)) result }
    ensures within { IfOk result (λ asked. IfSome asked (λ job. IsWithin (job_seen job))) }
{
    match command {
        Command::Simulate => simulate(alloc, reading, settings),
        Command::Run => run(alloc, reading, settings),
        Command::Replay => replay(alloc, reading, given, settings),
        Command::Storm => Ok(storm(reading, settings)),
        Command::Assemble => assemble(alloc, reading),
        Command::Disassemble => disassemble(alloc, reading),
    }
}

/// The job that the words after the command ask for.
pub(crate) fn job_in(alloc: Global, command: Command, reading: &Reading<'_>) -> Asked
    ensures job { IsJob (job_asked command (reading_seen reading.now)) result }
    ensures within { IfOk result (λ asked. IfSome asked (λ job. IsWithin (job_seen job))) }
{
    if reading.waiting.is_some() {
        return Ok(None);
    }
    let Some(given) = given_of(&reading.chosen) else {
        return Ok(None);
    };
    let Some(settings) = settings_of(&given) else {
        return Ok(None);
    };
    command_job(alloc, command, reading, given, settings)
}
