//! What scripts print when their agents run in an order: a second way to tell whether a text is a transcript.

use opfs_hist::{Entry, Op};
use opfs_judge::trial::opening::begin;
use opfs_plain::Plain;
use opfs_print::line;
use opfs_script::{AgentScript, Script, Step};
use opfs_script_run::Hand;
use opfs_test_hosts::{Draws, lines_of};
use std::alloc::{AllocError, Global};

// How far an agent's script is.
#[derive(Drop)]
struct Runner<'a> {
    steps: &'a [Step],
    hand: Hand,
    made: usize,
    closed: usize,
    number: u32,
    ended: bool,
}

// The agents of a script before their first steps.
fn runners<'a>(alloc: Global, scripts: &'a [AgentScript]) -> Result<Vec<Runner<'a>>, AllocError> {
    let mut runners = Vec::new(alloc);
    for script in scripts {
        runners.push(Runner {
            steps: script.steps(),
            hand: Hand::make(alloc, opfs_base::copy_key(alloc, script.key())?),
            made: 0,
            closed: 0,
            number: 1,
            ended: false,
        })?;
    }
    Ok(runners)
}

// The hand after a step, whose entry is the last one.
fn note(alloc: Global, entries: &[Entry], hand: &mut Hand, step: &Step) -> Result<(), AllocError> {
    match entries.last() {
        Some(entry) => hand.then(alloc, step, &entry.op, &entry.reply),
        None => Err(AllocError),
    }
}

// One step of an agent's script.
fn step(
    alloc: Global,
    plain: &mut Plain,
    agent: u32,
    number: u32,
    hand: &mut Hand,
    step: &Step,
) -> Result<(), AllocError> {
    let op = hand.op_of(alloc, step)?;
    plain.call(alloc, agent, number, op)?;
    note(alloc, plain.entries.items.as_slice(), hand, step)
}

// One entry of an agent; false where it has ended.
fn turn(
    alloc: Global,
    plain: &mut Plain,
    agent: u32,
    runner: &mut Runner<'_>,
) -> Result<bool, AllocError> {
    if runner.ended {
        return Ok(false);
    }
    if let Some(next) = runner.steps.get(runner.made) {
        step(alloc, plain, agent, runner.number, &mut runner.hand, next)?;
        runner.made = runner.made.saturating_add(1);
    } else if let Some(open) = runner.hand.opened().get(runner.closed) {
        plain.call(alloc, agent, runner.number, open.ending())?;
        runner.closed = runner.closed.saturating_add(1);
    } else {
        plain.call(alloc, agent, runner.number, Op::End)?;
        runner.ended = true;
    }
    runner.number = runner.number.saturating_add(1);
    Ok(true)
}

// The lines of all entries.
fn text_of(alloc: Global, plain: &Plain) -> Result<Vec<u8>, AllocError> {
    let mut text = Vec::new(alloc);
    for entry in plain.entries.items.as_slice() {
        line(alloc, entry, &mut text)?;
    }
    Ok(text)
}

// What agents print that run in an order, each number a place in the script; None where one of them has ended too early, or not
// all have at the end.
pub fn replayed(
    alloc: Global,
    script: &Script,
    order: &[usize],
) -> Result<Option<Vec<u8>>, AllocError> {
    let mut plain = begin(alloc, script)?;
    let mut runners = runners(alloc, script.agents())?;
    for place in order {
        if *place >= 64 {
            return Ok(None);
        }
        let agent = *place as u32 + 1;
        let Some(runner) = runners.get_mut(*place) else {
            return Ok(None);
        };
        if !turn(alloc, &mut plain, agent, runner)? {
            return Ok(None);
        }
    }
    if !runners.iter().all(|runner| runner.ended) {
        return Ok(None);
    }
    let text = text_of(alloc, &plain)?;
    Ok(Some(text))
}

// What a script's agents print that take turns as they are drawn.
pub fn played(alloc: Global, script: &Script, draws: &mut Draws) -> Result<Vec<u8>, AllocError> {
    let mut plain = begin(alloc, script)?;
    let mut runners = runners(alloc, script.agents())?;
    let count = runners.len();
    for _ in 0..400 {
        if count == 0 || count > 64 {
            break;
        }
        let place = draws.below(count as u64) as usize;
        if let Some(runner) = runners.get_mut(place) {
            turn(alloc, &mut plain, place as u32 + 1, runner)?;
        }
    }
    finish(alloc, &mut plain, &mut runners)?;
    text_of(alloc, &plain)
}

// Runs all agents to their ends, one after another.
fn finish(
    alloc: Global,
    plain: &mut Plain,
    runners: &mut Vec<Runner<'_>>,
) -> Result<(), AllocError> {
    let mut agent = 0u32;
    for runner in runners.iter_mut() {
        agent = agent.saturating_add(1);
        for _ in 0..100 {
            turn(alloc, plain, agent, runner)?;
        }
    }
    Ok(())
}

// The place of the agent whose line this is; None where it is no agent's.
fn place_of(line: &[u8]) -> Option<usize> {
    let mut number = 0usize;
    for byte in line {
        if *byte == b'.' {
            return number.checked_sub(1);
        }
        if !byte.is_ascii_digit() {
            return None;
        }
        number = number
            .saturating_mul(10)
            .saturating_add(byte.saturating_sub(b'0') as usize);
    }
    None
}

// The agents of a text's lines, by their places; None where a line is neither an agent's nor an eviction's.
fn order_of(alloc: Global, lines: &[Vec<u8>]) -> Result<Option<Vec<usize>>, AllocError> {
    let mut order = Vec::new(alloc);
    for line in lines {
        if line.starts_with("evict ".as_bytes()) {
            continue;
        }
        match place_of(line.as_slice()) {
            Some(place) => order.push(place)?,
            None => return Ok(None),
        }
    }
    Ok(Some(order))
}

// Whether a text is what the agents print when they run in the order of its lines.
pub fn is_printed(alloc: Global, script: &Script, text: &[u8]) -> Result<bool, AllocError> {
    let lines = lines_of(alloc, text)?;
    let Some(order) = order_of(alloc, lines.as_slice())? else {
        return Ok(false);
    };
    match replayed(alloc, script, order.as_slice())? {
        Some(printed) => Ok(printed.as_slice() == text),
        None => Ok(false),
    }
}
