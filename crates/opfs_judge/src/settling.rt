//! Whether a transcript is settled: whether its text alone tells in what order its agents came to wait.

ghost use Rattle.std.specs.Prelude.{◌≡◌, ◌+◌, ◌≤◌, drop, length, IfOk};
ghost use Rattle.std.specs.List.{list_any};
ghost use Rattle.opfs_transcripts.specs.Told.Reading.{is_evict_line, is_stuck_line, tells_room_or_stuck};
ghost use Rattle.opfs_judge.specs.Fronts.{first_line};
ghost use Rattle.opfs_judge.specs.Verdicts.{is_unsettled};
ghost use Rattle.opfs_transcripts.specs.Waiting.Fixed.{has_await, is_await};

use opfs_script::{AgentScript, Script, Step};
use opfs_script_kept::{PackedAgent, PackedScript};
use std::alloc::{AllocError, Global};

/// How many bytes stand in a text before its first line feed; all, where there is none.
pub fn line_length(text: &[u8]) -> usize
    ensures line { result ≡ length (first_line text.now) }
    ensures within { result ≤ length text.now }
{
    let mut rest = text;
    while let [byte, more @ ..] = rest {
        if *byte == b'\n' {
            return text.len() - rest.len();
        }
        rest = more;
    }
    text.len() - rest.len()
}

/// The first line of a text, and what stands behind its line feed.
fn split_line(text: &[u8]) -> (&[u8], &[u8])
    ensures line { result.0.now ≡ first_line text.now }
    ensures rest { result.1.now ≡ drop (length (first_line text.now) + 1) text.now }
{
    let (line, rest) = text.split_at(line_length(text));
    match rest {
        [_, more @ ..] => (line, more),
        [] => (line, rest),
    }
}

/// Whether a line begins as that of an eviction.
fn is_evict_line(line: &[u8]) -> bool
    ensures { result ≡ is_evict_line line.now }
{
    line.starts_with("evict ".as_bytes())
}

/// Whether a line ends as that of an await that was answered Stuck.
fn is_stuck_line(line: &[u8]) -> bool
    ensures { result ≡ is_stuck_line line.now }
{
    line.ends_with(" await Stuck".as_bytes())
}

/// Whether a transcript has a line of an eviction, or of an agent that was stuck.
fn tells_room_or_stuck(text: &[u8]) -> bool
    ensures { result ≡ tells_room_or_stuck text.now }
{
    let mut rest = text;
    while !rest.is_empty() {
        let (line, more) = split_line(rest);
        if is_evict_line(line) || is_stuck_line(line) {
            return true;
        }
        rest = more;
    }
    false
}

/// Whether a step is an await.
fn is_await(step: &Step) -> bool
    ensures { result ≡ is_await step.now }
{
    matches!(step, Step::Await { .. })
}

/// Whether an agent has an await.
fn awaits(agent: &AgentScript) -> bool
    ensures { result ≡ has_await agent.now }
{
    agent.steps().iter().any(|step| is_await(step))
}

/// Whether one of these agents has an await.
fn one_awaits(agents: &[AgentScript]) -> bool
    ensures { result ≡ list_any has_await agents.now }
{
    agents.iter().any(|agent| awaits(agent))
}

/// Whether a step that is not wanted afterwards is an await.
fn was_await(step: Step) -> bool
    ensures { result ≡ is_await step }
{
    let found = is_await(&step);
    drop(step);
    found
}

/// Whether an agent whose steps are texts has an await.
fn packed_awaits(alloc: Global, agent: &PackedAgent) -> Result<bool, AllocError>
    ensures { IfOk result (λ found. found ≡ has_await agent.now) }
{
    let mut ahead = agent.steps();
    while let Some(step) = ahead.next(alloc)? {
        if was_await(step) {
            return Ok(true);
        }
    }
    Ok(false)
}

/// Whether one of these agents has an await.
fn one_packed_awaits(alloc: Global, agents: &[PackedAgent]) -> Result<bool, AllocError>
    ensures { IfOk result (λ found. found ≡ list_any has_await agents.now) }
{
    for agent in agents {
        if packed_awaits(alloc, agent)? {
            return Ok(true);
        }
    }
    Ok(false)
}

/// Whether a script has an await and a transcript a line of an eviction, or of an agent that was stuck.
pub fn is_unsettled(script: &Script, transcript: &[u8]) -> bool
    ensures { result ≡ is_unsettled script.now transcript.now }
{
    tells_room_or_stuck(transcript) && one_awaits(script.agents())
}

/// The same of a script whose steps are texts: they are read only where the transcript has such a line.
pub fn packed_is_unsettled(
    alloc: Global,
    script: &PackedScript,
    transcript: &[u8],
) -> Result<bool, AllocError>
    ensures { IfOk result (λ unsettled. unsettled ≡ is_unsettled script.now transcript.now) }
{
    let told = tells_room_or_stuck(transcript);
    if !told {
        return Ok(false);
    }
    let found = one_packed_awaits(alloc, script.agents())?;
    Ok(found)
}
