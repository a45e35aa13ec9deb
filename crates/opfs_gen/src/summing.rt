//! The summary of what agents print.

ghost use Rattle.std.specs.Prelude.{◌≡◌, ◌++◌, ◌∷◌, [], List, ◌<◌, ◌+◌, ◌^◌, string_bytes, IfOk, OnOk, OnErr};
ghost use Rattle.sha2.specs.Sha256.{sha256};
ghost use Rattle.opfs_hist.specs.declared.entry.Entry.{Entry as AnEntry};
ghost use Rattle.opfs_machine.specs.Steps.{is_refusal};
ghost use Rattle.opfs_script_run.specs.Runs.Running.{entries_of, is_wait};
ghost use Rattle.opfs_gen.specs.Summing.{agent_line, summary_of};
ghost use Rattle.opfs_gen.specs.Telling.{IsCounted, IsTold};

use hex::encode;
use opfs_hist::{Entries, Entry, Op, Reply};
use opfs_print::line;
use sha2::{Digest, Sha256};
use std::alloc::{AllocError, Global};

/// Whether an agent begins to wait in an entry.
fn is_wait(entry: &Entry) -> bool
    ensures { result ≡ is_wait entry.now.op }
{
    matches!(entry.op, Op::Wait { .. })
}

/// Whether an entry tells a refusal.
fn is_refused(entry: &Entry) -> bool
    ensures { result ≡ is_refusal entry.now.reply }
{
    matches!(entry.reply, Reply::No(_))
}

/// What an agent's entries tell: how many lines they have, how many of them are accepted and how many refused, and the lines.
#[derive(Drop)]
pub struct Told {
    pub lines: u64,
    pub accepted: u64,
    pub refused: u64,
    pub text: Vec<u8>,
}

/// One more. A count that 64 bits don't hold is want of memory.
fn more(count: u64) -> Result<u64, AllocError>
    ensures { IfOk result (λ more. more ≡ count + 1) }
{
    match count.checked_add(1) {
        Some(more) => Ok(more),
        None => Err(AllocError),
    }
}

/// Counts an entry's line, if it has one.
fn count_line(entry: &Entry, told: &mut Told) -> Result<(), AllocError>
    ensures { OnOk result (IsCounted entry.now told.old told.new) }
{
    if is_wait(entry) {
        return Ok(());
    }
    told.lines = more(told.lines)?;
    if is_refused(entry) {
        told.refused = more(told.refused)?;
        return Ok(());
    }
    told.accepted = more(told.accepted)?;
    Ok(())
}

/// Takes note of an entry.
fn note(alloc: Global, entry: &Entry, told: &mut Told) -> Result<(), AllocError>
    ensures { OnOk result ((es : List AnEntry) → IsTold es told.old → IsTold (es ++ entry.now ∷ []) told.new) }
{
    line(alloc, entry, &mut told.text)?;
    count_line(entry, told)?;
    Ok(())
}

/// What the entries of an agent tell.
fn told_of(alloc: Global, history: &Entries, agent: u32) -> Result<Told, AllocError>
    ensures { IfOk result (IsTold (entries_of agent history.now)) }
{
    let mut told = Told {
        lines: 0,
        accepted: 0,
        refused: 0,
        text: Vec::new(alloc),
    };
    for entry in history.iter() {
        if entry.agent == agent {
            note(alloc, entry, &mut told)?;
        }
    }
    Ok(told)
}

/// The SHA-256 of bytes.
fn digest_of(bytes: &[u8]) -> [u8; 32]
    ensures { result ≡ sha256 bytes.now }
{
    let mut hasher = Sha256::new();
    hasher.update(bytes);
    hasher.finalize()
}

/// The line of an agent whose entries tell this.
#[tactic(auto, unfolding(crate::specs::Summing::agent_line))]
fn agent_line(alloc: Global, agent: u32, told: &Told) -> Result<String, AllocError>
    ensures { IfOk result (λ text. (es : List AnEntry) → IsTold es told.now → string_bytes text ≡ agent_line agent es) }
{
    let digest = digest_of(told.text.as_slice());
    let digits = encode(alloc, digest.as_slice())?;
    format!(in alloc;
        "agent {agent} {} {} {} {}\n",
        told.lines,
        told.accepted,
        told.refused,
        digits.as_str()
    )
}

/// Appends the line of an agent.
fn add_agent(
    alloc: Global,
    history: &Entries,
    agent: u32,
    text: &mut Vec<u8>,
) -> Result<(), AllocError>
    ensures { OnOk result (text.new.items ≡ text.old.items ++ agent_line agent (entries_of agent history.now)) }
{
    let told = told_of(alloc, history, agent)?;
    let line = agent_line(alloc, agent, &told)?;
    text.extend_from_slice(line.as_bytes())?;
    Ok(())
}

/// The lines of so many agents.
fn lines_of(alloc: Global, history: &Entries, agents: u32) -> Result<Vec<u8>, AllocError>
    requires { agents + 1 < 2 ^ 32 }
    ensures { IfOk result (λ text. text.items ≡ summary_of agents history.now) }
{
    let mut text = Vec::new(alloc);
    for index in 0..agents {
        add_agent(alloc, history, index + 1, &mut text)?;
    }
    Ok(text)
}

/// Appends the summary of a history's agents, a line each: its number, how many lines it has, how many of them tell no refusal and
/// how many tell one, and the SHA-256 of these lines.
pub fn summary(
    alloc: Global,
    history: &Entries,
    agents: u32,
    into: &mut Vec<u8>,
) -> Result<(), AllocError>
    requires { agents + 1 < 2 ^ 32 }
    ensures ok { OnOk result (into.new.items ≡ into.old.items ++ summary_of agents history.now) }
    ensures err { OnErr result (into.new.items ≡ into.old.items) }
{
    let text = lines_of(alloc, history, agents)?;
    into.extend_from_slice(text.as_slice())
}
