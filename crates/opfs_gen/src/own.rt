//! Histories that tell nothing of what is shared.

ghost use Rattle.std.specs.Prelude.{All, IsTrue};
ghost use Rattle.std.specs.List.{list_all};
ghost use Rattle.std.specs.Prelude.{◌≡◌, not};
ghost use Rattle.opfs_transcripts.specs.Lone.Lone.{IsOwnEntry};
ghost use Rattle.opfs_machine.specs.Histories.{evicted_by};
ghost use Rattle.opfs_script_run.specs.Runs.Running.{is_wait};
ghost use Rattle.opfs_laws.specs.Separation.Apart.{is_shared};
ghost use Rattle.opfs_gen.specs.Own.{SummariesAreOfOwnRuns, is_own, is_own_op};

use opfs_hist::{Entries, Entry, Op, Refusal, Reply};

/// Whether an entry is neither an eviction nor a wait.
fn is_own_op(op: &Op) -> bool
    ensures { result ≡ is_own_op op.now }
{
    !matches!(op, Op::Evict { .. } | Op::Wait { .. })
}

/// Whether a reply refuses shared room, or tells of the disk.
fn is_shared(reply: &Reply) -> bool
    ensures { result ≡ is_shared reply.now }
{
    matches!(
        reply,
        Reply::No(Refusal::MetaFull { .. } | Refusal::DataFull { .. } | Refusal::DiskFault)
    )
}

/// Whether an entry tells nothing of what is shared.
fn is_own(entry: &Entry) -> bool
    ensures { result ≡ is_own entry.now }
{
    is_own_op(&entry.op) && !is_shared(&entry.reply)
}

// Whether all entries of a history tell nothing of what is shared.
fn tell_own(history: &Entries) -> bool
    ensures { result ≡ list_all is_own history.now }
{
    history.iter().all(|entry| is_own(entry))
}

/// Whether no entry is an eviction, a wait, or a refusal of shared room or of the disk.
pub fn are_own(history: &Entries) -> bool
    ensures exact { result ≡ list_all is_own history.now }
    ensures own { IsTrue result → All IsOwnEntry history.now }
{
    tell_own(history)
}

/// In a legal history of the script that is made of a number, which tells nothing of what is shared, the summary of its agents
/// is that of each agent's run on the machine that has its own rows alone: it depends on the number alone, and not on how the
/// agents took turns.
pub fn summaries_are_of_own_runs()
    ensures { SummariesAreOfOwnRuns }
{}
