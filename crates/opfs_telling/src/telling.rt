//! The lines of entries that a history gives out, put out in their order.

ghost use Rattle.std.specs.Prelude.{◌≡◌, ◌++◌, ◌+◌, ◌^◌, ◌<◌, ◌≤◌, ◌∷◌, [], List, drop, length};
ghost use Rattle.opfs_hist.specs.declared.entry.Entry.{Entry as AnEntry};
ghost use Rattle.opfs_outside.specs.Turns.{of_sink};
ghost use Rattle.opfs_telling.specs.Telling.{HasPut, IsTold};

use opfs_hist::{Entries, Entry, Given, Op};
use opfs_outside::{Sink, put_all};
use opfs_print::line;
use std::alloc::Global;

/// How many bytes of lines wait at most.
pub const FULL: usize = 65_536;

/// Whether lines are still put out.
#[derive(Clone, Copy, PartialEq, Eq)]
pub enum State {
    On,
    /// No more, since the sink failed.
    Failed,
    /// No more, since there was no memory, or entries were given out to another.
    Short,
}

/// How many entries were told, the lines of them that wait to be put out, and whether lines are still put out.
#[derive(Drop)]
pub struct Progress {
    pub count: usize,
    pub lines: Vec<u8>,
    pub state: State,
}

impl Progress {
    /// Nothing was told.
    pub fn make(alloc: Global) -> Progress
        ensures count { result.count ≡ 0 }
        ensures lines { result.lines.items ≡ [] }
        ensures state { result.state ≡ State.On }
    {
        Progress {
            count: 0,
            lines: Vec::new(alloc),
            state: State::On,
        }
    }
}

/// Puts out the lines that wait.
pub fn put_out<K: Sink>(sink: &mut K, progress: &mut Progress)
    ensures told { (begun : K) (h : List AnEntry) → IsTold K.Sink begun sink.old progress.old h → IsTold K.Sink begun sink.new progress.new h }
    ensures none { progress.new.state ≡ State.On → progress.new.lines.items ≡ [] }
    ensures count { progress.new.count ≡ progress.old.count }
{
    if progress.state != State::On {
        return;
    }
    match put_all(sink, progress.lines.as_slice()) {
        Ok(()) => progress.lines.clear(),
        Err(_) => progress.state = State::Failed,
    }
}

/// How many bytes of lines may wait behind this call: none behind a close or a flush, so that whoever reads them knows soon what is stored.
pub fn waiting_behind(op: &Op) -> usize {
    match op {
        Op::Close { .. } | Op::SyncFlush { .. } | Op::SyncClose { .. } => 0,
        _ => FULL,
    }
}

// Tells an entry, where all before it were told: its line is put out, or waits.
fn tell_entry<K: Sink>(alloc: Global, sink: &mut K, progress: &mut Progress, entry: &Entry)
    requires few { progress.old.count < 2 ^ 63 }
    ensures told { (begun : K) (before : List AnEntry) → IsTold K.Sink begun sink.old progress.old before → IsTold K.Sink begun sink.new progress.new (before ++ entry.now ∷ []) }
    ensures count { progress.new.count ≤ progress.old.count + 1 }
{
    if progress.state != State::On {
        return;
    }
    if line(alloc, entry, &mut progress.lines).is_err() {
        progress.state = State::Short;
        return;
    }
    progress.count += 1;
    if progress.lines.len() >= FULL {
        put_out(sink, progress);
    }
}

// Tells entries one by one, where all before them were told, so that few of their lines wait.
fn tell_entries<K: Sink>(alloc: Global, sink: &mut K, progress: &mut Progress, entries: &Entries)
    requires few { progress.old.count + length entries.now < 2 ^ 63 }
    ensures told { (begun : K) (before : List AnEntry) → IsTold K.Sink begun sink.old progress.old before → IsTold K.Sink begun sink.new progress.new (before ++ entries.now) }
{
    for entry in entries.iter() {
        tell_entry(alloc, sink, progress, entry);
    }
}

/// Tells the entries that a history gave out, where all before them were told: their lines are put out, or wait, fewer than so many bytes.
pub fn tell<K: Sink>(
    alloc: Global,
    sink: &mut K,
    progress: &mut Progress,
    given: Given,
    most: usize,
)
    requires fits { given.place + length given.entries < 2 ^ 63 }
    ensures told { (begun : K) (before more : List AnEntry) → given.entries ≡ drop given.place (before ++ more) → given.place + length given.entries ≡ length (before ++ more)
        → IsTold K.Sink begun sink.old progress.old before → IsTold K.Sink begun sink.new progress.new (before ++ more) }
{
    if progress.state != State::On {
        return;
    }
    if given.place != progress.count {
        progress.state = State::Short;
        return;
    }
    tell_entries(alloc, sink, progress, &given.entries);
    if progress.lines.len() >= most {
        put_out(sink, progress);
    }
}

/// Puts out the lines that wait of a history that is over, and answers how it was told.
pub fn end_telling<K: Sink>(sink: &mut K, mut progress: Progress) -> State
    ensures put { (begun : K) (h : List AnEntry) → IsTold K.Sink begun sink.old progress h → HasPut (of_sink K.Sink begun sink.new) h result }
    ensures later { (begun : K) (h : List AnEntry) → IsTold K.Sink begun sink.old progress h → K.faults begun ≤ K.faults sink.new }
{
    put_out(sink, &mut progress);
    progress.state
}
