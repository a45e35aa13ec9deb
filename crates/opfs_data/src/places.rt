//! Pages that get their blocks, without memory.

ghost use Rattle.std.specs.Prelude.{◌≡◌, ◌++◌, ◌+◌, ◌-◌, ◌*◌, ◌^◌, ◌<◌, ◌≤◌, ℕ, List, length, drop, min};
ghost use Rattle.std.specs.List.{AllByRecursion, range_with_len};
ghost use Rattle.std.specs.Vec.{vec_capacity};
ghost use Rattle.opfs_data.specs.Writes.{PageWrite, Run, run_pages, run_writes, writes_of, source_bytes, placed, blocks_in, IsOwnWithin, IsWithin, AreWithin};
ghost use Rattle.opfs_data.specs.Placing.{left_blocks, left_runs};

use crate::page_run::PageRun;
use opfs_base::Extent;

/// The blocks that are left of runs: those of one run, and those of the runs from a number on.
#[derive(Drop)]
pub struct Left {
    /// The first block that is left.
    pub start: u64,
    /// How many are left of its run.
    pub count: u32,
    /// The next run.
    pub next: usize,
}

/// Adds the pages of runs without a block, with the blocks of extents in order. Takes no memory.
pub fn place_runs(runs: &mut Vec<PageRun>, moves: &[PageRun], extents: &[Extent])
    requires room { length runs.old.items + length moves.now + length extents.now ≤ vec_capacity runs.old }
    requires blocks { (own given : List ℕ) → length (writes_of own given moves.now) ≡ length (blocks_in extents.now) }
    requires some { AllByRecursion (λ e. 0 < e.count) extents.now }
    requires small { AllByRecursion (λ e. e.start + e.count ≤ 2 ^ 32) extents.now }
    ensures placed { (own given : List ℕ) → writes_of own given runs.new.items ≡ writes_of own given runs.old.items ++ placed (writes_of own given moves.now) (blocks_in extents.now) }
    ensures own { (own : List ℕ) → AllByRecursion (IsOwnWithin own) runs.old.items → AllByRecursion (IsOwnWithin own) moves.now → AllByRecursion (IsOwnWithin own) runs.new.items }
    ensures within { (own given : List ℕ) → AreWithin own given runs.old.items → AreWithin own given moves.now → AreWithin own given runs.new.items }
{
    let mut left = Left {
        start: 0,
        count: 0,
        next: 0,
    };
    for run in moves {
        place_run(runs, run, extents, &mut left);
    }
}

// Adds the pages of one run, with the blocks that are left.
fn place_run(runs: &mut Vec<PageRun>, run: &PageRun, extents: &[Extent], left: &mut Left)
    requires room { length runs.old.items + 1 + left_runs extents.now left.old ≤ vec_capacity runs.old }
    requires blocks { run.now.count ≤ length (left_blocks extents.now left.old) }
    requires some { AllByRecursion (λ e. 0 < e.count) extents.now }
    requires small { AllByRecursion (λ e. e.start + e.count ≤ 2 ^ 32) extents.now }
    requires start { left.old.start + left.old.count ≤ 2 ^ 32 }
    requires next { left.old.next ≤ length extents.now }
    ensures placed { (own given : List ℕ) (later : List PageWrite) → writes_of own given runs.new.items ++ placed later (left_blocks extents.now left.new)
        ≡ writes_of own given runs.old.items ++ placed (run_writes own given run.now ++ later) (left_blocks extents.now left.old) }
    ensures own { (own : List ℕ) → AllByRecursion (IsOwnWithin own) runs.old.items → IsOwnWithin own run.now → AllByRecursion (IsOwnWithin own) runs.new.items }
    ensures within { (own given : List ℕ) → AreWithin own given runs.old.items → IsWithin own given run.now → AreWithin own given runs.new.items }
    ensures blocks { length (left_blocks extents.now left.new) + run.now.count ≡ length (left_blocks extents.now left.old) }
    ensures room { length runs.new.items + left_runs extents.now left.new ≤ length runs.old.items + 1 + left_runs extents.now left.old }
    ensures capacity { vec_capacity runs.old ≤ vec_capacity runs.new }
    ensures start { left.new.start + left.new.count ≤ 2 ^ 32 }
    ensures next { left.new.next ≤ length extents.now }
{
    let count = run.count();
    let mut done = 0;
    while done < count {
        refill(extents, left);
        let part = left.count.min(count - done);
        runs.push(run.part(done, part, left.start as u32)).unwrap();
        left.start += u64::from(part);
        left.count -= part;
        done += part;
    }
}

// Goes on to the next run where none are left of one.
fn refill(extents: &[Extent], left: &mut Left)
    requires some { AllByRecursion (λ e. 0 < e.count) extents.now }
    requires small { AllByRecursion (λ e. e.start + e.count ≤ 2 ^ 32) extents.now }
    requires start { left.old.start + left.old.count ≤ 2 ^ 32 }
    requires next { left.old.next ≤ length extents.now }
    requires more { 0 < length (left_blocks extents.now left.old) }
    ensures same { left_blocks extents.now left.new ≡ left_blocks extents.now left.old }
    ensures runs { left_runs extents.now left.new ≡ left_runs extents.now left.old }
    ensures some { 0 < left.new.count }
    ensures start { left.new.start + left.new.count ≤ 2 ^ 32 }
    ensures next { left.new.next ≤ length extents.now }
{
    if left.count > 0 {
        return;
    }
    let extent = &extents[left.next];
    left.start = u64::from(extent.start);
    left.count = extent.count;
    left.next += 1;
}
