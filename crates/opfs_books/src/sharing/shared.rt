//! The shared state, as the books use it.

use opfs_base::{Extent, Extents, Key};
use opfs_hist::{Op, PendingSum};
use opfs_machine::Sizes;
use opfs_shed::Shed;
use opfs_tree::ReadyTree;

/// What the shared state does for the books: it lends its rows and buckets to a commit, and changes as the machine says.
pub trait Shared {
    ghost use Rattle.std.specs.Prelude.{◌≡◌, ◌++◌, ◌≤◌, ℕ, [], Option, None, List, length, vec_capacity};
    ghost use Rattle.opfs_base.specs.Texts.{Text};
    ghost use Rattle.opfs_base.specs.declared.extents.Extent.{Extent};
    ghost use Rattle.opfs_state_rows.specs.Changes.Changed.{tree_by, freed_in};
    ghost use Rattle.opfs_hist.specs.declared.op.Op.{Op};
    ghost use Rattle.opfs_hist.specs.declared.history.PendingSum.{PendingSum};
    ghost use Rattle.opfs_machine.specs.Agents.{counted};
    ghost use Rattle.opfs_machine.specs.Contents.{in_lengths};
    ghost use Rattle.opfs_machine.specs.Effects.{effect, refused};
    ghost use Rattle.opfs_machine.specs.Steps.{evicted};
    ghost use Rattle.opfs_machine.specs.declared.state.Sizes.{Sizes};
    ghost use Rattle.opfs_records.specs.Replay.Sums.{persistent_in};
    ghost use Rattle.opfs_state_rows.specs.Standing.Seen.{Machine, lines_of};
    ghost use Rattle.opfs_books.specs.Sharing.Noting.{noted, IsSumOf, AreNotes};
    ghost use Rattle.opfs_books.specs.Sharing.Standing.{Standby};
    ghost use Rattle.opfs_hist.specs.declared.entry.Entry.{Entry};
    ghost use Rattle.opfs_tree.specs.Rows.{Rows, extents_within, without};

    /// The machine in lengths, and the rows of its tree.
    ghost machine: { Self → Machine };

    ghost tree: { Self → Rows };

    /// What stands ready for a call.
    ghost standby: { Self → Standby };

    /// When a call may be applied, entered as refused, and taken in with the sum of an agent's pending calls; and when a unit
    /// may be cleared.
    ghost may_apply: { Self → ℕ → Op → Sizes → Option (List Extent) → Type 0 };

    ghost may_refuse: { Self → ℕ → Op → Type 0 };

    ghost may_note: { Self → ℕ → PendingSum → Type 0 };

    ghost may_clear: { Self → Text → Type 0 };

    /// The rows of the tree.
    fn rows(&self) -> &ReadyTree
        ensures rows { result.now.rows ≡ tree self.now }
        ensures lines { lines_of (tree self.now) ≡ (machine self.now).rows };

    /// The buckets.
    fn shed(&self) -> &Shed
        ensures { persistent_in result.now.buckets ≡ (machine self.now).persistent };

    /// Changes as a call does that is not refused. Takes no memory.
    fn apply(
        &mut self,
        agent: u32,
        op: &Op,
        sizes: Sizes,
        extents: Option<Extents>,
        freed: &mut Vec<Extent>,
    )
        requires may { may_apply self.old agent op.now sizes extents }
        requires room { length (freed.old.items ++ freed_in (machine self.old) (tree self.old) agent op.now extents) ≤ vec_capacity freed.old }
        ensures machine { machine self.new ≡ counted (effect in_lengths (machine self.old) sizes agent op.now) agent }
        ensures tree { tree self.new ≡ tree_by (machine self.old) (tree self.old) agent op.now sizes extents }
        ensures idle { (standby self.new).prepared.place ≡ None }
        ensures freed { freed.new.items ≡ freed.old.items ++ freed_in (machine self.old) (tree self.old) agent op.now extents }
        ensures capacity { vec_capacity freed.old ≤ vec_capacity freed.new };

    /// Changes as a refused call does. Takes no memory.
    fn refuse(&mut self, agent: u32, op: &Op)
        requires { may_refuse self.old agent op.now }
        ensures machine { machine self.new ≡ counted (refused (machine self.old) agent op.now) agent }
        ensures tree { tree self.new ≡ tree self.old }
        ensures idle { (standby self.new).prepared.place ≡ None };

    /// Takes in the sum of an agent's pending calls. Takes no memory.
    fn note(&mut self, agent: u32, sum: PendingSum)
        requires { may_note self.old agent sum }
        ensures machine { (es : List Entry) → IsSumOf sum es → AreNotes es → machine self.new ≡ noted (machine self.old) agent es }
        ensures tree { tree self.new ≡ tree self.old }
        ensures standby { standby self.new ≡ standby self.old };

    /// Clears a unit. Takes no memory.
    fn clear(&mut self, unit: &Key, freed: &mut Vec<Extent>)
        requires may { may_clear self.old unit.now }
        requires room { length (freed.old.items ++ extents_within (unit.now, []) (tree self.old)) ≤ vec_capacity freed.old }
        ensures machine { machine self.new ≡ evicted (machine self.old) unit.now }
        ensures tree { tree self.new ≡ without (unit.now, []) (tree self.old) }
        ensures standby { standby self.new ≡ standby self.old }
        ensures freed { freed.new.items ≡ freed.old.items ++ extents_within (unit.now, []) (tree self.old) }
        ensures capacity { vec_capacity freed.old ≤ vec_capacity freed.new };
}
