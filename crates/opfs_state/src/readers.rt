//! What is read of the shared state.

ghost use Rattle.std.specs.Prelude.{◌≡◌, ◌<◌, ◌≤◌, ◌^◌, ◌∷◌, [], None, Some, IfOk, IfNone, IfSome, IsSomeAnd, length, option_map};
ghost use Rattle.std.specs.Option.{option_copied};
ghost use Rattle.opfs_base.specs.Units.{origin_of};
ghost use Rattle.opfs_machine.specs.Agents.{agent_of, open_handle, party_of, is_posted, others_stuck, waits_for};
ghost use Rattle.opfs_machine.specs.Contents.{in_lengths};
ghost use Rattle.opfs_machine.specs.Rows.{row_at, file_at, kind_of};
ghost use Rattle.opfs_machine.specs.Sums.{is_persistent, usage};
ghost use Rattle.opfs_register.specs.Seating.{most_agents};
ghost use Rattle.opfs_register.specs.Slots.{most_rows};
ghost use Rattle.opfs_state_rows.specs.Standing.Seen.{lines_of, persistent_in};
ghost use Rattle.opfs_state.specs.Applied.{bytes_added};
ghost use Rattle.opfs_state.specs.Reading.{row_file};
ghost use Rattle.opfs_tree.specs.Rows.{extents_within, least_above, least_not_in, children_of, rows_above, IsInOrder};
ghost use Rattle.opfs_tree.specs.Rows.{file_at as file_in_tree};
ghost use Rattle.opfs_state.specs.Verdicts.Callers.{IsAgent};

use crate::state::State;
use opfs_base::{Key, Kind, Name, Path, Text};
use opfs_machine::{HandleOutline, Place};
use opfs_shed::Shed;
use opfs_tree::{FileRow, ReadyTree, Row, Walk};
use std::alloc::{AllocError, Global};

impl State {
    /// The machine has the rows of the tree. Says so, and does next to nothing.
    pub fn know_rows_match_tree(&self)
        ensures { self.now.store.machine.rows ≡ lines_of self.now.store.tree }
    {
        self.store.know_rows_match_tree();
    }

    /// The rows stand in order. Says so, and does nothing.
    pub fn know_order(&self)
        ensures { IsInOrder self.now.store.tree }
    {
        self.store.know_order();
    }

    /// The rows with their blocks, beside the place that stands ready.
    pub fn tree(&self) -> &ReadyTree
        ensures { result.now ≡ record { rows = self.now.store.tree; ready = self.now.store.prepared.place } }
    {
        self.store.tree()
    }

    /// The buckets, with the modes of their units.
    pub fn shed(&self) -> &Shed
        ensures quota { result.now.quota ≡ self.now.store.machine.limits.quota }
        ensures modes { persistent_in result.now.buckets ≡ self.now.store.machine.persistent }
    {
        self.store.shed()
    }

    /// Whether a directory or a file is at a place; None where neither is.
    pub fn kind(&self, key: &Key, path: &Path) -> Option<Kind>
        ensures { result ≡ option_map kind_of (row_at self.now.store.machine (key.now, path.now)) }
    {
        self.store.kind(key, path)
    }

    /// The file at a place with its blocks; None where none is.
    pub fn file(&self, key: &Key, path: &Path) -> Option<&FileRow>
        ensures { option_copied result ≡ file_in_tree (key.now, path.now) self.now.store.tree }
    {
        self.store.file(key, path)
    }

    /// How many bytes a read of the file at a place gives, and its time stamp; None where no file is.
    pub fn present(&self, key: &Key, path: &Path) -> Option<(u64, u64)>
        ensures { result ≡ option_map (λ f. (f.present, f.stamp)) (file_at self.now.store.machine (key.now, path.now)) }
    {
        self.store.know_rows_match_tree();
        match self.store.file(key, path) {
            Some(file) => Some((file.present, file.present_stamp)),
            None => None,
        }
    }

    /// How many extents the row at a place and all below it have.
    pub fn extents_below(&self, key: &Key, path: &Path) -> u64
        requires { length (extents_within (key.now, path.now) self.now.store.tree) < 2 ^ 64 }
        ensures { result ≡ length (extents_within (key.now, path.now) self.now.store.tree) }
    {
        self.store.extents_below(key, path)
    }

    /// The least child of a directory whose name is not among those given, in whatever order they are, where no place
    /// stands ready; None where there is no further child.
    pub fn least_not_in(
        &self,
        alloc: Global,
        key: &Key,
        path: &Path,
        past: &[Name],
    ) -> Result<Option<(Name, Kind)>, AllocError>
        requires { self.now.store.prepared.place ≡ None }
        ensures { IfOk result (λ child. child ≡ least_not_in past.now (children_of (key.now, path.now) self.now.store.tree)) }
    {
        self.store.least_not_in(alloc, key, path, past)
    }

    /// The least child of a directory whose name is above another, where no place stands ready; None where there is none.
    pub fn least_above(
        &self,
        alloc: Global,
        key: &Key,
        path: &Path,
        name: &Name,
    ) -> Result<Option<(Name, Kind)>, AllocError>
        requires { self.now.store.prepared.place ≡ None }
        ensures { IfOk result (λ child. child ≡ least_above name.now (children_of (key.now, path.now) self.now.store.tree)) }
    {
        self.store.least_above(alloc, key, path, name)
    }

    /// Moves a walk on to the least place above its own where a row is, and gives that row; None where there is none.
    /// Takes no memory.
    pub fn step<'a>(&'a self, walk: &mut Walk<'a>) -> Option<&'a Row>
        ensures end { IfNone result (rows_above walk.old self.now.store.tree ≡ []) }
        ensures next { IfSome result (λ row. IsSomeAnd walk.new (λ place. rows_above walk.old self.now.store.tree ≡ (place, row.now) ∷ rows_above (Some place) self.now.store.tree)) }
        ensures order { IsInOrder self.now.store.tree }
    {
        self.store.step(walk)
    }

    /// The blocks that the origin of a unit uses.
    pub fn usage(&self, key: &Key) -> u64
        ensures { result ≡ usage in_lengths self.now.store.machine (origin_of key.now) }
    {
        self.store.usage(key)
    }

    /// The blocks that the units of an origin may use together.
    pub fn quota(&self) -> u64
        ensures { result ≡ self.now.store.machine.limits.quota }
    {
        self.store.shed().quota()
    }

    /// How many bytes of an area the row or mode takes that the call makes for which all stands ready: what the call adds to
    /// the charge, the blocks that it keeps aside. 0 where it makes none.
    pub fn growth(&self) -> u64
        ensures { result ≡ bytes_added self.now }
    {
        match &self.ready {
            Some(ready) => ready.growth,
            None => 0,
        }
    }

    /// Whether a unit's mode is persistent.
    pub fn is_persistent(&self, key: &Key) -> bool
        ensures { result ≡ is_persistent self.now.store.machine key.now }
    {
        self.store.is_persistent(key)
    }

    /// How many agents there are.
    pub fn agents(&self) -> usize
        ensures count { result ≡ length self.now.store.machine.agents }
        ensures few { result ≤ most_agents }
    {
        self.store.register().agents()
    }

    /// An agent's clock.
    pub fn moment(&self, agent: u32) -> u64
        requires { IsAgent self.now.store.machine agent }
        ensures { result ≡ (agent_of self.now.store.machine agent).moment }
    {
        self.store.register().moment(agent as usize - 1)
    }

    /// How many own rows an agent has.
    pub fn rows(&self, agent: u32) -> usize
        requires { IsAgent self.now.store.machine agent }
        ensures count { result ≡ length (agent_of self.now.store.machine agent).own }
        ensures few { result ≤ most_rows }
    {
        self.store.register().rows(agent as usize - 1)
    }

    /// The key of an agent's origin; None for an opaque origin.
    pub fn key(&self, agent: u32) -> Option<&Key>
        requires { IsAgent self.now.store.machine agent }
        ensures { option_copied result ≡ (agent_of self.now.store.machine agent).key }
    {
        self.store.register().key(agent as usize - 1)
    }

    /// Whether an agent has the grant `persistent-storage`.
    pub fn has_grant(&self, agent: u32) -> bool
        requires { IsAgent self.now.store.machine agent }
        ensures { result ≡ (agent_of self.now.store.machine agent).grant }
    {
        self.store.register().has_grant(agent as usize - 1)
    }

    /// An agent's open access handle of a number; None where the agent has no such row.
    pub fn handle(&self, agent: u32, row: u32) -> Option<&HandleOutline>
        requires { IsAgent self.now.store.machine agent }
        ensures { option_copied result ≡ open_handle in_lengths self.now.store.machine agent row }
    {
        if row == 0 {
            return None;
        }
        self.store
            .register()
            .handle(agent as usize - 1, row as usize - 1)
    }

    /// The file of an agent's open stream or access handle of a number; None where the agent has no such row.
    pub fn row_file(&self, agent: u32, row: u32) -> Option<&Place>
        requires { IsAgent self.now.store.machine agent }
        ensures { option_copied result ≡ row_file self.now.store.machine agent row }
    {
        if row == 0 {
            return None;
        }
        let at = agent as usize - 1;
        if let Some(stream) = self.store.register().stream(at, row as usize - 1) {
            return Some(&stream.file);
        }
        let handle = self.store.register().handle(at, row as usize - 1)?;
        Some(&handle.file)
    }

    /// Whether a tag was posted among those of an agent's party.
    pub fn is_posted(&self, agent: u32, tag: &[u8]) -> bool
        requires { IsAgent self.now.store.machine agent }
        ensures { result ≡ is_posted self.now.store.machine (party_of self.now.store.machine agent) tag.now }
    {
        self.store.register().is_posted(agent as usize - 1, tag)
    }

    /// Whether every other live agent of an agent's party is stuck. Looks at each agent once.
    pub fn others_stuck(&self, agent: u32) -> bool
        requires { IsAgent self.now.store.machine agent }
        ensures { result ≡ others_stuck self.now.store.machine agent }
    {
        self.store.register().others_stuck(agent as usize - 1)
    }

    /// Whether an agent waits for a tag.
    pub fn waits_for(&self, agent: u32, tag: &[u8]) -> bool
        requires { IsAgent self.now.store.machine agent }
        ensures { result ≡ waits_for (agent_of self.now.store.machine agent).waits tag.now }
    {
        self.store.register().waits_for(agent as usize - 1, tag)
    }
}
