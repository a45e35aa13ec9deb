//! The shared store.

ghost use Rattle.std.specs.Prelude.{◌≡◌, not, ◌&&◌, is_some, IsTrue};
ghost use Rattle.opfs_pool.specs.Shares.{has_share, share_at, changed};
ghost use Rattle.opfs_shed.specs.Buckets.{bucket_at};
ghost use Rattle.opfs_tree.specs.Rows.{row_at, none_taken};

use opfs_base::{Key, Path};
use opfs_pool::Pool;
use opfs_register::Register;
use opfs_shed::Shed;
use opfs_tree::ReadyTree;
use std::marker::Model;

/// The shared store, seen as the machine in lengths, as the rows of its tree with their blocks, and as what is prepared.
pub struct Standing {
    pub(crate) tree: ReadyTree,
    pub(crate) shed: Shed,
    pub(crate) pool: Pool,
    pub(crate) register: Register,
    // The charge of rows and modes, without that of blocks.
    pub(crate) fixed: u64,
    // The path of each root.
    pub(crate) root: Path,
}

impl Model for Standing {
    ghost use Rattle.opfs_state_rows.specs.Standing.Seen.{Seen, machine_of, prepared_of};
    ghost use Rattle.opfs_state_rows.specs.Standing.Tied.{IsTied};

    ghost Value = { Seen };

    ghost view = { λ s. record { machine = machine_of s.tree.rows s.shed.buckets s.register; tree = s.tree.rows; prepared = prepared_of s.tree.ready s.pool.shares s.register } };

    ghost invariant = { λ s. IsTied (machine_of s.tree.rows s.shed.buckets s.register) s.shed s.pool s.fixed s.root };
}

// Says anew whether a unit may be cleared: where it has a root, is best-effort and has no taken lock.
pub(crate) fn mark(pool: &mut Pool, tree: &ReadyTree, shed: &Shed, root: &Path, unit: &Key)
    requires { IsTrue (has_share pool.old.shares unit.now) }
    ensures { pool.new ≡ changed pool.old unit.now (record (share_at pool.old.shares unit.now) { candidate = is_some (row_at (unit.now, root.now) tree.now.rows) && not (bucket_at shed.now.buckets unit.now).persistent && none_taken unit.now tree.now.rows }) }
{
    let candidate = tree.none_taken(unit)
        && !shed.is_persistent(unit)
        && tree.kind(unit, root).is_some();
    pool.mark(unit, candidate);
}
