//! How the shared store begins and ends.

ghost use Rattle.std.specs.Prelude.{◌≡◌, ◌+◌, ◌≤◌, ◌∷◌, [], List, None, IfOk, OnOk};
ghost use Rattle.opfs_base.specs.Texts.{Text};
ghost use Rattle.opfs_pool.specs.Shares.{held};
ghost use Rattle.opfs_shed.specs.Buckets.{Storage};
ghost use Rattle.opfs_state_rows.specs.Standing.Beginnings.{IsBegun, IsCounted, files_in};
ghost use Rattle.opfs_state_rows.specs.Standing.Seen.{machine_of};
ghost use Rattle.opfs_state_rows.specs.Standing.Sums.{anywhere};
ghost use Rattle.opfs_tree.specs.Rows.{Rows, durable_blocks};

use crate::standing::standing::{Standing, mark};
use opfs_base::{BLOCK_CHARGE, Key, Path, blocks};
use opfs_pool::Pool;
use opfs_register::Register;
use opfs_shed::Shed;
use opfs_tree::{ReadyTree, Row, Tree, Walk};
use std::alloc::{AllocError, Global};

impl Standing {
    /// The shared store over the rows of a tree and their buckets, where no agent has a row. Its charge is told.
    pub fn make(
        alloc: Global,
        tree: Tree,
        shed: Shed,
        register: Register,
        charge: u64,
    ) -> Result<Standing, AllocError>
        requires { IsBegun (machine_of tree shed.buckets register) shed charge }
        ensures machine { IfOk result (λ s. s.machine ≡ machine_of tree shed.buckets register) }
        ensures tree { IfOk result (λ s. s.tree ≡ tree) }
        ensures place { IfOk result (λ s. s.prepared.place ≡ None) }
    {
        let tree = ReadyTree::make(alloc, tree);
        let mut shed = shed;
        let root = Path::root(alloc);
        match shares_of(alloc, &tree, &mut shed, &root, register.limits().blocks) {
            Ok(pool) => {
                shed.know_order();
                let fixed = charge - BLOCK_CHARGE * pool.count();
                Ok(Standing {
                    tree,
                    shed,
                    pool,
                    register,
                    fixed,
                    root,
                })
            }
            Err(error) => {
                register.end();
                Err(error)
            }
        }
    }

    /// Ends the shared store, without giving any lock back.
    pub fn end(self) {
        let Standing {
            tree: _tree,
            shed: _shed,
            pool: _pool,
            register,
            fixed: _fixed,
            root: _root,
        } = self;
        register.end();
    }
}

// A share for each unit that has rows, with the blocks of its files; it tells whether the unit may be cleared. Each of
// these units has a bucket then.
fn shares_of(
    alloc: Global,
    tree: &ReadyTree,
    shed: &mut Shed,
    root: &Path,
    size: u64,
) -> Result<Pool, AllocError>
    requires root { root.now ≡ [] }
    requires room { files_in anywhere tree.now.rows ≤ size }
    ensures size { IfOk result (λ pool. pool.size ≡ size) }
    ensures counted { IfOk result (λ pool. IsCounted tree.now.rows [] shed.old shed.new pool) }
{
    let mut pool = Pool::make(alloc, size);
    let mut walk = Walk::make();
    while let Some(row) = tree.step(&mut walk) {
        count_row(tree, shed, &mut pool, root, walk.key(), row)?;
    }
    Ok(pool)
}

// Counts a row among those of its unit.
fn count_row(
    tree: &ReadyTree,
    shed: &mut Shed,
    pool: &mut Pool,
    root: &Path,
    unit: &Key,
    row: &Row,
) -> Result<(), AllocError>
    requires root { root.now ≡ [] }
    requires room { held pool.old.shares + durable_blocks row.now ≤ pool.old.size }
    ensures size { OnOk result (pool.new.size ≡ pool.old.size) }
    ensures counted { OnOk result ((start : Storage) (path : List Text) (rest : Rows) → IsCounted tree.now.rows (((unit.now, path), row.now) ∷ rest) start shed.old pool.old → IsCounted tree.now.rows rest start shed.new pool.new) }
{
    let blocks = durable_blocks(row);
    shed.touch(unit)?;
    pool.touch(unit)?;
    pool.raise(unit, blocks);
    mark(pool, tree, shed, root, unit);
    Ok(())
}

// The blocks of the stored bytes of a file; none of a directory.
fn durable_blocks(row: &Row) -> u64
    ensures { result ≡ durable_blocks row.now }
{
    match row {
        Row::Dir => 0,
        Row::File(file) => blocks(file.length),
    }
}
