// Blocks for a put that waits for them.
ghost use Rattle.std.specs.Prelude.{◌≡◌, length};
ghost use Rattle.opfs_blocks.specs.Sets.{AreBelow};
ghost use Rattle.opfs_records.specs.Replay.Built.{named, has_block};
ghost use Rattle.opfs_pages.specs.RowCalls.Finding.{MayFindBlocks, HasFoundBlocks};
ghost use Rattle.opfs_space.specs.Holders.{AreAllBelow, AreSwept};

use crate::writing::Put;
use opfs_data::Swap;
use opfs_space::Space;
use opfs_tree::ReadyTree;

// Finds anew which blocks are used, and which one page alone has.
fn sweep_anew(space: &mut Space, tree: &ReadyTree, swap: &Swap)
    requires files { AreBelow (length space.old.used) (named tree.now.rows) }
    requires pages { AreAllBelow (length space.old.used) swap.now }
    ensures size { length space.new.used ≡ length space.old.used }
    ensures own { length space.new.own ≡ length space.new.used }
    ensures found { AreSwept (length space.old.used) (has_block (named tree.now.rows)) swap.now space.new.used space.new.own }
{
    space.sweep(tree, swap);
    space.know_kept();
}

/// Finds blocks for a put that waits for them, in a sweep: those that nothing names are free. There are always enough. Takes no
/// memory.
pub fn find_blocks(
    put: &mut Put,
    space: &mut Space,
    tree: &ReadyTree,
    swap: &Swap,
    agent: u32,
    row: u32,
)
    requires may { MayFindBlocks tree.now.rows swap.now space.old agent row put.old }
    ensures found { HasFoundBlocks tree.now.rows swap.now space.old space.new agent row put.old put.new }
{
    sweep_anew(space, tree, swap);
    let found = put.take(space);
    prove!(found);
}
