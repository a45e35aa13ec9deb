//! What the files of each unit use, and what the rows add to the charge.

ghost use Rattle.std.specs.Prelude.{◌≡◌, ◌+◌, sum_by, IfOk, OnOk};
ghost use Rattle.opfs_base.specs.Texts.{Text};
ghost use Rattle.opfs_codec.specs.declared.change.Format.TheVariants.{New};
ghost use Rattle.opfs_records.specs.Replay.Kept.{share};
ghost use Rattle.opfs_records.specs.Replay.Sums.{row_blocks, usage_in, row_charge, persistent_in};
ghost use Rattle.opfs_shed.specs.Buckets.{bucket_at, whole_usage};

use crate::replay::charges::row_charge;
use opfs_base::{Key, plus};
use opfs_shed::Shed;
use opfs_tree::{Row, Tree, Walk};
use std::alloc::AllocError;

/// Counts the blocks of all files in a shed that has none, and gives the charge of the rows.
pub(crate) fn fill(shed: &mut Shed, tree: &Tree) -> Result<u64, AllocError>
    requires unused { (unit : Text) → (bucket_at shed.old.buckets unit).usage ≡ 0 }
    requires none { whole_usage shed.old.buckets ≡ 0 }
    ensures charge { IfOk result (λ charge. charge ≡ sum_by (λ e. row_charge New e.0 e.1) tree.now) }
    ensures usage { OnOk result ((unit : Text) → (bucket_at shed.new.buckets unit).usage ≡ usage_in unit tree.now) }
    ensures persistent { OnOk result (persistent_in shed.new.buckets ≡ persistent_in shed.old.buckets) }
    ensures quota { OnOk result (shed.new.quota ≡ shed.old.quota) }
{
    let mut walk = Walk::make();
    let mut used = 0;
    let mut charge = 0;
    while let Some(row) = tree.step(&mut walk) {
        used = count_blocks(shed, walk.key(), blocks_of(row), used)?;
        let more = row_charge(walk.key(), walk.path(), row)?;
        charge = plus(charge, more)?;
    }
    Ok(charge)
}

// The blocks that a row's file uses.
fn blocks_of(row: &Row) -> u64
    ensures { result ≡ row_blocks row.now }
{
    match row {
        Row::Dir => 0,
        Row::File(file) => file.length.div_ceil(4096),
    }
}

// Lets a unit use blocks more, and gives what all units use then.
fn count_blocks(shed: &mut Shed, unit: &Key, blocks: u64, used: u64) -> Result<u64, AllocError>
    requires { used ≡ whole_usage shed.old.buckets }
    ensures used { IfOk result (λ sum. sum ≡ whole_usage shed.new.buckets) }
    ensures usage { OnOk result ((other : Text) → (bucket_at shed.new.buckets other).usage ≡ (bucket_at shed.old.buckets other).usage + share other unit.now blocks) }
    ensures persistent { OnOk result (persistent_in shed.new.buckets ≡ persistent_in shed.old.buckets) }
    ensures quota { OnOk result (shed.new.quota ≡ shed.old.quota) }
{
    let sum = plus(used, blocks)?;
    shed.touch(unit)?;
    shed.add(unit, blocks);
    Ok(sum)
}
