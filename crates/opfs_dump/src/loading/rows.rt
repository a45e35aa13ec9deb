//! The rows of a text.

ghost use Rattle.std.specs.Prelude.{◌≡◌, ◌⊎◌, [], map, true, Ok, Err, IfOk, IfErr};
ghost use Rattle.serde_json.specs.View.{view};
ghost use Rattle.opfs_dump.specs.Text.Limits.{may_all_follow};
ghost use Rattle.opfs_dump.specs.Text.Reading.{rows_from};
ghost use Rattle.opfs_dump.specs.Text.Seen.{row_of};

use crate::loading::fault::Fault;
use crate::loading::following::add_row;
use crate::text::{DumpRefusal, DumpedRow};
use opfs_tree::Tree;
use serde_json::Value;
use std::alloc::Global;

/// All rows, or the first that is bad.
pub(crate) fn rows_of(alloc: Global, values: &[Value]) -> Result<Vec<DumpedRow>, DumpRefusal>
    ensures rows { IfOk result (λ rows. rows_from 1 [] (map view values.now) ≡ Ok (map row_of rows.items)) }
    ensures order { IfOk result (λ rows. may_all_follow [] (map row_of rows.items) ≡ true) }
    ensures refused { IfErr result (λ why. (rows_from 1 [] (map view values.now) ≡ Err why) ⊎ (why ≡ DumpRefusal.NoMemory)) }
{
    let mut rows = Vec::new(alloc);
    let mut tree = Tree::make(alloc);
    for (at, value) in values.iter().enumerate() {
        match add_row(alloc, &mut rows, &mut tree, value) {
            Ok(()) => {}
            Err(Fault::Form) => return Err(DumpRefusal::BadDump(at as u64 + 1)),
            Err(Fault::Memory) => return Err(DumpRefusal::NoMemory),
        }
    }
    Ok(rows)
}
