//! What calls change of directories and their entries.
#![tactic(auto, unfolding(opfs_machine::specs::Machine::machine))]

ghost use Rattle.std.specs.Prelude.{◌≡◌, IsTrue, IfOk, OnOk};
ghost use Rattle.std.specs.Option.{option_copied};
ghost use Rattle.opfs_base.specs.Names.{is_valid_name};
ghost use Rattle.opfs_base.specs.Places.{place_of, child};
ghost use Rattle.opfs_machine.specs.Agents.{agent_of, adds_own};
ghost use Rattle.opfs_machine.specs.Contents.{in_bytes, advanced_row};
ghost use Rattle.opfs_machine.specs.Effects.{made, opens_bucket, new_row, moment_of, takes_snapshot, with_changed};
ghost use Rattle.opfs_machine.specs.Rows.{row_at, without, file_at, children_of};
ghost use Rattle.opfs_rulings.specs.Known.{IsAgent, IsOwn};

use crate::splicing::no_bytes;
use opfs_base::{Kind, Locator, Name, SharedBytes, Text};
use opfs_locks::LockValue;
use opfs_machine::{FileRow, IteratorRow, Many, Own, Row, child_place, root_of};
use opfs_rulings::{Board, agent, file_at, next_given, place_of};
use std::alloc::{AllocError, Global};

/// getDirectory makes a missing root.
pub fn open_bucket(
    alloc: Global,
    state: &mut Board,
    number: u32,
    bucket: &Text,
) -> Result<(), AllocError>
    requires { IsAgent state.old number }
    ensures { OnOk result (state.new ≡ opens_bucket state.old bucket.now (agent_of state.old number).key) }
{
    let Some(origin) = &agent(state, number).key else {
        return Ok(());
    };
    let root = root_of(alloc, origin, bucket)?;
    state.make_row(alloc, root, Row::Directory)
}

/// The row that a call makes.
fn new_row(alloc: Global, kind: Kind, stamp: u64) -> Result<Row<SharedBytes>, AllocError>
    ensures { IfOk result (λ row. row ≡ new_row in_bytes kind stamp) }
{
    match kind {
        Kind::Directory => Ok(Row::Directory),
        Kind::File => {
            let present = no_bytes(alloc)?;
            let durable = present.share()?;
            Ok(Row::File(FileRow {
                present,
                stamp,
                lock: (LockValue::Free, 0),
                durable,
                durable_stamp: stamp,
            }))
        }
    }
}

/// getFileHandle and getDirectoryHandle make a missing child.
pub fn make_child(
    alloc: Global,
    state: &mut Board,
    number: u32,
    kind: Kind,
    dir: &Locator,
    name: &Text,
) -> Result<(), AllocError>
    requires agent { IsAgent state.old number }
    requires valid { IsTrue (is_valid_name name.now) }
    ensures { OnOk result (state.new ≡ made state.old (child (place_of dir.now) name.now) (new_row in_bytes kind (moment_of state.old number))) }
{
    let place = child_place(alloc, dir, name)?;
    let row = new_row(alloc, kind, agent(state, number).moment)?;
    state.make_row(alloc, place, row)
}

/// removeEntry.
pub fn remove_child(
    alloc: Global,
    state: &mut Board,
    dir: &Locator,
    name: &Text,
) -> Result<(), AllocError>
    requires { IsTrue (is_valid_name name.now) }
    ensures { OnOk result (state.new ≡ without state.old (child (place_of dir.now) name.now)) }
{
    let place = child_place(alloc, dir, name)?;
    state.remove_within(&place);
    Ok(())
}

/// getFile.
pub fn take_snapshot(state: &mut Board, number: u32, at: &Locator) -> Result<(), AllocError>
    requires { IsAgent state.old number }
    ensures { OnOk result (state.new ≡ takes_snapshot in_bytes state.old number (file_at state.old (place_of at.now))) }
{
    let Some(file) = file_at(state, &at.key, &at.path) else {
        return Ok(());
    };
    let bytes = file.present.share()?;
    state.add_own(number, Own::Snapshot(bytes))
}

/// values.
pub fn add_iterator(
    alloc: Global,
    state: &mut Board,
    number: u32,
    dir: &Locator,
) -> Result<(), AllocError>
    requires { IsAgent state.old number }
    ensures { OnOk result (state.new ≡ adds_own state.old number (in_bytes.iterator dir.now)) }
{
    let dir = dir.copy(alloc)?;
    let given = Many {
        items: Vec::new(alloc),
    };
    state.add_own(number, Own::Iterator(IteratorRow { dir, given }))
}

/// A copy of a name that may be there.
fn copy_name(alloc: Global, name: Option<&Name>) -> Result<Option<Name>, AllocError>
    ensures { IfOk result (λ copy. copy ≡ option_copied name.entry) }
{
    match name {
        None => Ok(None),
        Some(name) => Ok(Some(name.copy(alloc)?)),
    }
}

/// next of an iterator: it has given one more name, or the end.
pub fn advance(
    alloc: Global,
    state: &mut Board,
    number: u32,
    row: u32,
    dir: &Locator,
) -> Result<(), AllocError>
    requires agent { IsAgent state.old number }
    requires row { IsOwn (agent_of state.old number) row }
    ensures { OnOk result (state.new ≡ with_changed state.old number row (λ r. advanced_row r (children_of state.old (place_of dir.now)))) }
{
    let place = place_of(alloc, dir)?;
    state.follow(alloc, number, row, &place);
    let name = copy_name(alloc, next_given(alloc, state, number, row, &place)?)?;
    state.give(alloc, number, row, name)?;
    Ok(())
}
