//! What steps on files and directories ask.

ghost use Rattle.std.specs.Prelude.{◌≡◌, IfOk};
ghost use Rattle.opfs_script_run.specs.Runs.Running.{named_by, a_directory, a_file, an_entry, called, called_by_two, next_op, mode_of};

use crate::runs::hand::{Hand, Named};
use crate::runs::kinds::{directory, entry, file};
use opfs_base::Text;
use opfs_hist::{Mode, Op, Word};
use std::alloc::{AllocError, Global};

/// getDirectoryHandle.
pub fn get_directory_handle(
    alloc: Global,
    hand: &Hand,
    dir: &Text,
    name: &Text,
    create: bool,
) -> Result<Op, AllocError>
    ensures { IfOk result (λ op. op ≡ called Word.GetDirectoryHandle (a_directory (named_by hand.now dir.now)) (λ at. Op.GetDirectoryHandle at name.now create)) }
{
    let Some(at) = directory(hand, dir) else {
        return Ok(Op::Unbound {
            word: Word::GetDirectoryHandle,
        });
    };
    let dir = at.copy(alloc)?;
    let name = name.copy(alloc)?;
    Ok(Op::GetDirectoryHandle { dir, name, create })
}

/// getFileHandle.
pub fn get_file_handle(
    alloc: Global,
    hand: &Hand,
    dir: &Text,
    name: &Text,
    create: bool,
) -> Result<Op, AllocError>
    ensures { IfOk result (λ op. op ≡ called Word.GetFileHandle (a_directory (named_by hand.now dir.now)) (λ at. Op.GetFileHandle at name.now create)) }
{
    let Some(at) = directory(hand, dir) else {
        return Ok(Op::Unbound {
            word: Word::GetFileHandle,
        });
    };
    let dir = at.copy(alloc)?;
    let name = name.copy(alloc)?;
    Ok(Op::GetFileHandle { dir, name, create })
}

/// removeEntry.
pub fn remove_entry(
    alloc: Global,
    hand: &Hand,
    dir: &Text,
    name: &Text,
    recursive: bool,
) -> Result<Op, AllocError>
    ensures { IfOk result (λ op. op ≡ called Word.RemoveEntry (a_directory (named_by hand.now dir.now)) (λ at. Op.RemoveEntry at name.now recursive)) }
{
    let Some(at) = directory(hand, dir) else {
        return Ok(Op::Unbound {
            word: Word::RemoveEntry,
        });
    };
    let dir = at.copy(alloc)?;
    let name = name.copy(alloc)?;
    Ok(Op::RemoveEntry {
        dir,
        name,
        recursive,
    })
}

/// values.
pub fn values(alloc: Global, hand: &Hand, dir: &Text) -> Result<Op, AllocError>
    ensures { IfOk result (λ op. op ≡ called Word.Values (a_directory (named_by hand.now dir.now)) (λ at. Op.Values at)) }
{
    let Some(at) = directory(hand, dir) else {
        return Ok(Op::Unbound { word: Word::Values });
    };
    let dir = at.copy(alloc)?;
    Ok(Op::Values { dir })
}

/// next.
pub fn next(alloc: Global, hand: &Hand, from: &Text) -> Result<Op, AllocError>
    ensures { IfOk result (λ op. op ≡ next_op (named_by hand.now from.now)) }
{
    let Some(Named::Iterator(row, at)) = hand.bound.named_by(from) else {
        return Ok(Op::Unbound { word: Word::Next });
    };
    let dir = at.copy(alloc)?;
    Ok(Op::Next { row: *row, dir })
}

/// resolve.
pub fn resolve(alloc: Global, hand: &Hand, dir: &Text, to: &Text) -> Result<Op, AllocError>
    ensures { IfOk result (λ op. op ≡ called_by_two Word.Resolve (a_directory (named_by hand.now dir.now)) (an_entry (named_by hand.now to.now)) (λ at to. Op.Resolve at to)) }
{
    let (Some(at), Some(to)) = (directory(hand, dir), entry(hand, to)) else {
        return Ok(Op::Unbound {
            word: Word::Resolve,
        });
    };
    let dir = at.copy(alloc)?;
    let entry = to.copy(alloc)?;
    Ok(Op::Resolve { dir, entry })
}

/// isSameEntry.
pub fn is_same_entry(alloc: Global, hand: &Hand, a: &Text, b: &Text) -> Result<Op, AllocError>
    ensures { IfOk result (λ op. op ≡ called_by_two Word.IsSameEntry (an_entry (named_by hand.now a.now)) (an_entry (named_by hand.now b.now)) (λ a b. Op.IsSameEntry a b)) }
{
    let (Some(a), Some(b)) = (entry(hand, a), entry(hand, b)) else {
        return Ok(Op::Unbound {
            word: Word::IsSameEntry,
        });
    };
    let entry = a.copy(alloc)?;
    let other = b.copy(alloc)?;
    Ok(Op::IsSameEntry { entry, other })
}

/// getFile.
pub fn get_file(alloc: Global, hand: &Hand, variable: &Text) -> Result<Op, AllocError>
    ensures { IfOk result (λ op. op ≡ called Word.GetFile (a_file (named_by hand.now variable.now)) (λ at. Op.GetFile at)) }
{
    let Some(at) = file(hand, variable) else {
        return Ok(Op::Unbound {
            word: Word::GetFile,
        });
    };
    let file = at.copy(alloc)?;
    Ok(Op::GetFile { file })
}

/// createWritable.
pub fn create_writable(
    alloc: Global,
    hand: &Hand,
    variable: &Text,
    keep: bool,
) -> Result<Op, AllocError>
    ensures { IfOk result (λ op. op ≡ called Word.CreateWritable (a_file (named_by hand.now variable.now)) (λ at. Op.CreateWritable at keep)) }
{
    let Some(at) = file(hand, variable) else {
        return Ok(Op::Unbound {
            word: Word::CreateWritable,
        });
    };
    let file = at.copy(alloc)?;
    Ok(Op::CreateWritable { file, keep })
}

/// createSyncAccessHandle.
pub fn create_sync_access_handle(
    alloc: Global,
    hand: &Hand,
    variable: &Text,
    read_only: bool,
) -> Result<Op, AllocError>
    ensures { IfOk result (λ op. op ≡ called Word.CreateSyncAccessHandle (a_file (named_by hand.now variable.now)) (λ at. Op.CreateSyncAccessHandle at (mode_of read_only))) }
{
    let Some(at) = file(hand, variable) else {
        return Ok(Op::Unbound {
            word: Word::CreateSyncAccessHandle,
        });
    };
    let file = at.copy(alloc)?;
    Ok(Op::CreateSyncAccessHandle {
        file,
        mode: mode_of(read_only),
    })
}

/// The mode that a step asks for.
fn mode_of(read_only: bool) -> Mode
    ensures { result ≡ mode_of read_only }
{
    if read_only {
        Mode::ReadOnly
    } else {
        Mode::ReadWrite
    }
}
