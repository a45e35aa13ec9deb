//! The shape of a step: an object with the members of its word.

ghost use Rattle.std.specs.Prelude.{◌≡◌, true, false, None, Some, IsTrue, IfOk, MatchResult};
ghost use Rattle.serde_json.specs.View.{view};
ghost use Rattle.opfs_script.specs.Shapes.{built, shaped};
ghost use Rattle.opfs_script.specs.Limits.{keeps_bounds};
ghost use Rattle.opfs_script.specs.Faults.{Reads};

use crate::fault::Fault;
use crate::limits::keeps_bounds;
use crate::members::{flag, has_only, number, optional_number, read_only, text, text_or};
use crate::step::Step;
use crate::telling::bytes;
use crate::words::members_of;
use opfs_hist::Word;
use serde_json::Value;
use std::alloc::Global;

/// The step of a word that an object tells. It has the word's members, each of its form and in its bounds, and no
/// other.
#[tactic(auto, unfolding(crate::specs::Shapes::shaped))]
pub fn shaped(alloc: Global, word: Word, value: &Value) -> Result<Step, Fault>
    ensures step { Reads result (shaped word (view value.now)) }
    ensures bounded { IfOk result (λ step. IsTrue (keeps_bounds step)) }
{
    if !has_only(value, members_of(word)) {
        return Err(Fault::Shape);
    }
    let step = built(alloc, word, value)?;
    kept(keeps_bounds(&step), step)
}

// A value that is kept where a test says so.
fn kept<T: Drop>(keeps: bool, value: T) -> Result<T, Fault>
    ensures { MatchResult result (λ x. (keeps ≡ true) × (x ≡ value)) (λ fault. keeps ≡ false) }
{
    if keeps { Ok(value) } else { Err(Fault::Shape) }
}

// The step of a word with an object's members.
fn built(alloc: Global, word: Word, value: &Value) -> Result<Step, Fault>
    ensures { Reads result (built word (view value.now)) }
{
    match word {
        Word::GetDirectory => get_directory(alloc, value),
        Word::GetDirectoryHandle => get_directory_handle(alloc, value),
        Word::GetFileHandle => get_file_handle(alloc, value),
        Word::RemoveEntry => remove_entry(alloc, value),
        Word::Values => values(alloc, value),
        Word::Next => next(alloc, value),
        Word::Resolve => resolve(alloc, value),
        Word::IsSameEntry => is_same_entry(alloc, value),
        Word::GetFile => get_file(alloc, value),
        Word::Slice => slice(alloc, value),
        Word::CreateWritable => create_writable(alloc, value),
        Word::Write => write(alloc, value),
        Word::Seek => seek(alloc, value),
        Word::Truncate => truncate(alloc, value),
        Word::Close => close(alloc, value),
        Word::Abort => abort(alloc, value),
        Word::CreateSyncAccessHandle => create_sync_access_handle(alloc, value),
        Word::SyncRead => sync_read(alloc, value),
        Word::SyncWrite => sync_write(alloc, value),
        Word::SyncTruncate => sync_truncate(alloc, value),
        Word::SyncGetSize => sync_get_size(alloc, value),
        Word::SyncFlush => sync_flush(alloc, value),
        Word::SyncClose => sync_close(alloc, value),
        Word::Persist => persist(alloc, value),
        Word::Persisted => persisted(alloc, value),
        Word::Estimate => Ok(Step::Estimate),
        Word::Moment => moment(value),
        Word::Post => post(alloc, value),
        Word::Await => await_(alloc, value),
    }
}

fn get_directory(alloc: Global, value: &Value) -> Result<Step, Fault>
    ensures { Reads result (built Word.GetDirectory (view value.now)) }
{
    let bucket = text_or(alloc, value, "bucket", "default")?;
    let bind = text(alloc, value, "as")?;
    Ok(Step::GetDirectory { bucket, bind })
}

fn get_directory_handle(alloc: Global, value: &Value) -> Result<Step, Fault>
    ensures { Reads result (built Word.GetDirectoryHandle (view value.now)) }
{
    let dir = text(alloc, value, "dir")?;
    let name = text(alloc, value, "name")?;
    let create = flag(value, "create")?;
    let bind = text(alloc, value, "as")?;
    Ok(Step::GetDirectoryHandle {
        dir,
        name,
        create,
        bind,
    })
}

fn get_file_handle(alloc: Global, value: &Value) -> Result<Step, Fault>
    ensures { Reads result (built Word.GetFileHandle (view value.now)) }
{
    let dir = text(alloc, value, "dir")?;
    let name = text(alloc, value, "name")?;
    let create = flag(value, "create")?;
    let bind = text(alloc, value, "as")?;
    Ok(Step::GetFileHandle {
        dir,
        name,
        create,
        bind,
    })
}

fn remove_entry(alloc: Global, value: &Value) -> Result<Step, Fault>
    ensures { Reads result (built Word.RemoveEntry (view value.now)) }
{
    let dir = text(alloc, value, "dir")?;
    let name = text(alloc, value, "name")?;
    let recursive = flag(value, "recursive")?;
    Ok(Step::RemoveEntry {
        dir,
        name,
        recursive,
    })
}

fn values(alloc: Global, value: &Value) -> Result<Step, Fault>
    ensures { Reads result (built Word.Values (view value.now)) }
{
    let dir = text(alloc, value, "dir")?;
    let bind = text(alloc, value, "as")?;
    Ok(Step::Values { dir, bind })
}

fn next(alloc: Global, value: &Value) -> Result<Step, Fault>
    ensures { Reads result (built Word.Next (view value.now)) }
{
    let iterator = text(alloc, value, "iterator")?;
    let bind = text(alloc, value, "as")?;
    Ok(Step::Next { iterator, bind })
}

fn resolve(alloc: Global, value: &Value) -> Result<Step, Fault>
    ensures { Reads result (built Word.Resolve (view value.now)) }
{
    let dir = text(alloc, value, "dir")?;
    let entry = text(alloc, value, "entry")?;
    Ok(Step::Resolve { dir, entry })
}

fn is_same_entry(alloc: Global, value: &Value) -> Result<Step, Fault>
    ensures { Reads result (built Word.IsSameEntry (view value.now)) }
{
    let entry = text(alloc, value, "entry")?;
    let other = text(alloc, value, "other")?;
    Ok(Step::IsSameEntry { entry, other })
}

fn get_file(alloc: Global, value: &Value) -> Result<Step, Fault>
    ensures { Reads result (built Word.GetFile (view value.now)) }
{
    let file = text(alloc, value, "file")?;
    let bind = text(alloc, value, "as")?;
    Ok(Step::GetFile { file, bind })
}

fn slice(alloc: Global, value: &Value) -> Result<Step, Fault>
    ensures { Reads result (built Word.Slice (view value.now)) }
{
    let snapshot = text(alloc, value, "snapshot")?;
    let at = number(value, "at")?;
    let len = number(value, "len")?;
    Ok(Step::Slice { snapshot, at, len })
}

fn create_writable(alloc: Global, value: &Value) -> Result<Step, Fault>
    ensures { Reads result (built Word.CreateWritable (view value.now)) }
{
    let file = text(alloc, value, "file")?;
    let keep = flag(value, "keepExistingData")?;
    let bind = text(alloc, value, "as")?;
    Ok(Step::CreateWritable { file, keep, bind })
}

fn write(alloc: Global, value: &Value) -> Result<Step, Fault>
    ensures { Reads result (built Word.Write (view value.now)) }
{
    let stream = text(alloc, value, "stream")?;
    let bytes = bytes(alloc, value, "data")?;
    let position = optional_number(value, "position")?;
    Ok(Step::Write {
        stream,
        bytes,
        position,
    })
}

fn seek(alloc: Global, value: &Value) -> Result<Step, Fault>
    ensures { Reads result (built Word.Seek (view value.now)) }
{
    let stream = text(alloc, value, "stream")?;
    let position = number(value, "position")?;
    Ok(Step::Seek { stream, position })
}

fn truncate(alloc: Global, value: &Value) -> Result<Step, Fault>
    ensures { Reads result (built Word.Truncate (view value.now)) }
{
    let stream = text(alloc, value, "stream")?;
    let size = number(value, "size")?;
    Ok(Step::Truncate { stream, size })
}

fn close(alloc: Global, value: &Value) -> Result<Step, Fault>
    ensures { Reads result (built Word.Close (view value.now)) }
{
    let stream = text(alloc, value, "stream")?;
    Ok(Step::Close { stream })
}

fn abort(alloc: Global, value: &Value) -> Result<Step, Fault>
    ensures { Reads result (built Word.Abort (view value.now)) }
{
    let stream = text(alloc, value, "stream")?;
    Ok(Step::Abort { stream })
}

fn create_sync_access_handle(alloc: Global, value: &Value) -> Result<Step, Fault>
    ensures { Reads result (built Word.CreateSyncAccessHandle (view value.now)) }
{
    let file = text(alloc, value, "file")?;
    let read_only = read_only(value, "mode")?;
    let bind = text(alloc, value, "as")?;
    Ok(Step::CreateSyncAccessHandle {
        file,
        read_only,
        bind,
    })
}

fn sync_read(alloc: Global, value: &Value) -> Result<Step, Fault>
    ensures { Reads result (built Word.SyncRead (view value.now)) }
{
    let sync = text(alloc, value, "sync")?;
    let len = number(value, "len")?;
    let at = optional_number(value, "at")?;
    Ok(Step::SyncRead { sync, len, at })
}

fn sync_write(alloc: Global, value: &Value) -> Result<Step, Fault>
    ensures { Reads result (built Word.SyncWrite (view value.now)) }
{
    let sync = text(alloc, value, "sync")?;
    let bytes = bytes(alloc, value, "data")?;
    let at = optional_number(value, "at")?;
    Ok(Step::SyncWrite { sync, bytes, at })
}

fn sync_truncate(alloc: Global, value: &Value) -> Result<Step, Fault>
    ensures { Reads result (built Word.SyncTruncate (view value.now)) }
{
    let sync = text(alloc, value, "sync")?;
    let size = number(value, "size")?;
    Ok(Step::SyncTruncate { sync, size })
}

fn sync_get_size(alloc: Global, value: &Value) -> Result<Step, Fault>
    ensures { Reads result (built Word.SyncGetSize (view value.now)) }
{
    let sync = text(alloc, value, "sync")?;
    Ok(Step::SyncGetSize { sync })
}

fn sync_flush(alloc: Global, value: &Value) -> Result<Step, Fault>
    ensures { Reads result (built Word.SyncFlush (view value.now)) }
{
    let sync = text(alloc, value, "sync")?;
    Ok(Step::SyncFlush { sync })
}

fn sync_close(alloc: Global, value: &Value) -> Result<Step, Fault>
    ensures { Reads result (built Word.SyncClose (view value.now)) }
{
    let sync = text(alloc, value, "sync")?;
    Ok(Step::SyncClose { sync })
}

fn persist(alloc: Global, value: &Value) -> Result<Step, Fault>
    ensures { Reads result (built Word.Persist (view value.now)) }
{
    let bucket = text_or(alloc, value, "bucket", "default")?;
    Ok(Step::Persist { bucket })
}

fn persisted(alloc: Global, value: &Value) -> Result<Step, Fault>
    ensures { Reads result (built Word.Persisted (view value.now)) }
{
    let bucket = text_or(alloc, value, "bucket", "default")?;
    Ok(Step::Persisted { bucket })
}

fn moment(value: &Value) -> Result<Step, Fault>
    ensures { Reads result (built Word.Moment (view value.now)) }
{
    let ms = number(value, "ms")?;
    Ok(Step::Moment { ms })
}

fn post(alloc: Global, value: &Value) -> Result<Step, Fault>
    ensures { Reads result (built Word.Post (view value.now)) }
{
    let tag = text(alloc, value, "tag")?;
    Ok(Step::Post { tag })
}

fn await_(alloc: Global, value: &Value) -> Result<Step, Fault>
    ensures { Reads result (built Word.Await (view value.now)) }
{
    let tag = text(alloc, value, "tag")?;
    Ok(Step::Await { tag })
}
