//! How much a script may ask for.

ghost use Rattle.std.specs.Prelude.{◌≡◌};
ghost use Rattle.opfs_script.specs.Limits.{is_variable, is_number, is_optional_number, is_read_length, is_write, keeps_bounds, bytes_asked};

use crate::step::Step;
use opfs_base::{Data, Text};

/// Whether a step's members keep their bounds.
pub fn keeps_bounds(step: &Step) -> bool
    ensures { result ≡ keeps_bounds step.now }
{
    match step {
        Step::GetDirectory { bind, .. } => is_variable(bind),
        Step::GetDirectoryHandle { dir, bind, .. } => is_variable(dir) && is_variable(bind),
        Step::GetFileHandle { dir, bind, .. } => is_variable(dir) && is_variable(bind),
        Step::RemoveEntry { dir, .. } => is_variable(dir),
        Step::Values { dir, bind } => is_variable(dir) && is_variable(bind),
        Step::Next { iterator, bind } => is_variable(iterator) && is_variable(bind),
        Step::Resolve { dir, entry } => is_variable(dir) && is_variable(entry),
        Step::IsSameEntry { entry, other } => is_variable(entry) && is_variable(other),
        Step::GetFile { file, bind } => is_variable(file) && is_variable(bind),
        Step::Slice { snapshot, at, len } => is_variable(snapshot)
            && is_number(*at)
            && is_read_length(*len),
        Step::CreateWritable { file, bind, .. } => is_variable(file) && is_variable(bind),
        Step::Write {
            stream,
            bytes,
            position,
        } => is_variable(stream) && is_write(bytes) && is_optional_number(*position),
        Step::Seek { stream, position } => is_variable(stream) && is_number(*position),
        Step::Truncate { stream, size } => is_variable(stream) && is_number(*size),
        Step::Close { stream } => is_variable(stream),
        Step::Abort { stream } => is_variable(stream),
        Step::CreateSyncAccessHandle { file, bind, .. } => is_variable(file) && is_variable(bind),
        Step::SyncRead { sync, len, at } => is_variable(sync)
            && is_read_length(*len)
            && is_optional_number(*at),
        Step::SyncWrite { sync, bytes, at } => is_variable(sync)
            && is_write(bytes)
            && is_optional_number(*at),
        Step::SyncTruncate { sync, size } => is_variable(sync) && is_number(*size),
        Step::SyncGetSize { sync } => is_variable(sync),
        Step::SyncFlush { sync } => is_variable(sync),
        Step::SyncClose { sync } => is_variable(sync),
        Step::Persist { .. } => true,
        Step::Persisted { .. } => true,
        Step::Estimate => true,
        Step::Moment { ms } => is_number(*ms),
        Step::Post { tag } => is_variable(tag),
        Step::Await { tag } => is_variable(tag),
    }
}

// Whether a variable or a tag has 1 to 64 bytes.
fn is_variable(name: &Text) -> bool
    ensures { result ≡ is_variable name.now }
{
    let len = name.as_bytes().len();
    1 <= len && len <= 64
}

// Whether a number is below 2^53.
fn is_number(number: u64) -> bool
    ensures { result ≡ is_number number }
{
    number <= 9_007_199_254_740_991
}

// Whether a number, if there is one, is below 2^53.
fn is_optional_number(number: Option<u64>) -> bool
    ensures { result ≡ is_optional_number number }
{
    match number {
        Some(number) => is_number(number),
        None => true,
    }
}

// Whether a read asks for at most 65,536 bytes.
fn is_read_length(len: u64) -> bool
    ensures { result ≡ is_read_length len }
{
    len <= 65_536
}

// Whether a write has at most 16,777,216 bytes.
fn is_write(bytes: &Data) -> bool
    ensures { result ≡ is_write bytes.now }
{
    bytes.len() <= 16_777_216
}

/// How many bytes a step writes or asks to read.
pub fn bytes_asked(step: &Step) -> u64
    ensures { result ≡ bytes_asked step.now }
{
    match step {
        Step::Slice { len, .. } | Step::SyncRead { len, .. } => *len,
        Step::Write { bytes, .. } | Step::SyncWrite { bytes, .. } => bytes.len(),
        _ => 0,
    }
}
