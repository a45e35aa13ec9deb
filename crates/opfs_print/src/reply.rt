//! The texts of replies.

ghost use Rattle.std.specs.Prelude.{◌≡◌, false, map, IfOk, string_bytes};
ghost use Rattle.serde_json.specs.Data.{string, array};
ghost use Rattle.serde_json.specs.View.{view, items_of};
ghost use Rattle.serde_json.specs.Written.{compact_text, items_have_float};
ghost use Rattle.opfs_print.specs.Lines.{lock_text, kind_text, name_text, names_text, refusal_text, read_text, reply_text};

use opfs_base::{Kind, Name, Path};
use opfs_hist::{Refusal, Reply};
use opfs_locks::LockValue;
use serde_json::Value;
use std::alloc::{AllocError, Global};

/// A reply as it stands in a line.
pub fn reply_text(alloc: Global, reply: &Reply) -> Result<String, AllocError>
    ensures { IfOk result (λ text. string_bytes text ≡ reply_text reply.now) }
{
    match reply {
        Reply::Done => String::from_str(alloc, "ok"),
        Reply::Length(count) => format!(in alloc; "ok {count}"),
        Reply::Flag(true) => String::from_str(alloc, "ok true"),
        Reply::Flag(false) => String::from_str(alloc, "ok false"),
        Reply::Child(kind, name) => child_text(alloc, *kind, name),
        Reply::Last => String::from_str(alloc, "ok end"),
        Reply::NoPath => String::from_str(alloc, "ok null"),
        Reply::Names(path) => path_text(alloc, path),
        Reply::FileInfo(size, stamp) => format!(in alloc; "ok {size} {stamp}"),
        Reply::Read(bytes) => read_text(alloc, bytes.as_slice()),
        Reply::Estimate(usage, quota) => format!(in alloc; "ok {usage} {quota}"),
        Reply::Gone(key) => String::from_str(alloc, key.as_str()),
        Reply::No(refusal) => refusal_text(alloc, refusal),
    }
}

// The reply that names a child.
fn child_text(alloc: Global, kind: Kind, name: &Name) -> Result<String, AllocError>
    ensures { IfOk result (λ text. string_bytes text ≡ reply_text (Reply.Child kind name.now)) }
{
    let name = name_text(alloc, name)?;
    format!(in alloc; "ok {} {}", kind_text(kind), name.as_str())
}

// The reply that has a path.
fn path_text(alloc: Global, path: &Path) -> Result<String, AllocError>
    ensures { IfOk result (λ text. string_bytes text ≡ reply_text (Reply.Names path.now)) }
{
    let names = names_text(alloc, path.names())?;
    format!(in alloc; "ok {}", names.as_str())
}

// What an entry is.
fn kind_text(kind: Kind) -> &'static str
    ensures { result.now ≡ kind_text kind }
{
    match kind {
        Kind::File => "file",
        Kind::Directory => "directory",
    }
}

// A name as JSON.
fn name_text(alloc: Global, name: &Name) -> Result<String, AllocError>
    ensures { IfOk result (λ text. string_bytes text ≡ name_text name.now) }
{
    Value::try_from_str(alloc, name.as_str())?.to_string(alloc)
}

/// Names as JSON.
pub fn names_text(alloc: Global, names: &[Name]) -> Result<String, AllocError>
    ensures { IfOk result (λ text. string_bytes text ≡ names_text names.now) }
{
    array_text(alloc, json_names(alloc, names)?)
}

// JSON values without numbers as a JSON array.
fn array_text(alloc: Global, values: Vec<Value>) -> Result<String, AllocError>
    requires { items_have_float (items_of (map view values.items)) ≡ false }
    ensures { IfOk result (λ text. string_bytes text ≡ compact_text (array (items_of (map view values.items)))) }
{
    let array = Value::Array(values);
    array.to_string(alloc)
}

// Names as JSON values.
fn json_names(alloc: Global, names: &[Name]) -> Result<Vec<Value>, AllocError>
    ensures { IfOk result (λ values. map view values.items ≡ map string names.now) }
{
    let mut values = Vec::with_capacity(alloc, names.len())?;
    for name in names {
        values.push(Value::try_from_str(alloc, name.as_str())?)?;
    }
    Ok(values)
}

// Bytes that were read.
fn read_text(alloc: Global, bytes: &[u8]) -> Result<String, AllocError>
    ensures { IfOk result (λ text. string_bytes text ≡ read_text bytes.now) }
{
    if bytes.is_empty() {
        return String::from_str(alloc, "ok 0");
    }
    let digits = hex::encode(alloc, bytes)?;
    format!(in alloc; "ok {} {}", bytes.len(), digits.as_str())
}

// A refusal and what it carries.
fn refusal_text(alloc: Global, refusal: &Refusal) -> Result<String, AllocError>
    ensures { IfOk result (λ text. string_bytes text ≡ refusal_text refusal.now) }
{
    match refusal {
        Refusal::TypeError => String::from_str(alloc, "TypeError"),
        Refusal::NotFoundError => String::from_str(alloc, "NotFoundError"),
        Refusal::TypeMismatchError => String::from_str(alloc, "TypeMismatchError"),
        Refusal::InvalidModificationError => String::from_str(alloc, "InvalidModificationError"),
        Refusal::NoModificationAllowedError(value, count) => {
            format!(in alloc; "NoModificationAllowedError {} {count}", lock_text(*value))
        }
        Refusal::InvalidStateError => String::from_str(alloc, "InvalidStateError"),
        Refusal::SecurityError => String::from_str(alloc, "SecurityError"),
        Refusal::QuotaExceededError(usage, need, quota) => {
            format!(in alloc; "QuotaExceededError {usage} {need} {quota}")
        }
        Refusal::NameLimit => String::from_str(alloc, "NameLimit"),
        Refusal::MetaFull(charge, growth, area) => format!(in alloc;
            "MetaFull {charge} {growth} {area}"
        ),
        Refusal::DataFull(pool, need, size) => format!(in alloc; "DataFull {pool} {need} {size}"),
        Refusal::DiskFault => String::from_str(alloc, "DiskFault"),
        Refusal::Stuck => String::from_str(alloc, "Stuck"),
        Refusal::Unbound => String::from_str(alloc, "Unbound"),
    }
}

// What a lock is.
fn lock_text(value: LockValue) -> &'static str
    ensures { result.now ≡ lock_text value }
{
    match value {
        LockValue::Free => "open",
        LockValue::Exclusive => "taken-exclusive",
        LockValue::Shared => "taken-shared",
        LockValue::ReadOnly => "taken-read-only",
    }
}
