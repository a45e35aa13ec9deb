//! The lines of a transcript.

ghost use Rattle.std.specs.Prelude.{◌≡◌, ◌<◌, ◌++◌, IfOk, OnOk, OnErr, IsTrue, length, string_bytes};
ghost use Rattle.hex.specs.Hex.{encode_lower};
ghost use Rattle.opfs_hist.specs.declared.entry.Entry.{Entry};
ghost use Rattle.opfs_print.specs.Lines.{word_text, op_text, call_text, line_of, text_of};

use crate::reply::reply_text;
use opfs_hist::{Entries, Entry, Op, Reply, Word};
use std::alloc::{AllocError, Global};

/// Appends an entry's line, or nothing where the agent begins to wait.
pub fn line(alloc: Global, entry: &Entry, into: &mut Vec<u8>) -> Result<(), AllocError>
    ensures ok { OnOk result (into.new.items ≡ into.old.items ++ line_of entry.now) }
    ensures err { OnErr result (into.new.items ≡ into.old.items) }
{
    if let Reply::Read(bytes) = &entry.reply {
        if is_told(&entry.op) && !bytes.is_empty() {
            return read_line(alloc, entry, bytes.as_slice(), into);
        }
    }
    let text = line_text(alloc, entry)?;
    into.extend_from_slice(text.as_bytes())
}

// Whether a call's line is that of an agent, its word and its reply.
fn is_told(op: &Op) -> bool
    ensures { IsTrue result → (entry : Entry) → entry.op ≡ op.now → line_of entry ≡ call_text entry }
{
    !matches!(op, Op::Wait { .. } | Op::Evict { .. })
}

// Appends the line of a call that read these bytes: its digits go straight into the lines.
fn read_line(
    alloc: Global,
    entry: &Entry,
    bytes: &[u8],
    into: &mut Vec<u8>,
) -> Result<(), AllocError>
    requires some { 0 < length bytes.now }
    requires reply { entry.now.reply ≡ Reply.Read bytes.now }
    ensures ok { OnOk result (into.new.items ≡ into.old.items ++ call_text entry.now) }
    ensures err { OnErr result (into.new.items ≡ into.old.items) }
{
    let word = op_text(&entry.op);
    let head = format!(in alloc;
        "{}.{} {} ok {} ",
        entry.agent,
        entry.number,
        word,
        bytes.len()
    )?;
    let before = into.len();
    into.extend_from_slice(head.as_bytes())?;
    if put_digits(bytes, into).is_err() || into.push(b'\n').is_err() {
        into.truncate(before);
        return Err(AllocError);
    }
    Ok(())
}

// Appends bytes as digits.
fn put_digits(bytes: &[u8], into: &mut Vec<u8>) -> Result<(), AllocError>
    ensures ok { OnOk result (into.new.items ≡ into.old.items ++ encode_lower bytes.now) }
    ensures err { OnErr result (into.new.items ≡ into.old.items) }
{
    let before = into.len();
    let Some(count) = bytes.len().checked_mul(2) else {
        return Err(AllocError);
    };
    let Some(after) = before.checked_add(count) else {
        return Err(AllocError);
    };
    into.resize(after, 0)?;
    let _written = hex::encode_to_slice(bytes, &mut into[before..]);
    Ok(())
}

/// Appends the lines of entries.
pub fn transcript(alloc: Global, entries: &Entries, into: &mut Vec<u8>) -> Result<(), AllocError>
    ensures ok { OnOk result (into.new.items ≡ into.old.items ++ text_of entries.now) }
    ensures err { OnErr result (into.new.items ≡ into.old.items) }
{
    let before = into.len();
    for entry in entries.iter() {
        if line(alloc, entry, into).is_err() {
            into.truncate(before);
            return Err(AllocError);
        }
    }
    Ok(())
}

// An entry's line.
fn line_text(alloc: Global, entry: &Entry) -> Result<String, AllocError>
    ensures { IfOk result (λ text. string_bytes text ≡ line_of entry.now) }
{
    match &entry.op {
        Op::Wait { .. } => Ok(String::new(alloc)),
        Op::Evict { key } => format!(in alloc; "evict {}\n", key.as_str()),
        _ => call_text(alloc, entry),
    }
}

// A call's line.
fn call_text(alloc: Global, entry: &Entry) -> Result<String, AllocError>
    ensures { IfOk result (λ text. string_bytes text ≡ call_text entry.now) }
{
    let reply = reply_text(alloc, &entry.reply)?;
    let word = op_text(&entry.op);
    format!(in alloc;
        "{}.{} {} {}\n",
        entry.agent,
        entry.number,
        word,
        reply.as_str()
    )
}

// The word of a call.
fn op_text(op: &Op) -> &'static str
    ensures { result.now ≡ op_text op.now }
{
    match op {
        Op::GetDirectory { .. } => word_text(Word::GetDirectory),
        Op::GetDirectoryHandle { .. } => word_text(Word::GetDirectoryHandle),
        Op::GetFileHandle { .. } => word_text(Word::GetFileHandle),
        Op::RemoveEntry { .. } => word_text(Word::RemoveEntry),
        Op::Values { .. } => word_text(Word::Values),
        Op::Next { .. } => word_text(Word::Next),
        Op::Resolve { .. } => word_text(Word::Resolve),
        Op::IsSameEntry { .. } => word_text(Word::IsSameEntry),
        Op::GetFile { .. } => word_text(Word::GetFile),
        Op::Slice { .. } => word_text(Word::Slice),
        Op::CreateWritable { .. } => word_text(Word::CreateWritable),
        Op::Write { .. } => word_text(Word::Write),
        Op::Seek { .. } => word_text(Word::Seek),
        Op::Truncate { .. } => word_text(Word::Truncate),
        Op::Close { .. } => word_text(Word::Close),
        Op::Abort { .. } => word_text(Word::Abort),
        Op::CreateSyncAccessHandle { .. } => word_text(Word::CreateSyncAccessHandle),
        Op::SyncRead { .. } => word_text(Word::SyncRead),
        Op::SyncWrite { .. } => word_text(Word::SyncWrite),
        Op::SyncTruncate { .. } => word_text(Word::SyncTruncate),
        Op::SyncGetSize { .. } => word_text(Word::SyncGetSize),
        Op::SyncFlush { .. } => word_text(Word::SyncFlush),
        Op::SyncClose { .. } => word_text(Word::SyncClose),
        Op::Persist { .. } => word_text(Word::Persist),
        Op::Persisted { .. } => word_text(Word::Persisted),
        Op::Estimate => word_text(Word::Estimate),
        Op::Moment { .. } => word_text(Word::Moment),
        Op::Post { .. } => word_text(Word::Post),
        Op::Await { .. } => word_text(Word::Await),
        Op::Wait { .. } => "wait",
        Op::Discard { .. } => "discard",
        Op::End => "end",
        Op::Unbound { word } => word_text(*word),
        Op::Evict { .. } => "evict",
    }
}

/// A word as a script has it.
pub fn word_text(word: Word) -> &'static str
    ensures { result.now ≡ word_text word }
{
    match word {
        Word::GetDirectory => "getDirectory",
        Word::GetDirectoryHandle => "getDirectoryHandle",
        Word::GetFileHandle => "getFileHandle",
        Word::RemoveEntry => "removeEntry",
        Word::Values => "values",
        Word::Next => "next",
        Word::Resolve => "resolve",
        Word::IsSameEntry => "isSameEntry",
        Word::GetFile => "getFile",
        Word::Slice => "slice",
        Word::CreateWritable => "createWritable",
        Word::Write => "write",
        Word::Seek => "seek",
        Word::Truncate => "truncate",
        Word::Close => "close",
        Word::Abort => "abort",
        Word::CreateSyncAccessHandle => "createSyncAccessHandle",
        Word::SyncRead => "syncRead",
        Word::SyncWrite => "syncWrite",
        Word::SyncTruncate => "syncTruncate",
        Word::SyncGetSize => "syncGetSize",
        Word::SyncFlush => "syncFlush",
        Word::SyncClose => "syncClose",
        Word::Persist => "persist",
        Word::Persisted => "persisted",
        Word::Estimate => "estimate",
        Word::Moment => "moment",
        Word::Post => "post",
        Word::Await => "await",
    }
}
