//! What an agent has open: its own rows, numbered from 1.

use crate::many::Many;
use crate::state::Place;
use opfs_base::{Locator, Name, SharedBytes};
use opfs_hist::Mode;

/// An open writable stream (File System: FileSystemWritableFileStream).
#[derive(Drop)]
pub struct StreamRow {
    /// Where its file stands.
    pub file: Place,
    /// The bytes that a close stores.
    pub buffer: SharedBytes,
    /// Where the next write begins, in bytes.
    pub offset: u64,
    /// How many blocks are kept for it.
    pub reserve: u64,
}

/// An open access handle (File System: FileSystemSyncAccessHandle).
#[derive(Drop)]
pub struct HandleRow {
    /// Where its file stands.
    pub file: Place,
    /// Whether it may write.
    pub mode: Mode,
    /// Where the next read or write begins, in bytes (File System: file position cursor).
    pub cursor: u64,
    /// How many blocks are kept for it.
    pub reserve: u64,
}

/// An iterator over a directory's children.
#[derive(Drop)]
pub struct IteratorRow {
    /// The directory's locator, kind and all.
    pub dir: Locator,
    /// The names that it has given.
    pub given: Many<Name>,
}

/// An own row of an agent.
#[derive(Drop)]
pub enum Own {
    Stream(StreamRow),
    ClosedStream,
    Handle(HandleRow),
    ClosedHandle,
    /// The bytes that a file had.
    Snapshot(SharedBytes),
    Iterator(IteratorRow),
}

/// What the shared store knows of an open stream.
#[derive(Drop)]
pub struct StreamOutline {
    /// Where its file stands.
    pub file: Place,
    /// How many blocks are kept for it.
    pub reserve: u64,
}

/// What the shared store knows of an open access handle.
#[derive(Drop)]
pub struct HandleOutline {
    /// Where its file stands.
    pub file: Place,
    /// Whether it may write.
    pub mode: Mode,
    /// How many blocks are kept for it.
    pub reserve: u64,
}

/// What the shared store knows of an own row.
#[derive(Drop)]
pub enum Outline {
    Stream(StreamOutline),
    ClosedStream,
    Handle(HandleOutline),
    ClosedHandle,
    Snapshot,
    Iterator,
}
