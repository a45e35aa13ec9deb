//! What an agent asks.

use opfs_base::{Data, Key, Locator, Text};

/// How an access handle uses its file.
#[derive(Clone, Copy, PartialEq, Eq)]
pub enum Mode {
    /// Reads and writes, alone.
    ReadWrite,
    /// Reads, beside other such handles.
    ReadOnly,
}

/// The words of a script's steps.
#[derive(Clone, Copy, Debug, PartialEq, Eq)]
pub enum Word {
    GetDirectory,
    GetDirectoryHandle,
    GetFileHandle,
    RemoveEntry,
    Values,
    Next,
    Resolve,
    IsSameEntry,
    GetFile,
    Slice,
    CreateWritable,
    Write,
    Seek,
    Truncate,
    Close,
    Abort,
    CreateSyncAccessHandle,
    SyncRead,
    SyncWrite,
    SyncTruncate,
    SyncGetSize,
    SyncFlush,
    SyncClose,
    Persist,
    Persisted,
    Estimate,
    Moment,
    Post,
    Await,
}

/// A call. A `row` is the number of a stream, access handle, snapshot or iterator of the agent; positions, sizes and lengths are in bytes, moments in milliseconds.
#[derive(Drop)]
pub enum Op {
    GetDirectory {
        bucket: Text,
    },
    GetDirectoryHandle {
        dir: Locator,
        name: Text,
        create: bool,
    },
    GetFileHandle {
        dir: Locator,
        name: Text,
        create: bool,
    },
    RemoveEntry {
        dir: Locator,
        name: Text,
        recursive: bool,
    },
    Values {
        dir: Locator,
    },
    /// `dir` is the iterator's directory.
    Next {
        row: u32,
        dir: Locator,
    },
    Resolve {
        dir: Locator,
        entry: Locator,
    },
    IsSameEntry {
        entry: Locator,
        other: Locator,
    },
    GetFile {
        file: Locator,
    },
    Slice {
        row: u32,
        at: u64,
        len: u64,
    },
    CreateWritable {
        file: Locator,
        keep: bool,
    },
    Write {
        row: u32,
        bytes: Data,
        position: Option<u64>,
    },
    Seek {
        row: u32,
        position: u64,
    },
    Truncate {
        row: u32,
        size: u64,
    },
    Close {
        row: u32,
    },
    Abort {
        row: u32,
    },
    CreateSyncAccessHandle {
        file: Locator,
        mode: Mode,
    },
    SyncRead {
        row: u32,
        len: u64,
        at: Option<u64>,
    },
    SyncWrite {
        row: u32,
        bytes: Data,
        at: Option<u64>,
    },
    SyncTruncate {
        row: u32,
        size: u64,
    },
    SyncGetSize {
        row: u32,
    },
    SyncFlush {
        row: u32,
    },
    SyncClose {
        row: u32,
    },
    Persist {
        bucket: Text,
    },
    Persisted {
        bucket: Text,
    },
    Estimate,
    Moment {
        ms: u64,
    },
    Post {
        tag: Text,
    },
    Await {
        tag: Text,
    },
    /// The agent begins to wait for a tag. It has no line in a transcript.
    Wait {
        tag: Text,
    },
    /// An access handle that is still open as its agent's script ends.
    Discard {
        row: u32,
    },
    /// The end of the agent's script.
    End,
    /// A step of a script whose variable holds nothing of the wanted kind.
    Unbound {
        word: Word,
    },
    /// A unit is cleared. Its entry has agent 0 and number 0.
    Evict {
        key: Key,
    },
}
