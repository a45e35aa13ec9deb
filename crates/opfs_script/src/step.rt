//! The steps of a script.

use opfs_base::{Data, Text};

/// A step: its word and its members. The members that name
/// a variable are those that say what they want (`dir`, `file`, `stream`, `sync`, `snapshot`, `iterator`, `entry`, `other`),
/// and `bind` is the one that the answer is bound to. Positions, sizes and lengths are in bytes, moments in
/// milliseconds.
#[derive(Drop)]
pub enum Step {
    GetDirectory {
        bucket: Text,
        bind: Text,
    },
    GetDirectoryHandle {
        dir: Text,
        name: Text,
        create: bool,
        bind: Text,
    },
    GetFileHandle {
        dir: Text,
        name: Text,
        create: bool,
        bind: Text,
    },
    RemoveEntry {
        dir: Text,
        name: Text,
        recursive: bool,
    },
    Values {
        dir: Text,
        bind: Text,
    },
    Next {
        iterator: Text,
        bind: Text,
    },
    Resolve {
        dir: Text,
        entry: Text,
    },
    IsSameEntry {
        entry: Text,
        other: Text,
    },
    GetFile {
        file: Text,
        bind: Text,
    },
    Slice {
        snapshot: Text,
        at: u64,
        len: u64,
    },
    CreateWritable {
        file: Text,
        keep: bool,
        bind: Text,
    },
    Write {
        stream: Text,
        bytes: Data,
        position: Option<u64>,
    },
    Seek {
        stream: Text,
        position: u64,
    },
    Truncate {
        stream: Text,
        size: u64,
    },
    Close {
        stream: Text,
    },
    Abort {
        stream: Text,
    },
    CreateSyncAccessHandle {
        file: Text,
        read_only: bool,
        bind: Text,
    },
    SyncRead {
        sync: Text,
        len: u64,
        at: Option<u64>,
    },
    SyncWrite {
        sync: Text,
        bytes: Data,
        at: Option<u64>,
    },
    SyncTruncate {
        sync: Text,
        size: u64,
    },
    SyncGetSize {
        sync: Text,
    },
    SyncFlush {
        sync: Text,
    },
    SyncClose {
        sync: Text,
    },
    Persist {
        bucket: Text,
    },
    Persisted {
        bucket: Text,
    },
    Estimate,
    Moment {
        ms: u64,
    },
    Post {
        tag: Text,
    },
    Await {
        tag: Text,
    },
}
