//! What the store holds at a moment. `F` is what it keeps of a file's content, `R` what it keeps of an own row.

use crate::many::Many;
use opfs_base::{Bytes, Key, Path};
use opfs_hist::Refusal;
use opfs_locks::LockValue;
use std::alloc::AllocError;

/// A unit, and the names from its root down.
pub type Place = (Key, Path);

/// A file.
#[derive(Drop)]
pub struct FileRow<F> {
    /// What a read gives now.
    pub present: F,
    /// The time stamp of that, in milliseconds.
    pub stamp: u64,
    /// The lock, and how many hold it where it is shared or read-only.
    pub lock: (LockValue, u32),
    /// What was last stored for good.
    pub durable: F,
    /// The time stamp of that, in milliseconds.
    pub durable_stamp: u64,
}

/// What stands at a place.
#[derive(Drop)]
pub enum Row<F> {
    Directory,
    File(FileRow<F>),
}

/// Who shares tags: the agents of an origin, or one agent without a key.
#[derive(Drop, PartialEq, Eq)]
pub enum Party {
    /// The origin's key.
    Origin(Key),
    /// The agent's number.
    Alone(u32),
}

/// A tag that was posted.
#[derive(Drop)]
pub struct Posted {
    pub party: Party,
    pub tag: Bytes,
}

/// An agent.
#[derive(Drop)]
pub struct Agent<R> {
    /// Its origin's key; None for an opaque origin.
    pub key: Option<Key>,
    /// Whether it has the grant `persistent-storage`.
    pub grant: bool,
    /// Whether its script has not ended.
    pub live: bool,
    /// Its clock, in milliseconds.
    pub moment: u64,
    /// The tag that it waits for.
    pub waits: Option<Bytes>,
    /// Its own rows, the first of number 1.
    pub own: Many<R>,
}

/// How much the store may hold.
#[derive(Clone, Copy)]
pub struct Limits {
    /// The bytes of a journal area.
    pub area: u64,
    /// The data blocks.
    pub blocks: u64,
    /// The blocks that one origin may use.
    pub quota: u64,
}

/// What the store holds.
#[derive(Drop)]
pub struct State<F, R> {
    /// The rows in the order of their places.
    pub rows: Many<(Place, Row<F>)>,
    /// The persistent units in order.
    pub persistent: Many<Key>,
    /// The posted tags.
    pub posted: Many<Posted>,
    /// The agents, the first of number 1.
    pub agents: Many<Agent<R>>,
    /// The number of entries so far.
    pub entries: u64,
    /// The number of the last entry, counted from 1, of the agents of each origin that has one.
    pub used: Many<(Key, u64)>,
    pub limits: Limits,
}

/// The length and position, in bytes, of the stream or access handle that a call names; 0 where it names none.
#[derive(Clone, Copy)]
pub struct Sizes {
    pub size: u64,
    pub position: u64,
}

/// What a call asks for.
#[derive(Clone, Copy, PartialEq, Eq)]
pub struct Need {
    /// Blocks of its origin's quota.
    pub quota: u64,
    /// Blocks of the pool.
    pub pool: u64,
    /// Bytes of the charge.
    pub charge: u64,
}

/// A ruling, or want of memory.
pub type Ruled<T> = Result<Result<T, Refusal>, AllocError>;
