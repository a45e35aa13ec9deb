//! Histories, what an agent has not yet put into one, and the room for an entry.

ghost use Rattle.std.specs.Prelude.{◌≡◌, ◌==◌, ◌+◌, ◌^◌, ◌<◌, [], ◌∷◌, ◌++◌, length, map, count_by, drop, IfOk, IfSome};
ghost use Rattle.opfs_hist.specs.Sums.{asks_for_row, is_refusal, makes_row, set_moment, last_moment};

use crate::entry::Entry;
use crate::front::Front;
use crate::op::Op;
use crate::reply::Reply;
use std::alloc::{AllocError, Global};
use std::collections::LinkedList;
use std::collections::linked_list::Iter;
use std::marker::Model;
use std::mem::replace;

/// The place for one entry. Whoever holds it can add an entry without taking memory.
#[derive(Drop)]
pub struct Room {
    place: LinkedList<Entry>,
    ghost one: { length place ≡ 1 },
}

impl Room {
    /// Takes the memory for one entry.
    pub fn make(alloc: Global) -> Result<Room, AllocError> {
        let mut place = LinkedList::new(alloc);
        place.push_back(Entry {
            agent: 0,
            number: 0,
            op: Op::End,
            reply: Reply::Done,
            turn: false,
        })?;
        Ok(Room { place })
    }
}

// A list of one item, with another in its place.
fn refilled<T: Drop>(mut place: LinkedList<T>, item: T) -> LinkedList<T>
    requires { length place ≡ 1 }
    ensures { result ≡ item ∷ [] }
{
    match place.front_mut() {
        Some(slot) => *slot = item,
        None => unreachable!(),
    }
    place
}

/// What agents called and what was evicted, in order, seen as the list of all entries, also of those that were given out.
#[derive(Drop)]
pub struct History {
    // How many entries were given out, and what clauses see of them.
    gone: usize,
    front: Option<Front>,
    // Those that were not.
    items: LinkedList<Entry>,
}

impl Model for History {
    ghost use Rattle.std.specs.Prelude.{◌≡◌, ◌+◌, ◌^◌, ◌<◌, ◌++◌, List, length};
    ghost use Rattle.opfs_hist.specs.declared.entry.Entry.{Entry};
    ghost use Rattle.opfs_hist.specs.Fronts.{entries_in};

    ghost Value = { List Entry };

    ghost view = { λ history. entries_in history.front ++ history.items };

    ghost invariant = { λ history. (history.gone ≡ length (entries_in history.front)) × (history.gone + length history.items < 2 ^ 63) };
}

/// Entries that stand one after another, seen as the list of them.
#[derive(Drop)]
pub struct Entries {
    items: LinkedList<Entry>,
}

impl Model for Entries {
    ghost use Rattle.std.specs.Prelude.{List};
    ghost use Rattle.opfs_hist.specs.declared.entry.Entry.{Entry};

    ghost Value = { List Entry };

    ghost view = { λ entries. entries.items };
}

/// Entries that a history gave out, and how many entries stand before them in it.
#[derive(Drop)]
pub struct Given {
    pub place: usize,
    pub entries: Entries,
}

/// Entries that an agent keeps until its next shared call, seen as the list of them.
#[derive(Drop)]
pub struct Pending {
    items: LinkedList<Entry>,
}

impl Model for Pending {
    ghost use Rattle.std.specs.Prelude.{List};
    ghost use Rattle.opfs_hist.specs.declared.entry.Entry.{Entry};

    ghost Value = { List Entry };

    ghost view = { λ pending. pending.items };
}

/// What the shared state has to know of an agent's pending entries.
#[derive(Clone, Copy, PartialEq, Eq)]
pub struct PendingSum {
    /// How many entries there are.
    pub entries: u64,
    /// How many streams, access handles, snapshots and iterators they make.
    pub rows: u64,
    /// The last moment that they set, in milliseconds.
    pub moment: Option<u64>,
}

impl History {
    /// A history without entries. Takes no memory.
    pub fn make(alloc: Global) -> History
        ensures { result ≡ [] }
    {
        History {
            gone: 0,
            front: None,
            items: LinkedList::new(alloc),
        }
    }

    /// Moves all pending entries to the end, in their order. Takes no memory, and as long for many as for one.
    pub fn take_in(&mut self, pending: &mut Pending)
        requires { length self.old + length pending.old < 2 ^ 63 }
        ensures appended { self.new ≡ self.old ++ pending.old }
        ensures emptied { pending.new ≡ [] }
    {
        self.items.append(&mut pending.items).unwrap();
    }

    /// Gives out all entries that it still holds. It stands for the same history, and no longer holds them. Takes no memory,
    /// and as long for many as for one.
    pub fn give_out(&mut self, alloc: Global) -> Given
        ensures kept { self.new ≡ self.old }
        ensures entries { result.entries ≡ drop result.place self.old }
        ensures place { result.place + length result.entries ≡ length self.old }
        ensures fits { result.place + length result.entries < 2 ^ 63 }
    {
        let front = Front::of(self);
        let place = self.gone;
        let items = replace(&mut self.items, LinkedList::new(alloc));
        self.gone = place + items.len();
        self.front = Some(front);
        Given {
            place,
            entries: Entries { items },
        }
    }

    /// All entries, or none where some were given out.
    pub fn whole(self) -> Option<Entries>
        ensures { IfSome result (λ entries. entries ≡ self) }
    {
        let History { gone, front, items } = self;
        drop(front);
        if gone == 0 {
            Some(Entries { items })
        } else {
            None
        }
    }

    /// How many entries there are, with those that were given out.
    pub fn len(&self) -> usize
        ensures { result ≡ length self.now }
    {
        self.gone + self.items.len()
    }

    /// Whether there is no entry, and there was none.
    pub fn is_empty(&self) -> bool
        ensures { result ≡ (length self.now == 0) }
    {
        self.len() == 0
    }
}

impl Entries {
    /// The entries in order.
    pub fn entries(&self, alloc: Global) -> Result<Vec<&Entry>, AllocError>
        ensures { IfOk result (λ entries. map (λ entry. entry.now) entries.items ≡ self.now) }
    {
        self.items.iter().collect(alloc)
    }

    /// The entries in order, one by one.
    pub fn iter(&self) -> Iter<'_, Entry>
        ensures { result ≡ self.now }
    {
        self.items.iter()
    }

    /// How many entries there are.
    pub fn len(&self) -> usize
        ensures { result ≡ length self.now }
    {
        self.items.len()
    }

    /// Whether there is no entry.
    pub fn is_empty(&self) -> bool
        ensures { result ≡ (length self.now == 0) }
    {
        self.items.is_empty()
    }
}

impl Pending {
    /// No entries. Takes no memory.
    pub fn make(alloc: Global) -> Pending
        ensures { result ≡ [] }
    {
        Pending {
            items: LinkedList::new(alloc),
        }
    }

    /// Adds an entry at the end. Takes no memory.
    pub fn add(&mut self, room: Room, entry: Entry)
        requires { length self.old + 1 < 2 ^ 63 }
        ensures { self.new ≡ self.old ++ entry ∷ [] }
    {
        let Room { place } = room;
        let mut place = refilled(place, entry);
        self.items.append(&mut place).unwrap();
    }

    /// How many entries there are, how many rows they make, and the last moment that they set.
    pub fn sum(&self) -> PendingSum
        ensures entries { result.entries ≡ length self.now }
        ensures rows { result.rows ≡ count_by makes_row self.now }
        ensures moment { result.moment ≡ last_moment self.now }
    {
        PendingSum {
            entries: self.items.len() as u64,
            rows: self.items.iter().filter(|entry| makes_row(*entry)).count() as u64,
            moment: self
                .items
                .iter()
                .fold(None, |last, entry| set_moment(&entry.op).or(last)),
        }
    }
}

// Whether an entry made a stream, an access handle, a snapshot or an iterator.
fn makes_row(entry: &Entry) -> bool
    ensures { result ≡ makes_row entry.now }
{
    asks_for_row(&entry.op) && !is_refusal(&entry.reply)
}

// Whether a call makes such a row where it is not refused.
fn asks_for_row(op: &Op) -> bool
    ensures { result ≡ asks_for_row op.now }
{
    match op {
        Op::Values { .. } | Op::GetFile { .. } => true,
        Op::CreateWritable { .. } | Op::CreateSyncAccessHandle { .. } => true,
        _ => false,
    }
}

// Whether a reply is a refusal.
fn is_refusal(reply: &Reply) -> bool
    ensures { result ≡ is_refusal reply.now }
{
    match reply {
        Reply::No(_) => true,
        _ => false,
    }
}

// The moment that a call sets.
fn set_moment(op: &Op) -> Option<u64>
    ensures { result ≡ set_moment op.now }
{
    match op {
        Op::Moment { ms } => Some(*ms),
        _ => None,
    }
}
