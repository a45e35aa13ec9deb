//! Changes that are made as one.

ghost use Rattle.std.specs.Prelude.{◌≡◌, ◌+◌, ◌≤◌, ◌<◌, ◌++◌, ◌∷◌, [], length, IfOk, OnOk, OnErr, Some, None};
ghost use Rattle.std.specs.List.{AllByRecursion};
ghost use Rattle.opfs_kv.specs.Records.Indexes.{indexed, placed_by};
ghost use Rattle.opfs_kv.specs.Records.Records.{IsKey, IsRecord, IsValue, log_of, spelled_by};

use crate::records::change::Change;
use crate::records::index::Index;
use crate::records::place::Place;
use crate::records::spell::{append_gone, append_put};
use opfs_base::Bytes;
use std::alloc::{AllocError, Global};
use std::marker::Model;

/// Changes of a key-value file that are made as one, in their order, seen as the list of their records.
#[derive(Drop)]
pub struct Batch {
    changes: Vec<Change>,
    need: u64,
}

impl Model for Batch {
    ghost use Rattle.std.specs.Prelude.{◌≡◌, List, length};
    ghost use Rattle.std.specs.List.{AllByRecursion};
    ghost use Rattle.opfs_kv.specs.Records.Records.{Record, IsRecord, log_of};

    ghost Value = { List Record };

    ghost view = { λ batch. batch.changes.items };

    ghost invariant = { λ batch. AllByRecursion IsRecord batch.changes.items × (batch.need ≡ length (log_of batch.changes.items)) };
}

impl Batch {
    /// No changes. Takes no memory.
    pub fn empty(alloc: Global) -> Batch
        ensures { result ≡ [] }
    {
        Batch {
            changes: Vec::new(alloc),
            need: 0,
        }
    }

    /// Adds that a key gets a value. On want of memory the batch is as it was.
    pub fn put(&mut self, key: Bytes, value: Bytes) -> Result<(), AllocError>
        requires key { IsKey key }
        requires value { IsValue value }
        ensures ok { OnOk result (self.new ≡ self.old ++ (record { key = key; value = Some value }) ∷ []) }
        ensures err { OnErr result (self.new ≡ self.old) }
    {
        let need = key.len() as u64 + value.len() as u64 + 6;
        add(
            &mut self.changes,
            &mut self.need,
            Change {
                key,
                value: Some(value),
            },
            need,
        )
    }

    /// Adds that a key is taken out. On want of memory the batch is as it was.
    pub fn delete(&mut self, key: Bytes) -> Result<(), AllocError>
        requires { IsKey key }
        ensures ok { OnOk result (self.new ≡ self.old ++ (record { key = key; value = None }) ∷ []) }
        ensures err { OnErr result (self.new ≡ self.old) }
    {
        let need = key.len() as u64 + 2;
        add(
            &mut self.changes,
            &mut self.need,
            Change { key, value: None },
            need,
        )
    }

    /// How many changes there are.
    pub fn len(&self) -> usize
        ensures { result ≡ length self.now }
    {
        self.changes.len()
    }

    /// How many bytes their records take in a file.
    pub fn bytes(&self) -> u64
        ensures { result ≡ length (log_of self.now) }
    {
        self.need
    }

    /// What the type keeps: each change has a record.
    pub fn know_kept(&self)
        ensures { AllByRecursion IsRecord self.now }
    {
        let _ = self.changes.len();
    }

    /// Their records, one after another.
    pub(crate) fn spell(&self, alloc: Global) -> Result<Vec<u8>, AllocError>
        ensures { IfOk result (λ bytes. bytes.items ≡ log_of self.now) }
    {
        spell_all(alloc, &self.changes)
    }

    /// An index with the places of their records, which begin at a place.
    pub(crate) fn place(&self, alloc: Global, index: &Index, at: u32) -> Result<Index, AllocError>
        requires { at + length (log_of self.now) ≤ 16777216 }
        ensures { IfOk result (λ made. made ≡ indexed at self.now index.now) }
    {
        place_all(alloc, &self.changes, index, at)
    }
}

// Adds a change whose record takes so many bytes.
fn add(
    changes: &mut Vec<Change>,
    total: &mut u64,
    change: Change,
    need: u64,
) -> Result<(), AllocError>
    requires { need ≡ length (spelled_by change.key change.value) }
    ensures ok { OnOk result ((changes.new.items ≡ changes.old.items ++ change ∷ []) × (total.new ≡ total.old + need)) }
    ensures err { OnErr result ((changes.new.items ≡ changes.old.items) × (total.new ≡ total.old)) }
{
    let Some(more) = total.checked_add(need) else {
        return Err(AllocError);
    };
    changes.push(change)?;
    *total = more;
    Ok(())
}

// Appends the record of a change.
fn spell_one(into: &mut Vec<u8>, change: &Change) -> Result<(), AllocError>
    requires { IsRecord change.now }
    ensures { OnOk result (into.new.items ≡ into.old.items ++ spelled_by change.now.key change.now.value) }
{
    match &change.value {
        Some(value) => append_put(into, change.key.as_slice(), value.as_slice()),
        None => append_gone(into, change.key.as_slice()),
    }
}

// The records of changes, one after another.
fn spell_all(alloc: Global, changes: &[Change]) -> Result<Vec<u8>, AllocError>
    requires { AllByRecursion IsRecord changes.now }
    ensures { IfOk result (λ bytes. bytes.items ≡ log_of changes.now) }
{
    let mut bytes = Vec::new(alloc);
    for change in changes {
        spell_one(&mut bytes, change)?;
    }
    Ok(bytes)
}

// Gives a change's key its place, or takes it out, by its record that begins at a place. It gives the place behind the record.
fn place_one(alloc: Global, index: &mut Index, change: &Change, at: u32) -> Result<u32, AllocError>
    requires good { IsRecord change.now }
    requires small { at + length (spelled_by change.now.key change.now.value) ≤ 16777216 }
    ensures placed { OnOk result (index.new ≡ placed_by at index.old change.now.key change.now.value) }
    ensures next { IfOk result (λ next. next ≡ at + length (spelled_by change.now.key change.now.value)) }
{
    let Some(value) = &change.value else {
        index.take_out(&change.key);
        return Ok(at + 2 + change.key.len() as u32);
    };
    let len = value.len() as u32;
    let at = at + 6 + change.key.len() as u32;
    index.put(change.key.copy(alloc)?, Place { at, len })?;
    Ok(at + len)
}

// An index with the places of changes whose records begin at a place.
fn place_all(alloc: Global, changes: &[Change], index: &Index, at: u32) -> Result<Index, AllocError>
    requires good { AllByRecursion IsRecord changes.now }
    requires small { at + length (log_of changes.now) ≤ 16777216 }
    ensures { IfOk result (λ made. made ≡ indexed at changes.now index.now) }
{
    let mut made = index.copy(alloc)?;
    let mut next = at;
    for change in changes {
        next = place_one(alloc, &mut made, change, next)?;
    }
    Ok(made)
}
