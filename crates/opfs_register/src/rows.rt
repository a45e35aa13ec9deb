//! An agent's own rows.

ghost use Rattle.std.specs.Prelude.{◌≡◌, ◌+◌, ◌<◌, ◌≤◌, ◌++◌, [], ◌∷◌, true, false, IsTrue, IsSome, Some, OnOk, OnErr, length, option_map, replicate, slice_get, slice_set};
ghost use Rattle.std.specs.List.{list_any};
ghost use Rattle.std.specs.Option.{option_copied};
ghost use Rattle.opfs_machine.specs.Agents.{of_row, stream_in, handle_in, is_open_row};
ghost use Rattle.opfs_machine.specs.declared.own.Outline.{Outline};
ghost use Rattle.opfs_machine.specs.declared.own.Outline.TheVariants as outline;
ghost use Rattle.opfs_register.specs.Slots.{Rises, place_in, outline_in, slot_row, keeping, most_rows};

use crate::open::{HeldRow, OpenHandle, OpenStream};
use opfs_machine::{HandleOutline, StreamOutline};
use std::alloc::{AllocError, Global};
use std::marker::Model;
use std::mem::replace;

/// An agent's own rows, seen as the list of them, and whether there is room for one more. Iterators take no memory: of
/// the other rows it keeps what the shared store knows, in the order of their numbers.
pub struct OwnRows {
    count: usize,
    numbers: Vec<usize>,
    slots: Vec<HeldRow>,
    ready: bool,
}

impl Model for OwnRows {
    ghost use Rattle.std.specs.Prelude.{◌≡◌, ◌<◌, true, length, vec_capacity};
    ghost use Rattle.opfs_register.specs.Slots.{Rowed, rows_in, IsNumbered};

    ghost Value = { Rowed };

    ghost view = { λ rows. record { own = rows_in rows.numbers.items rows.slots.items rows.count; ready = rows.ready } };

    ghost invariant = { λ rows. IsNumbered rows.count rows.numbers.items (length rows.slots.items) × (rows.ready ≡ true → (length rows.numbers.items < vec_capacity rows.numbers) × (length rows.slots.items < vec_capacity rows.slots)) };
}

// Where a number stands among some that rise.
fn place_of(numbers: &[usize], n: usize, below: usize) -> Option<usize>
    requires { Rises 0 numbers.now below }
    ensures { result ≡ place_in numbers.now n }
{
    let _below = below;
    numbers.binary_search(&n).ok()
}

// The slot at a place.
fn slot_at(slots: &[HeldRow], place: usize) -> Option<&HeldRow>
    ensures { option_copied result ≡ slice_get slots.now place }
{
    slots.get(place)
}

// Whether an open stream or access handle is among some slots.
fn any_open(slots: &[HeldRow]) -> bool
    ensures { result ≡ list_any (λ slot. is_open_row (outline_in slot)) slots.now }
{
    slots.iter().any(|slot| slot.is_open())
}

impl OwnRows {
    /// No rows. Takes no memory.
    pub(crate) fn make(alloc: Global) -> OwnRows
        ensures { result ≡ record { own = []; ready = false } }
    {
        OwnRows {
            count: 0,
            numbers: Vec::new(alloc),
            slots: Vec::new(alloc),
            ready: false,
        }
    }

    /// How many rows there are.
    pub(crate) fn count(&self) -> usize
        ensures count { result ≡ length self.now.own }
        ensures within { result ≤ most_rows }
    {
        self.count
    }

    // The row of a number, if it is no iterator.
    fn slot(&self, n: usize) -> Option<&HeldRow>
        ensures { option_map outline_in (option_copied result) ≡ of_row slot_row (slice_get self.now.own n) }
    {
        match place_of(self.numbers.as_slice(), n, self.count) {
            Some(place) => slot_at(self.slots.as_slice(), place),
            None => None,
        }
    }

    /// The open stream of a number.
    pub(crate) fn stream(&self, n: usize) -> Option<&StreamOutline>
        ensures { option_copied result ≡ of_row stream_in (slice_get self.now.own n) }
    {
        self.slot(n)?.stream()
    }

    /// The open access handle of a number.
    pub(crate) fn handle(&self, n: usize) -> Option<&HandleOutline>
        ensures { option_copied result ≡ of_row handle_in (slice_get self.now.own n) }
    {
        self.slot(n)?.handle()
    }

    /// Whether an open stream or access handle is among them.
    pub(crate) fn has_open(&self) -> bool
        ensures { result ≡ list_any is_open_row self.now.own }
    {
        any_open(self.slots.as_slice())
    }

    /// Puts another row in the place of one that is no iterator, and gives that.
    pub(crate) fn replace(&mut self, n: usize, slot: HeldRow) -> HeldRow
        requires { IsSome (of_row slot_row (slice_get self.old.own n)) }
        ensures rows { self.new ≡ record self.old { own = slice_set self.old.own n (outline_in slot) } }
        ensures old { slice_get self.old.own n ≡ Some (outline_in result) }
    {
        let Some(place) = place_of(self.numbers.as_slice(), n, self.count) else {
            unreachable!();
        };
        replace(&mut self.slots[place], slot)
    }

    /// Keeps so many blocks for an open row; any other row stays as it is.
    pub(crate) fn set_reserve(&mut self, n: usize, reserve: u64)
        ensures rows { (r : Outline) → slice_get self.old.own n ≡ Some r → self.new ≡ record self.old { own = slice_set self.old.own n (keeping reserve r) } }
        ensures ready { self.new.ready ≡ self.old.ready }
    {
        let Some(place) = place_of(self.numbers.as_slice(), n, self.count) else {
            return;
        };
        self.slots[place].set_reserve(reserve);
    }

    /// Makes room for one row more.
    pub(crate) fn reserve(&mut self) -> Result<(), AllocError>
        ensures ok { OnOk result (self.new ≡ record self.old { ready = true }) }
        ensures err { OnErr result (self.new ≡ self.old) }
    {
        self.numbers.reserve(1)?;
        self.slots.reserve(1)?;
        self.ready = true;
        Ok(())
    }

    /// Appends a row that is no iterator. Takes no memory.
    pub(crate) fn add(&mut self, slot: HeldRow)
        requires ready { IsTrue self.old.ready }
        requires few { length self.old.own < most_rows }
        ensures { self.new ≡ record { own = self.old.own ++ outline_in slot ∷ []; ready = false } }
    {
        self.numbers.push_reserved(self.count);
        self.slots.push_reserved(slot);
        self.count += 1;
        self.ready = false;
    }

    /// Appends so many iterators. Takes no memory.
    pub(crate) fn add_iterators(&mut self, more: usize)
        requires { length self.old.own + more ≤ most_rows }
        ensures { self.new ≡ record self.old { own = self.old.own ++ replicate more outline.Iterator } }
    {
        self.count += more;
    }

    /// Ends all rows, and what they hold, without giving any lock back.
    pub(crate) fn end(self) {
        let OwnRows {
            count: _count,
            numbers: _numbers,
            slots,
            ready: _ready,
        } = self;
        end_slots(slots);
    }
}

// Ends all slots.
fn end_slots(slots: Vec<HeldRow>) {
    let mut slots = slots;
    while !slots.is_empty() {
        let slot = slots.take_last();
        slot.end();
    }
    slots.destroy_empty();
}
