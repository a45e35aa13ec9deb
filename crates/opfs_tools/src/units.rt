//! Rows unit by unit.

ghost use Rattle.std.specs.Prelude.{◌≡◌, ◌+◌, ◌^◌, ◌<◌, ◌≤◌, ◌++◌, map, length, drop, IfOk, OnOk};
ghost use Rattle.std.specs.List.{prefix_len};
ghost use Rattle.opfs_base.specs.Texts.{same_text};
ghost use Rattle.opfs_tools.specs.Sights.{used_blocks};
ghost use Rattle.opfs_tools.specs.Units.{UnitSeen, units_of, alone, count_before, is_first, count_first};

use crate::sights::Entry;
use opfs_base::Key;
use std::alloc::{AllocError, Global};
use std::marker::Model;

/// A persistent unit.
#[derive(Drop)]
pub(crate) struct Persistent<'a> {
    key: &'a Key,
}

impl<'a> Model for Persistent<'a> {
    ghost use Rattle.opfs_base.specs.Texts.{Text};

    ghost Value = { Text };

    ghost view = { λ p. p.key.now };
}

impl<'a> Persistent<'a> {
    /// The unit of this key.
    pub(crate) fn make(key: &'a Key) -> Persistent<'a>
        ensures { result ≡ key.now }
    {
        Persistent { key }
    }

    /// Its key.
    pub(crate) fn key(&self) -> &'a Key
        ensures { result.now ≡ self.now }
    {
        self.key
    }
}

/// A unit with its mode, the data blocks that its files use, and its rows in order.
#[derive(Drop)]
pub(crate) struct Unit<'a> {
    key: &'a Key,
    persistent: bool,
    blocks: u64,
    rows: &'a [Entry<'a>],
}

impl<'a> Model for Unit<'a> {
    ghost use Rattle.std.specs.Prelude.{◌≡◌};
    ghost use Rattle.opfs_tools.specs.Sights.{used_blocks};
    ghost use Rattle.opfs_tools.specs.Units.{UnitSeen};

    ghost Value = { UnitSeen };

    ghost view = { λ u. record { key = u.key.now; persistent = u.persistent; rows = u.rows.now } };

    ghost invariant = { λ u. u.blocks ≡ used_blocks u.rows.now };
}

impl<'a> Unit<'a> {
    // A unit with these rows.
    fn make(key: &'a Key, persistent: bool, rows: &'a [Entry<'a>]) -> Unit<'a>
        requires { used_blocks rows.now < 2 ^ 64 }
        ensures { result ≡ record { key = key.now; persistent = persistent; rows = rows.now } }
    {
        let blocks = used_blocks(rows);
        Unit {
            key,
            persistent,
            blocks,
            rows,
        }
    }

    /// Its key.
    pub(crate) fn key(&self) -> &'a Key
        ensures { result.now ≡ self.now.key }
    {
        self.key
    }

    /// Whether its mode is persistent.
    pub(crate) fn is_persistent(&self) -> bool
        ensures { result ≡ self.now.persistent }
    {
        self.persistent
    }

    /// The data blocks that its files use.
    pub(crate) fn blocks(&self) -> u64
        ensures { result ≡ used_blocks self.now.rows }
    {
        self.blocks
    }

    /// Its rows in order.
    pub(crate) fn rows(&self) -> &'a [Entry<'a>]
        ensures { result.now ≡ self.now.rows }
    {
        self.rows
    }
}

/// The data blocks that rows use.
pub(crate) fn used_blocks(rows: &[Entry]) -> u64
    requires { used_blocks rows.now < 2 ^ 64 }
    ensures { result ≡ used_blocks rows.now }
{
    let mut total = 0;
    for entry in rows {
        total += entry.sight().blocks();
    }
    total
}

// How many of the rows, from the first one on, are of a unit.
fn count_within(key: &Key, rows: &[Entry]) -> usize
    ensures same { result ≡ prefix_len (λ e. same_text key.now e.0.0) rows.now }
    ensures within { result ≤ length rows.now }
{
    for (at, entry) in rows.iter().enumerate() {
        if *key != *entry.key() {
            return at;
        }
    }
    rows.len()
}

// How many of the units come before one.
fn count_before(key: &Key, units: &[Persistent]) -> usize
    ensures same { result ≡ count_before key.now units.now }
    ensures within { result ≤ length units.now }
{
    for (at, unit) in units.iter().enumerate() {
        if *unit.key() >= *key {
            return at;
        }
    }
    units.len()
}

// Whether a unit is the first of a list.
fn is_first(key: &Key, units: &[Persistent]) -> bool
    ensures { result ≡ is_first key.now units.now }
{
    match units.first() {
        Some(unit) => *unit.key() == *key,
        None => false,
    }
}

// How many of the units are this one, where it can only be the first.
fn count_first(key: &Key, units: &[Persistent]) -> usize
    ensures same { result ≡ count_first key.now units.now }
    ensures within { result ≤ length units.now }
{
    usize::from(is_first(key, units))
}

// Adds units that have no rows.
fn add_alone<'a>(persistent: &[Persistent<'a>], units: &mut Vec<Unit<'a>>) -> Result<(), AllocError>
    ensures { OnOk result (units.new.items ≡ units.old.items ++ map alone persistent.now) }
{
    for unit in persistent {
        units.push(Unit::make(unit.key(), true, &[]))?;
    }
    Ok(())
}

// Adds the unit of the first row, behind the persistent units before it. Gives how many rows and persistent units it
// passed.
fn add_first<'a>(
    rows: &'a [Entry<'a>],
    persistent: &[Persistent<'a>],
    units: &mut Vec<Unit<'a>>,
) -> Result<(usize, usize), AllocError>
    requires some { 0 < length rows.now }
    requires fits { used_blocks rows.now < 2 ^ 64 }
    ensures units { IfOk result (λ passed. units.new.items ++ units_of (drop passed.0 rows.now) (drop passed.1 persistent.now) ≡ units.old.items ++ units_of rows.now persistent.now) }
    ensures some { IfOk result (λ passed. 0 < passed.0) }
    ensures rows { IfOk result (λ passed. passed.0 ≤ length rows.now) }
    ensures persistent { IfOk result (λ passed. passed.1 ≤ length persistent.now) }
{
    let key = rows[0].key();
    let count = count_within(key, rows);
    let (before, from) = persistent.split_at(count_before(key, persistent));
    add_alone(before, units)?;
    let unit = Unit::make(key, is_first(key, from), &rows[..count]);
    units.push(unit)?;
    Ok((count, before.len() + count_first(key, from)))
}

/// The units that have a row or are persistent, in the order of texts.
pub(crate) fn units_of<'a>(
    alloc: Global,
    rows: &'a [Entry<'a>],
    persistent: &[Persistent<'a>],
) -> Result<Vec<Unit<'a>>, AllocError>
    requires { used_blocks rows.now < 2 ^ 64 }
    ensures { IfOk result (λ units. units.items ≡ units_of rows.now persistent.now) }
{
    let mut units = Vec::new(alloc);
    let mut at = 0;
    let mut past = 0;
    while at < rows.len() {
        let (count, passed) = add_first(&rows[at..], &persistent[past..], &mut units)?;
        at += count;
        past += passed;
    }
    add_alone(&persistent[past..], &mut units)?;
    Ok(units)
}
