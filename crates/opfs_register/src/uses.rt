//! The last use of each origin.

ghost use Rattle.std.specs.Prelude.{◌≡◌, ◌<◌, [], true, IsTrue, IfOk, OnOk, unwrap_or};
ghost use Rattle.std.specs.BTreeMap.{is_at};
ghost use Rattle.std.specs.FinMap.Entries.{find, put};
ghost use Rattle.std.specs.List.Sorted.{IsStrictlySortedBy};
ghost use Rattle.std.specs.Map.{keys_of, set_value};
ghost use Rattle.opfs_base.specs.Texts.{Text};
ghost use Rattle.opfs_register.specs.LastUses.{text_cmp, used_in, is_known};

use opfs_base::Key;
use std::alloc::{AllocError, Global};
use std::collections::BTreeMap;
use std::marker::Model;
use std::ops::Bound;

/// The origins that have agents, in order, with the number of their last entry; 0 where there is none.
#[derive(Drop)]
pub struct Uses {
    items: BTreeMap<Key, u64>,
}

impl Model for Uses {
    ghost use Rattle.opfs_register.specs.LastUses.{Counts};

    ghost Value = { Counts };

    ghost view = { λ uses. uses.items.entries };
}

// Changes the number of an origin that has one.
fn set_number(items: &mut BTreeMap<Key, u64>, origin: &Key, number: u64)
    ensures set { items.new.entries ≡ set_value (is_at (text_cmp origin.now)) items.old.entries number }
    ensures ordered { IsStrictlySortedBy text_cmp (keys_of items.old.entries) }
{
    if let Some(place) = items.get_mut(origin) {
        *place = number;
    }
}

impl Uses {
    /// No origin. Takes no memory.
    pub(crate) fn make(alloc: Global) -> Uses
        ensures { result ≡ [] }
    {
        Uses {
            items: BTreeMap::new(alloc),
        }
    }

    /// Takes an origin in, if it is not there.
    pub(crate) fn know(&mut self, alloc: Global, origin: &Key) -> Result<(), AllocError>
        ensures known { OnOk result (IsTrue (is_known self.new origin.now)) }
        ensures kept { (other : Text) → IsTrue (is_known self.old other) → IsTrue (is_known self.new other) }
        ensures used { used_in self.new ≡ used_in self.old }
    {
        if self.items.contains_key(origin) {
            return Ok(());
        }
        let origin = origin.copy(alloc)?;
        self.items.insert(origin, 0)?;
        Ok(())
    }

    /// Says which entry is the last of an origin. Takes no memory.
    pub(crate) fn set(&mut self, origin: &Key, number: u64)
        requires known { IsTrue (is_known self.old origin.now) }
        requires some { 0 < number }
        ensures used { used_in self.new ≡ put text_cmp origin.now number (used_in self.old) }
        ensures known { (other : Text) → is_known self.new other ≡ is_known self.old other }
    {
        set_number(&mut self.items, origin, number);
    }

    /// The number of the last entry of an origin; 0 where there is none. Takes as long for many origins as for one.
    pub(crate) fn last(&self, origin: &Key) -> u64
        ensures { result ≡ unwrap_or (find text_cmp origin.now (used_in self.now)) 0 }
    {
        self.know_order();
        self.items.get(origin).copied().unwrap_or(0)
    }

    // The origins stand in order, one for each. Says so, and does next to nothing.
    fn know_order(&self)
        ensures { IsStrictlySortedBy text_cmp (keys_of self.now) }
    {
        let all: (Bound<&Key>, Bound<&Key>) = (Bound::Unbounded, Bound::Unbounded);
        let _origins = self.items.range(all);
    }

    /// The origins that were used, with the number of their last entry.
    pub(crate) fn list(&self, alloc: Global) -> Result<Vec<(Key, u64)>, AllocError>
        ensures { IfOk result (λ listed. listed.items ≡ used_in self.now) }
    {
        list_uses(alloc, &self.items)
    }
}

// The origins that were used, with their numbers.
fn list_uses(alloc: Global, items: &BTreeMap<Key, u64>) -> Result<Vec<(Key, u64)>, AllocError>
    ensures { IfOk result (λ listed. listed.items ≡ used_in items.now.entries) }
{
    let mut listed = Vec::new(alloc);
    for (origin, number) in items.iter() {
        if *number != 0 {
            listed.push((origin.copy(alloc)?, *number))?;
        }
    }
    Ok(listed)
}
