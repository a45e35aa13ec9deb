//! The tags of one party.

ghost use Rattle.std.specs.Prelude.{◌≡◌, ◌||◌, [], true, IsTrue, OnOk};
ghost use Rattle.std.specs.Map.{set_value};
ghost use Rattle.opfs_base.specs.Texts.{Text, same_text};
ghost use Rattle.opfs_register.specs.Told.{is_tag, has_tag, told_in};

use std::alloc::{AllocError, Global};
use std::collections::BTreeMap;
use std::marker::Model;

/// Tags, each with whether it was posted: one that is there takes no memory to be posted.
#[derive(Drop)]
pub struct TagSet {
    items: BTreeMap<Vec<u8>, bool>,
}

impl Model for TagSet {
    ghost use Rattle.opfs_register.specs.Told.{Tags};

    ghost Value = { Tags };

    ghost view = { λ tags. tags.items.entries };
}

impl TagSet {
    /// No tag. Takes no memory.
    pub(crate) fn make(alloc: Global) -> TagSet
        ensures { result ≡ [] }
    {
        TagSet {
            items: BTreeMap::new(alloc),
        }
    }

    /// Whether a tag was posted.
    pub(crate) fn is_told(&self, tag: &[u8]) -> bool
        ensures { result ≡ told_in self.now tag.now }
    {
        self.items.get(tag).copied().unwrap_or(false)
    }

    /// Takes a tag in, unposted, if it is not there.
    pub(crate) fn prepare(&mut self, alloc: Global, tag: &[u8]) -> Result<(), AllocError>
        ensures there { OnOk result (IsTrue (has_tag self.new tag.now)) }
        ensures kept { (other : Text) → IsTrue (has_tag self.old other) → IsTrue (has_tag self.new other) }
        ensures told { (other : Text) → told_in self.new other ≡ told_in self.old other }
    {
        if self.items.contains_key(tag) {
            return Ok(());
        }
        let bytes = Vec::from_slice(alloc, tag)?;
        self.items.insert(bytes, false)?;
        Ok(())
    }

    /// Posts a tag that is there. Takes no memory.
    pub(crate) fn tell(&mut self, tag: &[u8])
        requires { IsTrue (has_tag self.old tag.now) }
        ensures kept { (other : Text) → has_tag self.new other ≡ has_tag self.old other }
        ensures told { (other : Text) → told_in self.new other ≡ (told_in self.old other || same_text other tag.now) }
    {
        set_told(&mut self.items, tag);
    }
}

// Posts a tag that is there.
fn set_told(items: &mut BTreeMap<Vec<u8>, bool>, tag: &[u8])
    ensures { items.new.entries ≡ set_value (is_tag tag.now) items.old.entries true }
{
    if let Some(told) = items.get_mut(tag) {
        *told = true;
    }
}
