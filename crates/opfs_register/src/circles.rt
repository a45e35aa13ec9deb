//! The tags of each party.

ghost use Rattle.std.specs.Prelude.{◌≡◌, ◌&&◌, ◌||◌, ℕ, [], true, IsTrue, IsSome, OnOk};
ghost use Rattle.std.specs.BTreeMap.{is_at};
ghost use Rattle.std.specs.Map.{lookup};
ghost use Rattle.std.specs.Ordering.{is_eq};
ghost use Rattle.opfs_base.specs.Texts.{Text, same_text};
ghost use Rattle.opfs_machine.specs.Agents.{same_party};
ghost use Rattle.opfs_machine.specs.declared.state.Party.{Party};
ghost use Rattle.opfs_machine.specs.declared.state.Party.TheVariants as party;
ghost use Rattle.opfs_register.specs.Told.{has_of, told_of, has, told};

use crate::tag_set::TagSet;
use opfs_base::Key;
use opfs_machine::Party;
use std::alloc::{AllocError, Global};
use std::collections::BTreeMap;
use std::marker::Model;

/// The tags of each party that has one.
#[derive(Drop)]
pub struct Circles {
    origins: BTreeMap<Key, TagSet>,
    alone: BTreeMap<u32, TagSet>,
}

impl Model for Circles {
    ghost use Rattle.opfs_register.specs.Told.{Circled};

    ghost Value = { Circled };

    ghost view = { λ circles. record { origins = circles.origins.entries; alone = circles.alone.entries } };
}

// Whether a tag was posted among those at a key.
fn is_told<K: Ord>(circles: &BTreeMap<K, TagSet>, key: &K, tag: &[u8]) -> bool
    ensures { result ≡ told_of (lookup (is_at (K.cmp key.now)) circles.now.entries) tag.now }
{
    match circles.get(key) {
        Some(tags) => tags.is_told(tag),
        None => false,
    }
}

// Gives a key its tags, if it has none.
fn add_circle<K: Ord + Drop>(
    alloc: Global,
    circles: &mut BTreeMap<K, TagSet>,
    key: K,
) -> Result<(), AllocError>
    ensures told { (k : K) (t : Text) → told_of (lookup (is_at (K.cmp k)) circles.new.entries) t ≡ told_of (lookup (is_at (K.cmp k)) circles.old.entries) t }
    ensures kept { (k : K) (t : Text) → IsTrue (has_of (lookup (is_at (K.cmp k)) circles.old.entries) t) → IsTrue (has_of (lookup (is_at (K.cmp k)) circles.new.entries) t) }
    ensures there { OnOk result (IsSome (lookup (is_at (K.cmp key)) circles.new.entries)) }
{
    if circles.contains_key(&key) {
        return Ok(());
    }
    circles.insert(key, TagSet::make(alloc))?;
    Ok(())
}

// Takes a tag in, unposted, at a key that has its tags.
fn prepare_at<K: Ord>(
    alloc: Global,
    circles: &mut BTreeMap<K, TagSet>,
    key: &K,
    tag: &[u8],
) -> Result<(), AllocError>
    requires { IsSome (lookup (is_at (K.cmp key.now)) circles.old.entries) }
    ensures there { OnOk result (IsTrue (has_of (lookup (is_at (K.cmp key.now)) circles.new.entries) tag.now)) }
    ensures told { (k : K) (t : Text) → told_of (lookup (is_at (K.cmp k)) circles.new.entries) t ≡ told_of (lookup (is_at (K.cmp k)) circles.old.entries) t }
    ensures kept { (k : K) (t : Text) → IsTrue (has_of (lookup (is_at (K.cmp k)) circles.old.entries) t) → IsTrue (has_of (lookup (is_at (K.cmp k)) circles.new.entries) t) }
{
    match circles.get_mut(key) {
        Some(tags) => tags.prepare(alloc, tag),
        None => Ok(()),
    }
}

// Posts a tag that is there.
fn tell<K: Ord>(circles: &mut BTreeMap<K, TagSet>, key: &K, tag: &[u8])
    requires { IsTrue (has_of (lookup (is_at (K.cmp key.now)) circles.old.entries) tag.now) }
    ensures told { (k : K) (t : Text) → told_of (lookup (is_at (K.cmp k)) circles.new.entries) t ≡ (told_of (lookup (is_at (K.cmp k)) circles.old.entries) t || (is_eq (K.cmp k key.now) && same_text t tag.now)) }
    ensures kept { (k : K) (t : Text) → has_of (lookup (is_at (K.cmp k)) circles.new.entries) t ≡ has_of (lookup (is_at (K.cmp k)) circles.old.entries) t }
{
    if let Some(tags) = circles.get_mut(key) {
        tags.tell(tag);
    }
}

impl Circles {
    /// No party has a tag. Takes no memory.
    pub(crate) fn make(alloc: Global) -> Circles
        ensures { result ≡ record { origins = []; alone = [] } }
    {
        Circles {
            origins: BTreeMap::new(alloc),
            alone: BTreeMap::new(alloc),
        }
    }

    /// Whether a tag was posted among those of an origin.
    pub(crate) fn is_told_of_origin(&self, origin: &Key, tag: &[u8]) -> bool
        ensures { result ≡ told self.now (party.Origin origin.now) tag.now }
    {
        is_told(&self.origins, origin, tag)
    }

    /// Whether a tag was posted among those of an agent that is alone.
    pub(crate) fn is_told_of_agent(&self, number: u32, tag: &[u8]) -> bool
        ensures { result ≡ told self.now (party.Alone number) tag.now }
    {
        is_told(&self.alone, &number, tag)
    }

    // Takes a tag of an origin in.
    fn prepare_origin(&mut self, alloc: Global, origin: &Key, tag: &[u8]) -> Result<(), AllocError>
        ensures there { OnOk result (IsTrue (has self.new (party.Origin origin.now) tag.now)) }
        ensures kept { (p : Party) (t : Text) → IsTrue (has self.old p t) → IsTrue (has self.new p t) }
        ensures told { (p : Party) (t : Text) → told self.new p t ≡ told self.old p t }
    {
        let key = origin.copy(alloc)?;
        add_circle(alloc, &mut self.origins, key)?;
        prepare_at(alloc, &mut self.origins, origin, tag)?;
        Ok(())
    }

    // Takes a tag of an agent in that is alone.
    fn prepare_agent(&mut self, alloc: Global, number: u32, tag: &[u8]) -> Result<(), AllocError>
        ensures there { OnOk result (IsTrue (has self.new (party.Alone number) tag.now)) }
        ensures kept { (p : Party) (t : Text) → IsTrue (has self.old p t) → IsTrue (has self.new p t) }
        ensures told { (p : Party) (t : Text) → told self.new p t ≡ told self.old p t }
    {
        add_circle(alloc, &mut self.alone, number)?;
        prepare_at(alloc, &mut self.alone, &number, tag)?;
        Ok(())
    }

    /// Takes a tag of a party in, unposted, if it is not there.
    pub(crate) fn prepare(
        &mut self,
        alloc: Global,
        party: &Party,
        tag: &[u8],
    ) -> Result<(), AllocError>
        ensures there { OnOk result (IsTrue (has self.new party.now tag.now)) }
        ensures kept { (p : Party) (t : Text) → IsTrue (has self.old p t) → IsTrue (has self.new p t) }
        ensures told { (p : Party) (t : Text) → told self.new p t ≡ told self.old p t }
    {
        match party {
            Party::Origin(origin) => self.prepare_origin(alloc, origin, tag),
            Party::Alone(number) => self.prepare_agent(alloc, *number, tag),
        }
    }

    /// Posts a tag of a party that is there. Takes no memory.
    pub(crate) fn tell(&mut self, party: &Party, tag: &[u8])
        requires { IsTrue (has self.old party.now tag.now) }
        ensures kept { (p : Party) (t : Text) → has self.new p t ≡ has self.old p t }
        ensures told { (p : Party) (t : Text) → told self.new p t ≡ (told self.old p t || (same_party p party.now && same_text t tag.now)) }
    {
        match party {
            Party::Origin(origin) => tell(&mut self.origins, origin, tag),
            Party::Alone(number) => tell(&mut self.alone, number, tag),
        }
    }
}
