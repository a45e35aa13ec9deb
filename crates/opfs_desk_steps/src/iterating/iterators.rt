//! What is known of many iterators.

ghost use Rattle.std.specs.Prelude.{◌≡◌, ◌⊎◌, [], true, false, Some, is_some, IfSome, IsTrue};
ghost use Rattle.opfs_desk_steps.specs.Iterating.Below.{AreBelow, AreUpTo};
ghost use Rattle.opfs_desk_steps.specs.Iterating.Known.{AreOthers, AreWith, IsAtEnd, IsFollowed, IsKnownBy, IsReachedBy, last_of};

use opfs_base::Name;
use opfs_hist::Reply;
use opfs_store::{Acted, Gift};
use std::alloc::Global;
use std::collections::BTreeMap;
use std::marker::Model;

/// A call that was made: its agent, the iterator that it asked, or 0, and whether it may have made a row.
#[derive(Clone, Copy)]
pub struct Followed {
    pub agent: u32,
    pub row: u32,
    pub makes: bool,
}

/// Up to which name each iterator has given all that its directory has, where that is known, each under its agent and its row.
#[derive(Drop)]
pub struct Iterators {
    lasts: BTreeMap<(u32, u32), Name>,
}

impl Model for Iterators {
    ghost use Rattle.opfs_desk_steps.specs.Iterating.Known.{Lasts};

    ghost Value = { Lasts };

    ghost view = { λ iterators. iterators.lasts.entries };
}

impl Iterators {
    /// Nothing is known. Takes no memory.
    pub fn make(alloc: Global) -> Iterators
        ensures { result ≡ [] }
    {
        Iterators {
            lasts: BTreeMap::new(alloc),
        }
    }

    /// Takes out the name of an iterator; None where it is not known. Takes no memory.
    pub fn take(&mut self, agent: u32, row: u32) -> Option<Name>
        ensures name { result ≡ last_of agent row self.old }
        ensures others { AreOthers agent row self.old self.new }
    {
        self.lasts.remove(&(agent, row))
    }

    /// Takes note of the name of an iterator. Where there is no memory nothing is known of it.
    pub fn note(&mut self, agent: u32, row: u32, name: Name)
        ensures { AreWith agent row name self.old self.new }
    {
        let Ok(_) = self.lasts.insert((agent, row), name) else {
            return;
        };
    }

    /// Nothing is known any more. Takes no memory.
    pub fn clear(&mut self)
        ensures { self.new ≡ [] }
    {
        self.lasts.clear();
    }

    /// Takes note of what a call gave: of its child, or of the end of what it asked, where the name that was known before stays.
    /// Where there is no memory nothing is known of its iterator.
    pub fn follow(
        &mut self,
        alloc: Global,
        call: Followed,
        last: Option<Name>,
        acted: &Acted,
        past: &[Name],
    )
        ensures { IsFollowed call last acted.now.reply acted.now.gift past.now self.old self.new }
    {
        self.forget(call.makes);
        self.reach(alloc, call, last, acted, past);
    }

    // Nothing is known any more after a call that may have made a row.
    fn forget(&mut self, makes: bool)
        ensures all { makes ≡ true → self.new ≡ [] }
        ensures none { makes ≡ false → self.new ≡ self.old }
    {
        if makes {
            self.clear();
        }
    }

    // Takes note of the name up to which all is given after a call.
    fn reach(
        &mut self,
        alloc: Global,
        call: Followed,
        last: Option<Name>,
        acted: &Acted,
        past: &[Name],
    )
        ensures { IsFollowed (record call { makes = false }) last acted.now.reply acted.now.gift past.now self.old self.new }
    {
        if let Some(name) = name_known(alloc, call.row, last, acted, past) {
            self.note(call.agent, call.row, name);
        }
    }
}

// Whether all that was given is below a name.
fn are_below(past: &[Name], name: &Name) -> bool
    ensures { IsTrue result → AreBelow name.now past.now }
{
    for other in past {
        let below = other < name;
        if !below {
            return false;
        }
    }
    true
}

// Whether all is given up to a name, once it is given.
fn may_reach(known: bool, past: &[Name], name: &Name) -> bool
    ensures { IsTrue result → (known ≡ true) ⊎ AreBelow name.now past.now }
{
    if known {
        return true;
    }
    are_below(past, name)
}

// The child that a call gave, if all is given up to it.
fn name_reached(alloc: Global, known: bool, gift: &Gift, past: &[Name]) -> Option<Name>
    ensures { IfSome result (λ name. IsReachedBy known gift.now past.now name) }
{
    let Gift::Child(_, name) = gift else {
        return None;
    };
    if !may_reach(known, past, name) {
        return None;
    }
    match name.copy(alloc) {
        Ok(name) => Some(name),
        Err(_) => None,
    }
}

// Whether a call asked an iterator that has no further child.
fn is_at_end(row: u32, reply: &Reply) -> bool
    ensures { IsTrue result → IsAtEnd row reply.now }
{
    match reply {
        Reply::Last => row != 0,
        _ => false,
    }
}

// The greatest of names.
fn greatest(past: &[Name]) -> Option<&Name>
    ensures { IfSome result (λ name. AreUpTo name.now past.now) }
{
    let mut most = past.first()?;
    for name in past {
        if most < name {
            most = name;
        }
    }
    Some(most)
}

// The name that was known, or else the greatest of those given.
fn name_at_end(alloc: Global, last: Option<Name>, past: &[Name]) -> Option<Name>
    ensures { IfSome result (λ name. (last ≡ Some name) ⊎ AreUpTo name past.now) }
{
    if let Some(name) = last {
        return Some(name);
    }
    match greatest(past)?.copy(alloc) {
        Ok(name) => Some(name),
        Err(_) => None,
    }
}

// The name up to which all is given after a call, if it is known.
fn name_known(
    alloc: Global,
    row: u32,
    last: Option<Name>,
    acted: &Acted,
    past: &[Name],
) -> Option<Name>
    ensures { IfSome result (λ name. IsKnownBy row last acted.now.reply acted.now.gift past.now name) }
{
    if is_at_end(row, &acted.reply) {
        return name_at_end(alloc, last, past);
    }
    name_reached(alloc, last.is_some(), &acted.gift, past)
}
