//! The posted tags.

ghost use Rattle.std.specs.Prelude.{◌≡◌, ◌++◌, [], ◌∷◌, Some, None, IsSome, OnOk, OnErr};
ghost use Rattle.opfs_machine.specs.declared.state.Party.TheVariants as party;
ghost use Rattle.opfs_machine.specs.declared.state.Posted.{Posted};
ghost use Rattle.opfs_register.specs.Told.{posted_in};

use crate::circles::Circles;
use opfs_base::{Bytes, Key};
use opfs_machine::{Party, Posted};
use std::alloc::{AllocError, Global};
use std::marker::Model;
use std::mem::replace;

/// The posted tags in the order in which they were posted, and a party's tag that stands ready to be posted or waited
/// for. Whether a tag was posted is found in the tags of its party.
#[derive(Drop)]
pub struct Posts {
    made: Vec<Posted>,
    circles: Circles,
    ready: Option<Posted>,
}

impl Model for Posts {
    ghost use Rattle.std.specs.Prelude.{vec_capacity};
    ghost use Rattle.opfs_register.specs.Posting.{Posting, IsPosting};

    ghost Value = { Posting };

    ghost view = { λ posts. record { posted = posts.made.items; ready = posts.ready } };

    ghost invariant = { λ posts. IsPosting posts.made.items (vec_capacity posts.made) posts.circles posts.ready };
}

impl Posts {
    /// No tag. Takes no memory.
    pub(crate) fn make(alloc: Global) -> Posts
        ensures { result ≡ record { posted = []; ready = None } }
    {
        Posts {
            made: Vec::new(alloc),
            circles: Circles::make(alloc),
            ready: None,
        }
    }

    /// Whether a tag was posted among those of an origin.
    pub(crate) fn is_posted_of_origin(&self, origin: &Key, tag: &[u8]) -> bool
        ensures { result ≡ posted_in self.now.posted (party.Origin origin.now) tag.now }
    {
        self.circles.is_told_of_origin(origin, tag)
    }

    /// Whether a tag was posted among those of an agent that is alone.
    pub(crate) fn is_posted_of_agent(&self, number: u32, tag: &[u8]) -> bool
        ensures { result ≡ posted_in self.now.posted (party.Alone number) tag.now }
    {
        self.circles.is_told_of_agent(number, tag)
    }

    /// Makes a party's tag ready.
    pub(crate) fn prepare(
        &mut self,
        alloc: Global,
        party: Party,
        tag: &[u8],
    ) -> Result<(), AllocError>
        ensures ok { OnOk result (self.new ≡ record self.old { ready = Some (record { party = party; tag = tag.now }) }) }
        ensures err { OnErr result (self.new ≡ self.old) }
    {
        self.made.reserve(1)?;
        let tag = Bytes::copy_of(alloc, tag)?;
        self.circles.prepare(alloc, &party, tag.as_slice())?;
        self.ready = Some(Posted { party, tag });
        Ok(())
    }

    /// Posts the tag that is ready. Takes no memory.
    pub(crate) fn post(&mut self)
        requires { IsSome self.old.ready }
        ensures { (ready : Posted) → self.old.ready ≡ Some ready → self.new ≡ record { posted = self.old.posted ++ ready ∷ []; ready = None } }
    {
        let Some(posted) = replace(&mut self.ready, None) else {
            unreachable!();
        };
        self.circles.tell(&posted.party, posted.tag.as_slice());
        self.made.push_reserved(posted);
    }

    /// Gives the tag that is ready. Takes no memory.
    pub(crate) fn take(&mut self) -> Bytes
        requires { IsSome self.old.ready }
        ensures posts { self.new ≡ record self.old { ready = None } }
        ensures tag { (ready : Posted) → self.old.ready ≡ Some ready → result ≡ ready.tag }
    {
        let Some(posted) = replace(&mut self.ready, None) else {
            unreachable!();
        };
        posted.tag
    }
}
