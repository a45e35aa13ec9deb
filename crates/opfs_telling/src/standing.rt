//! A store that tells its history stands for that history, as the store does that it has.

ghost use base.Fml.{GName, ftrue};

use crate::teller::Teller;
use opfs_hall::Chronicle;
use opfs_hist::Entry;
use opfs_outside::Sink;
use opfs_store::Store;
use std::marker::{Model, PhantomData};

/// With what it began: the store's opening, which sink was lent, and how it was. No value of it is made.
pub struct Began<O, K> {
    opening: PhantomData<O>,
    sink: PhantomData<K>,
    pub ghost of: { O },
    pub ghost name: { GName },
    pub ghost begun: { K },
}

impl<O, K> Model for Began<O, K> {
    ghost also_owns = { λ _. ftrue };
}

impl<'a, S: Store, K: Sink> Chronicle for Teller<'a, S, K> {
    type Opening = Began<S::Opening, K>;

    type Entry = Entry;

    ghost opening = { λ t. record { opening = record {}; sink = record {}; of = S.opening t.store; name = t.name; begun = t.begun } };

    ghost entries = { λ t. S.entries t.store };

    ghost owner = { S.owner };

    ghost goes_on = { λ t u. S.goes_on t.store u.store };

    ghost stays = { λ t. S.stays t.store };

    ghost lasts = { λ t u v first second. S.lasts t.store u.store v.store first second };
}
