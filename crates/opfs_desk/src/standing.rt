//! The desk stands for its history.

ghost use Rattle.opfs_books.specs.Laws.Books.{Fixed};
ghost use base.Fml.{ftrue};

use crate::desk::Desk;
use opfs_hall::Chronicle;
use opfs_hist::Entry;
use opfs_outside::Disk;
use std::marker::{Model, PhantomData};

/// With what a desk began. No value of it is made.
pub struct Opened<D: Disk> {
    marker: PhantomData<D>,
    pub ghost fixed: { Fixed D },
}

impl<D: Disk> Model for Opened<D> {
    ghost also_owns = { λ _. ftrue };
}

impl<D: Disk> Chronicle for Desk<D> {
    ghost use Rattle.opfs_desk.specs.Keeping.{StaysKept};
    ghost use Rattle.opfs_desk.specs.Seen.{entries_of};

    type Opening = Opened<D>;

    type Entry = Entry;

    ghost opening = { λ d. record { marker = record {}; fixed = d.fixed } };

    ghost entries = { λ d. entries_of d };

    ghost owner = { λ e. e.agent };

    ghost goes_on = { λ a b. StaysKept D.Disk a b };

    ghost stays = { λ d t count moment was. was };

    ghost lasts = { λ a b c first second t count moment was. second t count moment (first t count moment was) };
}
