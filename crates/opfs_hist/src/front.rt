//! What a proof remembers of entries that were given out.
ghost use Rattle.std.specs.Prelude.{◌≡◌, List};
ghost use base.Fml.{ftrue};
ghost use Rattle.opfs_hist.specs.declared.entry.Entry.{Entry};

use crate::history::History;
use std::marker::{Model, PhantomData};

/// The entries of a history as clauses saw them at one moment. It has no bytes.
pub struct Front {
    marker: PhantomData<u8>,
    pub ghost entries: { List Entry },
}

impl Model for Front {
    ghost also_owns = { λ _. ftrue };
}

impl Front {
    /// The entries that a history has now.
    pub fn of(history: &History) -> Front
        ensures { result.entries ≡ history.now }
    {
        let _ = history;
        Front {
            marker: PhantomData,
        }
    }
}

unsafe impl Send for Front {}

unsafe impl Sync for Front {}

impl Drop for Front {
    fn drop(self) {
        let Self { marker: _ } = self;
    }
}
