//! A small value that stands for a history.
ghost use Rattle.std.specs.Prelude.{◌≡◌, IfOk, IfErr, []};

use opfs_hall::Chronicle;
use std::alloc::{AllocError, Global};

/// What marks begin from: nothing.
pub struct Start;

/// The mark that an agent leaves in its turn `count`, from 0.
#[derive(Clone, Copy)]
pub struct Mark {
    pub agent: u32,
    pub count: u32,
}

/// All marks, in order.
#[derive(Drop)]
pub struct Marks {
    pub list: Vec<Mark>,
}

impl Chronicle for Marks {
    type Opening = Start;

    type Entry = Mark;

    ghost opening = { λ _. record {} };

    ghost entries = { λ marks. marks.list.items };

    ghost owner = { λ mark. mark.agent };

    ghost goes_on = { λ _ _. Unit {0} };

    ghost stays = { λ _. tt };

    ghost lasts = { λ _ _ _ _ _. tt };
}

impl Marks {
    pub fn new(alloc: Global) -> Marks
        ensures { result.list.items ≡ [] }
    {
        Marks {
            list: Vec::new(alloc),
        }
    }
}
