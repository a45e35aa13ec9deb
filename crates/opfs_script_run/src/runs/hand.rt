//! What a script's run has come to.

use crate::runs::bindings::Bindings;
use opfs_base::{Key, Locator};
use opfs_hist::Op;
use std::alloc::{AllocError, Global};
use std::marker::Model;

/// What a variable names: a directory or file by its locator, the others by the number of their row. A stream or access
/// handle that was closed is still of its kind.
#[derive(Drop)]
pub enum Named {
    Directory(Locator),
    File(Locator),
    Stream(u32),
    Handle(u32),
    Snapshot(u32),
    /// The row, and the directory that it goes over.
    Iterator(u32, Locator),
}

/// A row that is open, by its number.
#[derive(Clone, Copy, Debug, PartialEq, Eq)]
pub enum Open {
    Stream(u32),
    Handle(u32),
}

impl Open {
    ghost use Rattle.std.specs.Prelude.{◌≡◌};
    ghost use Rattle.opfs_script_run.specs.Runs.Running.{is_row, ending};

    /// What a script's end does to an open row: a stream is aborted, and an access handle discarded.
    pub fn ending(self) -> Op
        ensures { result ≡ ending self }
    {
        match self {
            Open::Stream(row) => Op::Abort { row },
            Open::Handle(row) => Op::Discard { row },
        }
    }

    /// Whether a row has this number.
    pub fn is_row(self, row: u32) -> bool
        ensures { result ≡ is_row row self }
    {
        match self {
            Open::Stream(number) => row == number,
            Open::Handle(number) => row == number,
        }
    }
}

/// The rows that are open, seen as the list of them in the order of their numbers.
#[derive(Drop)]
pub struct Opened {
    items: Vec<Open>,
}

impl Model for Opened {
    ghost use Rattle.std.specs.Prelude.{List};
    ghost use Rattle.opfs_script_run.specs.declared.runs.hand.Open.{Open};

    ghost Value = { List Open };

    ghost view = { λ opened. opened.items.items };
}

impl Opened {
    ghost use Rattle.std.specs.Prelude.{◌≡◌, [], ◌∷◌, ◌++◌, not, take, length, OnOk, OnErr};
    ghost use Rattle.std.specs.List.{filter};
    ghost use Rattle.opfs_script_run.specs.Runs.Running.{is_row};

    /// No row is open. Takes no memory.
    pub fn empty(alloc: Global) -> Opened
        ensures { result ≡ [] }
    {
        Opened {
            items: Vec::new(alloc),
        }
    }

    /// How many rows are open.
    pub fn len(&self) -> usize
        ensures { result ≡ length self.now }
    {
        self.items.len()
    }

    /// The rows that are open, in the order of their numbers.
    pub fn rows(&self) -> &[Open]
        ensures { result.now ≡ self.now }
    {
        self.items.as_slice()
    }

    /// One more row is open, the last. On want of memory the rows are as they were.
    pub fn add(&mut self, row: Open) -> Result<(), AllocError>
        ensures ok { OnOk result (self.new ≡ self.old ++ row ∷ []) }
        ensures err { OnErr result (self.new ≡ self.old) }
    {
        self.items.push(row)?;
        Ok(())
    }

    /// Leaves so many rows.
    pub fn truncate(&mut self, count: usize)
        ensures { self.new ≡ take count self.old }
    {
        self.items.truncate(count);
    }

    /// The row of a number is no longer open.
    pub fn close(&mut self, row: u32)
        ensures { self.new ≡ filter (λ other. not (is_row row other)) self.old }
    {
        self.items.retain(|other| !other.is_row(row));
    }
}

/// What a script's run has come to.
#[derive(Drop)]
pub struct Hand {
    /// The key of the agent's origin; None where that is opaque.
    pub key: Option<Key>,
    /// What the variables name.
    pub bound: Bindings,
    /// How many rows the run has made.
    pub rows: u32,
    /// Which of them are open.
    pub opened: Opened,
}

impl Hand {
    ghost use Rattle.std.specs.Prelude.{◌≡◌};
    ghost use Rattle.opfs_script_run.specs.Runs.Running.{empty_hand};

    /// The hand in which a script begins. Takes no memory.
    pub fn make(alloc: Global, key: Option<Key>) -> Hand
        ensures { result ≡ empty_hand key }
    {
        Hand {
            key,
            bound: Bindings::empty(alloc),
            rows: 0,
            opened: Opened::empty(alloc),
        }
    }

    /// The rows that are open, in the order of their numbers.
    pub fn opened(&self) -> &[Open]
        ensures { result.now ≡ self.now.opened }
    {
        self.opened.rows()
    }
}
