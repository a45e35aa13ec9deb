//! Iteration over a directory's children (File System: FileSystemDirectoryHandle's asynchronous iterator; its steps are this
//! project's own).

ghost use Rattle.std.specs.Prelude.{◌≡◌, ◌+◌, ◌≤◌, [], length};
ghost use Rattle.std.specs.Vec.{vec_capacity};
ghost use Rattle.opfs_hist.specs.declared.op.Op.TheVariants as op;
ghost use Rattle.opfs_hist.specs.declared.reply.Reply.TheVariants as reply;
ghost use Rattle.opfs_turns.specs.Calls.{HasRoom};
ghost use Rattle.opfs_turns.specs.Asking.Answers.{Shared, IsOwn};
ghost use Rattle.opfs_turns.specs.Asking.Locals.{Local};
ghost use Rattle.opfs_turns.specs.Asking.Rows.{HasIterator};
ghost use Rattle.opfs_agent.specs.Entries.{IsNextOf, IsNoted};

use crate::agent::Agent;
use opfs_base::{Locator, Name};
use opfs_hall::Hall;
use opfs_hist::{Op, Reply};
use opfs_store::{Acted, Gift, Store};
use opfs_turns::{Stop, ask_past};
use std::marker::Model;
use std::sync::Wait;

/// An iterator over a directory's children.
#[derive(Drop)]
pub struct Iter {
    row: u32,
    dir: Locator,
    // The names that it has given.
    given: Vec<Name>,
}

impl Model for Iter {
    ghost use Rattle.opfs_turns.specs.Asking.Rows.{IteratorSeen};

    ghost Value = { IteratorSeen };

    ghost view = { λ i. record { row = i.row; dir = i.dir; given = i.given.items } };
}

impl Iter {
    /// The number of its row.
    pub fn row(&self) -> u32
        ensures { result ≡ self.now.row }
    {
        self.row
    }
}

// Takes note of the child that an iterator gave, if it gave one.
fn note(given: &mut Vec<Name>, gift: Gift) -> Option<Locator>
    requires { length given.old.items + 1 ≤ vec_capacity given.old }
    ensures { IsNoted gift given.old.items given.new.items result }
{
    match gift {
        Gift::Child(at, name) => {
            given.push_reserved(name);
            Some(at)
        }
        _ => None,
    }
}

impl<S: Store> Agent<S> {
    /// Begins to go over a directory's children (File System: values).
    pub fn values(&mut self, dir: &Locator) -> Result<Iter, Stop>
        requires room { HasRoom self.old }
        requires dir { IsOwn self.old dir.now }
        ensures { Local S.tells self.old self.new (op.Values dir.now) 1 (λ iter answered. (answered ≡ reply.Done) × (iter ≡ record { row = self.new.rows; dir = dir.now; given = [] }) × HasIterator self.new iter) result }
    {
        self.know_kept();
        let Ok(asked) = dir.copy(self.alloc) else {
            return Err(Stop::NoMemory);
        };
        let Ok(dir) = dir.copy(self.alloc) else {
            return Err(Stop::NoMemory);
        };
        let given = Vec::new(self.alloc);
        self.keep_call(Op::Values { dir: asked }, Reply::Done, 1)?;
        let row = self.rows();
        Ok(Iter { row, dir, given })
    }

    /// Gives the least child name that the iterator has not given before, with the child's kind, or the end.
    pub fn next<R: Wait>(
        &mut self,
        rt: &R,
        court: &Hall<S>,
        iter: &mut Iter,
    ) -> Result<Option<Locator>, Stop>
        requires own { self.old.pass.hall ≡ court.now }
        requires room { HasRoom self.old }
        requires iter { HasIterator self.old iter.old }
        ensures shared { Shared S.tells self.old self.new (op.Next iter.old.row iter.old.dir) (λ child answered _. IsNextOf iter.old.dir child answered) result }
        ensures iter { HasIterator self.new iter.new }
        ensures same { iter.new ≡ record iter.old { given = iter.new.given } }
    {
        self.know_kept();
        if iter.given.reserve(1).is_err() {
            return Err(Stop::NoMemory);
        }
        let acted = self.ask_next(rt, court, iter)?;
        Ok(note(&mut iter.given, acted.gift))
    }

    // Asks for an iterator's next child.
    fn ask_next<R: Wait>(&mut self, rt: &R, court: &Hall<S>, iter: &Iter) -> Result<Acted, Stop>
        requires own { self.old.pass.hall ≡ court.now }
        requires room { HasRoom self.old }
        requires iter { HasIterator self.old iter.now }
        ensures { Shared S.tells self.old self.new (op.Next iter.now.row iter.now.dir) (λ acted answered given. (acted.reply ≡ answered) × (acted.gift ≡ given)) result }
    {
        let Ok(dir) = iter.dir.copy(self.alloc) else {
            return Err(Stop::NoMemory);
        };
        let op = Op::Next { row: iter.row, dir };
        ask_past(
            rt,
            self.alloc,
            &mut self.turns,
            court,
            op,
            iter.given.as_slice(),
        )
    }
}
