//! Directories and their entries (File System: FileSystemDirectoryHandle).

ghost use Rattle.std.specs.Prelude.{◌≡◌, false, IfOk, MatchOption};
ghost use Rattle.opfs_base.specs.Names.{is_valid_name};
ghost use Rattle.opfs_base.specs.Places.{child_of};
ghost use Rattle.opfs_base.specs.declared.locator.Kind.TheVariants as kind;
ghost use Rattle.opfs_hist.specs.declared.op.Op.TheVariants as op;
ghost use Rattle.opfs_hist.specs.declared.reply.Reply.TheVariants as reply;
ghost use Rattle.opfs_turns.specs.Calls.{HasRoom};
ghost use Rattle.opfs_turns.specs.Asking.Answers.{Shared, IsOwn};

use crate::agent::Agent;
use opfs_base::{Kind, Locator, Name, Text, is_valid_name};
use opfs_hall::Hall;
use opfs_hist::Op;
use opfs_store::Store;
use opfs_turns::Stop;
use std::alloc::AllocError;
use std::sync::Wait;

impl<S: Store> Agent<S> {
    /// Finds a directory's child that is a file, and makes it where it is missing and `create` says so (File System:
    /// getFileHandle).
    #[tactic(auto, using(opfs_turns::proofs::asking::Shares::looked_none, opfs_turns::proofs::asking::Answered::with_child), unfolding(opfs_machine::specs::Histories::may_enter, opfs_store::specs::Acts::Asking::HasSmallNumbers, opfs_machine::specs::Replies::answer))]
    pub fn get_file_handle<R: Wait>(
        &mut self,
        rt: &R,
        court: &Hall<S>,
        dir: &Locator,
        name: &Text,
        create: bool,
    ) -> Result<Locator, Stop>
        requires own { self.old.pass.hall ≡ court.now }
        requires room { HasRoom self.old }
        requires dir { IsOwn self.old dir.now }
        ensures { Shared S.tells self.old self.new (op.GetFileHandle dir.now name.now create) (λ at answered _. (at ≡ child_of dir.now name.now kind.File) × (answered ≡ reply.Done)) result }
    {
        let Ok(child) = self.child(dir, name, Kind::File) else {
            return Err(Stop::NoMemory);
        };
        let Ok((dir, name)) = self.place(dir, name) else {
            return Err(Stop::NoMemory);
        };
        self.ask_done(rt, court, Op::GetFileHandle { dir, name, create })?;
        let Some(child) = child else {
            // A name that is none was refused.
            unreachable!();
        };
        Ok(child)
    }

    /// The same of a child that is a directory (File System: getDirectoryHandle).
    #[tactic(auto, using(opfs_turns::proofs::asking::Shares::looked_none, opfs_turns::proofs::asking::Answered::with_child), unfolding(opfs_machine::specs::Histories::may_enter, opfs_store::specs::Acts::Asking::HasSmallNumbers, opfs_machine::specs::Replies::answer))]
    pub fn get_directory_handle<R: Wait>(
        &mut self,
        rt: &R,
        court: &Hall<S>,
        dir: &Locator,
        name: &Text,
        create: bool,
    ) -> Result<Locator, Stop>
        requires own { self.old.pass.hall ≡ court.now }
        requires room { HasRoom self.old }
        requires dir { IsOwn self.old dir.now }
        ensures { Shared S.tells self.old self.new (op.GetDirectoryHandle dir.now name.now create) (λ at answered _. (at ≡ child_of dir.now name.now kind.Directory) × (answered ≡ reply.Done)) result }
    {
        let Ok(child) = self.child(dir, name, Kind::Directory) else {
            return Err(Stop::NoMemory);
        };
        let Ok((dir, name)) = self.place(dir, name) else {
            return Err(Stop::NoMemory);
        };
        self.ask_done(rt, court, Op::GetDirectoryHandle { dir, name, create })?;
        let Some(child) = child else {
            // A name that is none was refused.
            unreachable!();
        };
        Ok(child)
    }

    /// Removes a directory's child, with all below it where `recursive` says so (File System: removeEntry).
    #[tactic(auto, using(opfs_turns::proofs::asking::Shares::looked_none), unfolding(opfs_machine::specs::Histories::may_enter, opfs_store::specs::Acts::Asking::HasSmallNumbers, opfs_machine::specs::Replies::answer))]
    pub fn remove_entry<R: Wait>(
        &mut self,
        rt: &R,
        court: &Hall<S>,
        dir: &Locator,
        name: &Text,
        recursive: bool,
    ) -> Result<(), Stop>
        requires own { self.old.pass.hall ≡ court.now }
        requires room { HasRoom self.old }
        requires dir { IsOwn self.old dir.now }
        ensures { Shared S.tells self.old self.new (op.RemoveEntry dir.now name.now recursive) (λ _ answered _. answered ≡ reply.Done) result }
    {
        let Ok((dir, name)) = self.place(dir, name) else {
            return Err(Stop::NoMemory);
        };
        self.ask_done(
            rt,
            court,
            Op::RemoveEntry {
                dir,
                name,
                recursive,
            },
        )
    }

    // The locator of a directory's child; None where the name is none.
    fn child(&self, dir: &Locator, name: &Text, kind: Kind) -> Result<Option<Locator>, AllocError>
        ensures { IfOk result (λ child. MatchOption child (is_valid_name name.now ≡ false) (λ at. at ≡ child_of dir.now name.now kind)) }
    {
        if !is_valid_name(name.as_str()) {
            return Ok(None);
        }
        let name = Name::read(self.alloc, name.as_str())?;
        let key = dir.key.copy(self.alloc)?;
        let path = dir.path.child(self.alloc, &name)?;
        Ok(Some(Locator { key, path, kind }))
    }

    // A directory and a name, to be kept in an entry.
    fn place(&self, dir: &Locator, name: &Text) -> Result<(Locator, Text), AllocError>
        ensures { IfOk result (λ place. (place.0 ≡ dir.now) × (place.1 ≡ name.now)) }
    {
        let dir = dir.copy(self.alloc)?;
        let name = name.copy(self.alloc)?;
        Ok((dir, name))
    }
}
