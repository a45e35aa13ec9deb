//! A row's pages that a call puts, once its units are cleared.

ghost use Rattle.std.specs.Prelude.{ℕ, List, OnOk, OnErr};
ghost use Rattle.opfs_base.specs.Texts.{Text};
ghost use Rattle.opfs_books.specs.Laws.Books.{Fixed};
ghost use Rattle.opfs_desk_bytes.specs.Writing.Putting.{MayFindRoom, MayWrite, IsToPut, AreGottenIn, HaveBlocksIn, HasFound, HasNotPut, HasWritten, HasPutPages};
ghost use Rattle.opfs_machine.specs.declared.own.Own.{Own};
ghost use Rattle.opfs_machine.specs.declared.state.State.{State};
ghost use Rattle.opfs_records.specs.Replay.Built.{Built};

use opfs_books::{pages_beside_leave_the_books, the_books_show_their_images};
use opfs_desk_steps::{DeskParts, commit_kept, puts_have_room};
use opfs_journal::DiskFault;
use opfs_outside::Disk;
use opfs_pages::{Put, find_blocks, what_is_laid_goes_on};

// Blocks for a put that has none yet: what is kept back is committed, and then there are enough.
fn find_room<D: Disk>(
    parts: &mut DeskParts<D>,
    put: &mut Put,
    agent: u32,
    row: u32,
) -> Result<(), DiskFault>
    requires may { (given : List ℕ) × MayFindRoom D.Disk parts.old agent row put.old given }
    ensures found { OnOk result ((f : Fixed D) (recorded : Built) (base : State Text Own) (gone : List Text) (given : List ℕ) → IsToPut D.Disk f recorded base gone parts.old agent row put.old given → AreGottenIn D.Disk recorded parts.old agent row put.old given
        → HasFound D.Disk f base gone parts.old parts.new agent row put.old put.new given) }
    ensures failed { OnErr result ((f : Fixed D) (recorded : Built) (base : State Text Own) (gone : List Text) (given : List ℕ) → IsToPut D.Disk f recorded base gone parts.old agent row put.old given → HasNotPut D.Disk f base gone parts.old parts.new) }
{
    the_books_show_their_images::<D>();
    puts_have_room();
    if put.taken {
        return Ok(());
    }
    match commit_kept(&mut parts.ledger) {
        Ok(()) => {
            find_blocks(
                put,
                &mut parts.pages.space,
                parts.ledger.books.state.tree(),
                &parts.pages.swap,
                agent,
                row,
            );
            Ok(())
        }
        Err(fault) => Err(fault),
    }
}

// Writes a row's pages into their blocks.
fn write_pages<D: Disk>(
    parts: &mut DeskParts<D>,
    put: &mut Put,
    given: &[u8],
    agent: u32,
    row: u32,
) -> Result<(), DiskFault>
    requires may { MayWrite D.Disk parts.old agent row put.old given.now }
    ensures written { OnOk result ((f : Fixed D) (recorded : Built) (base : State Text Own) (gone : List Text) → IsToPut D.Disk f recorded base gone parts.old agent row put.old given.now → HaveBlocksIn D.Disk parts.old agent row put.old given.now
        → HasWritten D.Disk f recorded base gone parts.old parts.new agent row put.old given.now) }
    ensures failed { OnErr result ((f : Fixed D) (recorded : Built) (base : State Text Own) (gone : List Text) → IsToPut D.Disk f recorded base gone parts.old agent row put.old given.now → HaveBlocksIn D.Disk parts.old agent row put.old given.now
        → HasNotPut D.Disk f base gone parts.old parts.new) }
{
    pages_beside_leave_the_books::<D>();
    what_is_laid_goes_on::<D>();
    match put.write(
        &mut parts.pages.swap,
        &mut parts.ledger.journal,
        parts.pages.base,
        agent,
        row,
        given,
    ) {
        Ok(()) => Ok(()),
        Err(fault) => Err(fault),
    }
}

/// Puts a row's pages: each gets its block, and its bytes. Where the disk fails, each page of each row reads as before. Takes no memory.
pub(crate) fn put_pages<D: Disk>(
    parts: &mut DeskParts<D>,
    put: &mut Put,
    given: &[u8],
    agent: u32,
    row: u32,
) -> Result<(), DiskFault>
    requires may { MayFindRoom D.Disk parts.old agent row put.old given.now }
    ensures put { OnOk result ((f : Fixed D) (recorded : Built) (base : State Text Own) (gone : List Text) → IsToPut D.Disk f recorded base gone parts.old agent row put.old given.now → AreGottenIn D.Disk recorded parts.old agent row put.old given.now
        → HasPutPages D.Disk f base gone parts.old parts.new agent row put.old given.now) }
    ensures failed { OnErr result ((f : Fixed D) (recorded : Built) (base : State Text Own) (gone : List Text) → IsToPut D.Disk f recorded base gone parts.old agent row put.old given.now → AreGottenIn D.Disk recorded parts.old agent row put.old given.now
        → HasNotPut D.Disk f base gone parts.old parts.new) }
{
    the_books_show_their_images::<D>();
    match find_room(parts, put, agent, row) {
        Ok(()) => match write_pages(parts, put, given, agent, row) {
            Ok(()) => Ok(()),
            Err(fault) => Err(fault),
        },
        Err(fault) => Err(fault),
    }
}
