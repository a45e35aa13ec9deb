//! The content of a row, committed, and the call's entry.

ghost use Rattle.std.specs.Prelude.{◌≡◌, ◌<◌, ◌≤◌, ◌^◌, [], true, false, length, OnOk, OnErr};
ghost use Rattle.std.specs.Vec.{vec_capacity};
ghost use Rattle.opfs_codec.specs.Fields.{plain};
ghost use Rattle.opfs_codec.specs.declared.change.Change.TheVariants.{Content};
ghost use Rattle.opfs_desk_contents.specs.Storing.{MayStoreContent, HasEnteredContent, HasFailedContent};
ghost use Rattle.opfs_desk_contents.specs.Words.{is_storing};
ghost use Rattle.opfs_desk_steps.specs.Parts.Seen.{tree_in};
ghost use Rattle.opfs_hist.specs.declared.reply.Reply.TheVariants as reply;
ghost use Rattle.opfs_tree.specs.Rows.{IsInOrder};

use crate::words::stamp_of;
use opfs_base::{Extent, Extents};
use opfs_books::{Entering, EntryWithRoom};
use opfs_codec::ChangeRef;
use opfs_desk_steps::{Ledger, store_call};
use opfs_journal::DiskFault;
use opfs_machine::{Place, Sizes};
use opfs_outside::Disk;

// The content of a file as a change.
#[tactic(auto, unfolding(opfs_codec::specs::Fields::plain))]
fn content_of<'a>(place: &'a Place, stamp: u64, size: u64, runs: &'a Extents) -> ChangeRef<'a>
    ensures is { plain result ≡ Content place.now.0 place.now.1 stamp size runs.now }
    ensures moment { stamp < 2 ^ 64 }
    ensures small { size < 2 ^ 64 }
{
    ChangeRef::Content(&place.0, &place.1, stamp, size, runs)
}

/// Copies runs to where there is room for them.
pub(crate) fn copy_runs(runs: &[Extent], into: &mut Vec<Extent>)
    requires empty { into.old.items ≡ [] }
    requires room { length runs.now ≤ vec_capacity into.old }
    ensures { into.new.items ≡ runs.now }
{
    if into.extend_from_slice(runs).is_err() {
        unreachable!();
    }
}

/// Commits the content of a file with what is kept back, and enters the call. Where the disk fails, the call is entered so, and the
/// content may be in doubt. The pages are the caller's.
pub fn enter_content<D: Disk>(
    ledger: &mut Ledger<D>,
    last: EntryWithRoom,
    sizes: Sizes,
    place: &Place,
    size: u64,
    runs: &Extents,
    extents: Option<Extents>,
) -> Result<(), DiskFault>
    requires may { MayStoreContent D.Disk ledger.old last.entry sizes place.now size runs.now extents }
    requires word { is_storing last.entry.op ≡ true }
    requires done { last.entry.reply ≡ reply.Done }
    requires settled { ledger.old.journal.in_doubt ≡ false }
    ensures order { IsInOrder (tree_in ledger.old) }
    ensures stored { OnOk result (HasEnteredContent D.Disk ledger.old ledger.new last.entry sizes place.now size runs.now extents) }
    ensures failed { OnErr result (HasFailedContent D.Disk ledger.old ledger.new last.entry sizes place.now size runs.now) }
{
    ledger.books.state.know_order();
    let stamp = stamp_of(&ledger.books.state, last.entry.agent, &last.entry.op, place);
    let own = content_of(place, stamp, size, runs);
    let entering = Entering {
        last,
        sizes,
        extents,
    };
    match store_call(ledger, &own, entering) {
        Ok(()) => {
            ledger.books.state.know_order();
            Ok(())
        }
        Err(fault) => Err(fault),
    }
}
