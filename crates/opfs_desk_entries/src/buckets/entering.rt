//! A bucket's mode, and the entering of a call with it.

ghost use Rattle.std.specs.Option.{option_copied};
ghost use Rattle.std.specs.Prelude.{◌≡◌, List, true, false, is_some, IfOk, OnOk, OnErr};
ghost use Rattle.std.specs.Str.{is_utf8};
ghost use Rattle.opfs_base.specs.Texts.{Text};
ghost use Rattle.opfs_base.specs.Units.{unit_of};
ghost use Rattle.opfs_books.specs.Laws.Books.{Fixed};
ghost use Rattle.opfs_codec.specs.Fields.{plain};
ghost use Rattle.opfs_codec.specs.declared.change.Change.TheVariants.{Persist};
ghost use Rattle.opfs_desk_entries.specs.Buckets.Granting.{is_persist, gives_mode, bucket_named, unit_named, mode_now};
ghost use Rattle.opfs_desk_entries.specs.KeptBack.Changing.{HasChanged, HasNotChanged};
ghost use Rattle.opfs_desk_entries.specs.KeptBack.Keeping.{HasOwnKey};
ghost use Rattle.opfs_desk_steps.specs.Parts.Answered.{IsAnswered, MayAnswer};
ghost use Rattle.opfs_desk_steps.specs.Parts.Held.{AreHeldAt};
ghost use Rattle.opfs_desk_steps.specs.Parts.Seen.{machine_in};
ghost use Rattle.opfs_desk_steps.specs.declared.parts.parts.OpenPages.{OpenPages};
ghost use Rattle.opfs_desk_steps.specs.Going.{IsTidy};
ghost use Rattle.opfs_hist.specs.declared.reply.Reply.TheVariants as reply;
ghost use Rattle.opfs_machine.specs.declared.own.Own.{Own};
ghost use Rattle.opfs_machine.specs.declared.state.State.{State};
ghost use Rattle.opfs_machine.specs.Agents.{agent_of};
ghost use Rattle.opfs_machine.specs.Replies.{origin_in};
ghost use Rattle.opfs_records.specs.Replay.Built.{Built};

use crate::kept_back::enter_change;
use opfs_base::{Key, Text, unit_of};
use opfs_books::{Entering, EntryWithRoom};
use opfs_codec::ChangeRef;
use opfs_desk_steps::Ledger;
use opfs_hist::Op;
use opfs_journal::DiskFault;
use opfs_machine::Sizes;
use opfs_outside::Disk;
use std::alloc::{AllocError, Global};

// The unit of a bucket, for an agent with a key. The bucket's name is a text.
fn bucket_unit(alloc: Global, key: Option<&Key>, bucket: &Text) -> Result<Key, AllocError>
    requires keyed { is_some (option_copied key) ≡ true }
    ensures unit { IfOk result (λ unit. unit ≡ unit_of (origin_in (option_copied key.entry)) bucket.now) }
    ensures text { is_utf8 bucket.now ≡ true }
{
    let name = bucket.as_str();
    match key {
        Some(origin) => unit_of(alloc, origin, name),
        None => unreachable!(),
    }
}

/// The unit that a persist makes persistent, in memory of its own. The bucket's name is a text.
pub(crate) fn unit_in(alloc: Global, key: Option<&Key>, op: &Op) -> Result<Key, AllocError>
    requires word { is_persist op.now ≡ true }
    requires keyed { is_some (option_copied key) ≡ true }
    ensures unit { IfOk result (λ unit. unit ≡ unit_named (option_copied key.entry) op.now) }
    ensures text { is_utf8 (bucket_named op.now) ≡ true }
{
    match op {
        Op::Persist { bucket } => bucket_unit(alloc, key, bucket),
        _ => unreachable!(),
    }
}

// A unit's bucket is made persistent, as it is spelled.
#[tactic(auto, unfolding(opfs_codec::specs::Fields::plain))]
fn spelled<'a>(unit: &'a Key) -> ChangeRef<'a>
    ensures { plain result ≡ Persist unit.now }
{
    ChangeRef::Persist(unit)
}

/// Enters a persist with the mode that it gives.
pub(crate) fn enter_mode<D: Disk>(
    ledger: &mut Ledger<D>,
    last: EntryWithRoom,
    sizes: Sizes,
    unit: &Key,
) -> Result<(), DiskFault>
    requires may { MayAnswer D.Disk ledger.old last.entry sizes }
    requires word { gives_mode (machine_in ledger.old) last.entry.agent last.entry.op ≡ true }
    requires flag { last.entry.reply ≡ reply.Flag true }
    requires unit { unit.now ≡ unit_named (agent_of (machine_in ledger.old) last.entry.agent).key last.entry.op }
    requires keys { HasOwnKey (agent_of (machine_in ledger.old) last.entry.agent).key }
    requires text { is_utf8 (bucket_named last.entry.op) ≡ true }
    requires settled { ledger.old.journal.in_doubt ≡ false }
    ensures tidy { IsTidy ledger.old }
    ensures done { OnOk result ((f : Fixed D) (recorded : Built) (base : State Text Own) (gone : List Text) (p : OpenPages) → AreHeldAt D.Disk f recorded base gone ledger.old p → IsAnswered D.Disk base gone ledger.old last.entry sizes
        → HasChanged D.Disk f recorded base gone ledger.old ledger.new p last.entry sizes (mode_now ledger.old last.entry)) }
    ensures failed { OnErr result ((f : Fixed D) (recorded : Built) (base : State Text Own) (gone : List Text) (p : OpenPages) → AreHeldAt D.Disk f recorded base gone ledger.old p → IsAnswered D.Disk base gone ledger.old last.entry sizes
        → HasNotChanged D.Disk f recorded base gone ledger.old ledger.new p last.entry (mode_now ledger.old last.entry)) }
{
    ledger.books.state.know_rows_match_tree();
    ledger.books.state.know_order();
    let own = spelled(unit);
    let extents = None;
    let entering = Entering {
        last,
        sizes,
        extents,
    };
    match enter_change(ledger, &own, entering) {
        Ok(()) => Ok(()),
        Err(fault) => Err(fault),
    }
}
