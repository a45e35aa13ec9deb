//! An iterator's next child.

ghost use Rattle.std.specs.Prelude.{◌≡◌, [], true, None, Some, IfOk, IfSome, OnOk, OnErr};
ghost use Rattle.std.specs.Option.{option_copied};
ghost use Rattle.opfs_store.specs.Acts.Acting.{IsSameCopy};
ghost use Rattle.opfs_base.specs.Places.{place_of};
ghost use Rattle.opfs_books.specs.Laws.Books.{Fixed};
ghost use Rattle.opfs_desk_steps.specs.Parts.Acted.{HasActed, IsUnacted};
ghost use Rattle.opfs_desk_steps.specs.Parts.Asked.{IsAsked, MayGo};
ghost use Rattle.opfs_desk_steps.specs.Parts.Held.{AreHeldWhole};
ghost use Rattle.opfs_desk_steps.specs.Parts.Seen.{call_in};
ghost use Rattle.opfs_desk_entries.specs.Answers.Next.{found_gift, found_reply, is_next, next_gift, next_least, names_in, MayGoFrom};
ghost use Rattle.opfs_desk_steps.specs.Iterating.Reached.{AreGivenUpTo, IsUpTo};
ghost use Rattle.opfs_records.specs.Replay.Built.{Built};
ghost use Rattle.opfs_tree.specs.Rows.{children_of, least_not_in};

use crate::answers::telling::{tell, telling_laws};
use opfs_base::{Kind, Locator, Name, child_of};
use opfs_desk_steps::{DeskParts, ReadyCall};
use opfs_hist::{Op, Pending, Reply};
use opfs_outside::Disk;
use opfs_state::State;
use opfs_store::{Acted, Gift};
use opfs_work::Work;
use std::alloc::{AllocError, Global};

/// What a next answers and gives, with the reply in memory twice: for its entry and for its caller.
#[derive(Drop)]
pub(crate) struct NextChild {
    pub reply: Reply,
    pub told: Reply,
    pub gift: Gift,
}

// A child that is given.
fn given_child(
    alloc: Global,
    dir: &Locator,
    name: Name,
    kind: Kind,
) -> Result<NextChild, AllocError>
    ensures reply { IfOk result (λ next. next.reply ≡ found_reply (Some (name, kind))) }
    ensures told { IfOk result (λ next. next.told ≡ found_reply (Some (name, kind))) }
    ensures gift { IfOk result (λ next. next.gift ≡ found_gift dir.now (Some (name, kind))) }
{
    let at = child_of(alloc, dir, &name, kind)?;
    let reply = Reply::Child(kind, name.copy(alloc)?);
    let told = Reply::Child(kind, name.copy(alloc)?);
    let gift = Gift::Child(at, name);
    Ok(NextChild { reply, told, gift })
}

// The least child above a name up to which all was given.
fn child_above(
    alloc: Global,
    state: &State,
    dir: &Locator,
    past: &[Name],
    last: &Name,
) -> Result<Option<(Name, Kind)>, AllocError>
    requires clean { state.now.store.prepared.place ≡ None }
    requires given { AreGivenUpTo past.now last.now (names_in state.now.store.tree (place_of dir.now)) }
    ensures { IfOk result (λ child. child ≡ least_not_in past.now (children_of (place_of dir.now) state.now.store.tree)) }
{
    let child = state.least_above(alloc, &dir.key, &dir.path, last)?;
    Ok(child)
}

// The least child that was not given. Where it is known up to which name all was given, one look-up finds it.
fn child_in(
    alloc: Global,
    state: &State,
    dir: &Locator,
    past: &[Name],
    last: Option<&Name>,
) -> Result<Option<(Name, Kind)>, AllocError>
    requires clean { state.now.store.prepared.place ≡ None }
    requires given { IfSome (option_copied last) (λ name. AreGivenUpTo past.now name (names_in state.now.store.tree (place_of dir.now))) }
    ensures { IfOk result (λ child. child ≡ least_not_in past.now (children_of (place_of dir.now) state.now.store.tree)) }
{
    match last {
        Some(last) => Ok(child_above(alloc, state, dir, past, last)?),
        None => Ok(state.least_not_in(alloc, &dir.key, &dir.path, past)?),
    }
}

// The next child of a directory.
fn next_in(
    alloc: Global,
    state: &State,
    dir: &Locator,
    past: &[Name],
    last: Option<&Name>,
) -> Result<NextChild, AllocError>
    requires clean { state.now.store.prepared.place ≡ None }
    requires given { IfSome (option_copied last) (λ name. AreGivenUpTo past.now name (names_in state.now.store.tree (place_of dir.now))) }
    ensures reply { IfOk result (λ next. next.reply ≡ found_reply (least_not_in past.now (children_of (place_of dir.now) state.now.store.tree))) }
    ensures told { IfOk result (λ next. next.told ≡ found_reply (least_not_in past.now (children_of (place_of dir.now) state.now.store.tree))) }
    ensures gift { IfOk result (λ next. next.gift ≡ found_gift dir.now (least_not_in past.now (children_of (place_of dir.now) state.now.store.tree))) }
{
    match child_in(alloc, state, dir, past, last)? {
        Some((name, kind)) => given_child(alloc, dir, name, kind),
        None => Ok(NextChild {
            reply: Reply::Last,
            told: Reply::Last,
            gift: Gift::Nothing,
        }),
    }
}

// The next child of a call's directory.
fn next_child(
    alloc: Global,
    state: &State,
    op: &Op,
    past: &[Name],
    last: Option<&Name>,
) -> Result<NextChild, AllocError>
    requires word { is_next op.now ≡ true }
    requires clean { state.now.store.prepared.place ≡ None }
    requires given { IsUpTo (names_in state.now.store.tree) op.now past.now (option_copied last) }
    ensures reply { IfOk result (λ next. next.reply ≡ found_reply (next_least state.now.store.tree op.now past.now)) }
    ensures told { IfOk result (λ next. next.told ≡ found_reply (next_least state.now.store.tree op.now past.now)) }
    ensures gift { IfOk result (λ next. next.gift ≡ next_gift state.now.store.tree op.now past.now) }
{
    match op {
        Op::Next { dir, .. } => next_in(alloc, state, dir, past, last),
        _ => unreachable!(),
    }
}

/// Acts a next: the least child of the iterator's directory whose name is not among those that it has given. Where it is known up to
/// which name it has given all, one look-up finds it. Calls no disk. Where there is no memory nothing is entered.
pub fn act_next<D: Disk>(
    parts: &mut DeskParts<D>,
    call: ReadyCall,
    pending: &mut Pending,
    work: &mut Work,
    past: &[Name],
    last: Option<&Name>,
) -> Result<Acted, AllocError>
    requires go { MayGo D.Disk parts.old call pending.old work.old past.now }
    requires given { MayGoFrom D.Disk parts.old call pending.old work.old past.now (option_copied last) }
    requires word { is_next call.op ≡ true }
    ensures acted { IfOk result (λ acted. (f : Fixed D) (recorded : Built) → AreHeldWhole D.Disk f recorded parts.old.ledger parts.old.pages
        → IsAsked D.tells f.opening parts.old.ledger.books.history pending.old parts.old.ledger.books.state call work.old past.now
        → HasActed D.Disk f parts.old parts.new pending.old (call_in call) work.old work.new acted) }
    ensures taken { OnOk result (pending.new ≡ []) }
    ensures unacted { OnErr result ((pending.new ≡ pending.old) × IsSameCopy work.old work.new) }
    ensures idle { OnErr result ((f : Fixed D) (recorded : Built) → AreHeldWhole D.Disk f recorded parts.old.ledger parts.old.pages → IsUnacted D.Disk f parts.old parts.new) }
{
    telling_laws::<D>();
    parts.ledger.books.state.know_rows_match_tree();
    let Ok(next) = next_child(
        parts.ledger.alloc,
        &parts.ledger.books.state,
        &call.op,
        past,
        last,
    ) else {
        drop(call);
        return Err(AllocError);
    };
    let NextChild { reply, told, gift } = next;
    let rows = tell(parts, call, pending, told);
    Ok(Acted { reply, gift, rows })
}
