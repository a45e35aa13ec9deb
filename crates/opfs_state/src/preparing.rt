//! What stands ready for a call, so that it takes no memory.

ghost use Rattle.std.specs.Prelude.{cond, ◌≡◌, ◌-◌, ◌<◌, ◌≤◌, ℕ, suc, List, Option, None, Some, IfOk, IfErr, OnOk, OnErr, IsTrue, is_ok, true, length, option_map};
ghost use Rattle.opfs_base.specs.Places.{Place, place_of, child};
ghost use Rattle.opfs_base.specs.declared.locator.Kind.{Kind};
ghost use Rattle.opfs_base.specs.Names.{is_valid_name};
ghost use Rattle.opfs_state_rows.specs.Changes.Asking.{ends, where_free, free_in, root_in, root_place, bucket_unit, handle_place, IsAccepted};
ghost use Rattle.opfs_machine.specs.Agents.{agent_of, open_handle, party_of};
ghost use Rattle.opfs_machine.specs.declared.state.Row.TheVariants as row;
ghost use Rattle.opfs_machine.specs.Contents.{in_lengths};
ghost use Rattle.opfs_machine.specs.Rows.{row_at};
ghost use Rattle.opfs_state_rows.specs.Standing.Seen.{is_known};
ghost use Rattle.opfs_state.specs.Applied.{IsReady};
ghost use Rattle.opfs_state.specs.Preparing.{HasStayed, IsRowReady, IsModeReady};
ghost use Rattle.opfs_tree.specs.Rows.{HasParent};
ghost use Rattle.opfs_state.specs.Verdicts.Callers.{IsAgent};

use crate::state::Ready;
use opfs_base::{Kind, Locator, Text, copy_place, mode_charge, place_charge};
use opfs_hist::Op;
use opfs_machine::{Place, child_place, root_of};
use opfs_state_rows::Standing;
use std::alloc::{AllocError, Global};

// A row's place, if no row is there, with its unit and what the row adds to the charge.
pub(crate) fn ready_row(store: &mut Standing, place: Place, kind: Kind) -> Result<Ready, AllocError>
    requires clean { store.old.prepared.place ≡ None }
    requires parent { row_at store.old.machine place ≡ None → HasParent place store.old.tree }
    ensures stays { HasStayed store.old store.new }
    ensures ok { IfOk result (λ r. IsRowReady store.new r.target r.growth (where_free (row_at store.old.machine place) (place, kind))) }
    ensures err { IfErr result (λ e. store.new.prepared.place ≡ None) }
{
    store.know_rows_match_tree();
    if store.kind(&place.0, &place.1).is_some() {
        return Ok(Ready::none());
    }
    let growth = place_charge(kind, &place)?;
    store.prepare_unit(&place.0)?;
    store.prepare_row(&place.0, &place.1, kind)?;
    Ok(Ready {
        target: Some(place),
        growth,
    })
}

// The root of a bucket of an agent.
fn ready_root(
    alloc: Global,
    store: &mut Standing,
    agent: u32,
    bucket: &Text,
) -> Result<Ready, AllocError>
    requires agent { IsAgent store.old.machine agent }
    requires clean { store.old.prepared.place ≡ None }
    ensures stays { HasStayed store.old store.new }
    ensures ok { IfOk result (λ r. IsRowReady store.new r.target r.growth (free_in store.old.machine (root_in (bucket_unit store.old.machine agent bucket.now)))) }
    ensures err { IfErr result (λ e. store.new.prepared.place ≡ None) }
{
    let Some(place) = bucket_root(alloc, store, agent, bucket)? else {
        return Ok(Ready::none());
    };
    ready_row(store, place, Kind::Directory)
}

// The root of a bucket of an agent; None for an agent without a key.
fn bucket_root(
    alloc: Global,
    store: &Standing,
    agent: u32,
    bucket: &Text,
) -> Result<Option<Place>, AllocError>
    requires { IsAgent store.now.machine agent }
    ensures { IfOk result (λ place. place ≡ root_place (bucket_unit store.now.machine agent bucket.now)) }
{
    let Some(origin) = store.register().key(agent as usize - 1) else {
        return Ok(None);
    };
    let place = root_of(alloc, origin, bucket)?;
    Ok(Some(place))
}

// A child of a directory that is there.
fn ready_child(
    alloc: Global,
    store: &mut Standing,
    dir: &Locator,
    name: &Text,
    kind: Kind,
) -> Result<Ready, AllocError>
    requires name { IsTrue (is_valid_name name.now) }
    requires dir { row_at store.old.machine (place_of dir.now) ≡ Some row.Directory }
    requires clean { store.old.prepared.place ≡ None }
    ensures stays { HasStayed store.old store.new }
    ensures ok { IfOk result (λ r. IsRowReady store.new r.target r.growth (where_free (row_at store.old.machine (child (place_of dir.now) name.now)) (child (place_of dir.now) name.now, kind))) }
    ensures err { IfErr result (λ e. store.new.prepared.place ≡ None) }
{
    let place = child_place(alloc, dir, name)?;
    store.know_rows_match_tree();
    ready_row(store, place, kind)
}

// The place of what is removed.
fn ready_removed(alloc: Global, dir: &Locator, name: &Text) -> Result<Ready, AllocError>
    requires { IsTrue (is_valid_name name.now) }
    ensures { IfOk result (λ r. r ≡ record { target = Some (child (place_of dir.now) name.now); growth = 0 }) }
{
    let place = child_place(alloc, dir, name)?;
    Ok(Ready {
        target: Some(place),
        growth: 0,
    })
}

// The place of a file that is opened, and room for an own row.
fn ready_open(
    alloc: Global,
    store: &mut Standing,
    agent: u32,
    file: &Locator,
) -> Result<Ready, AllocError>
    requires { IsAgent store.old.machine agent }
    ensures stays { HasStayed store.old store.new }
    ensures place { store.new.prepared.place ≡ store.old.prepared.place }
    ensures ok { IfOk result (λ r. r ≡ record { target = Some (place_of file.now); growth = 0 }) }
    ensures room { OnOk result (store.new.prepared.room ≡ Some (agent - 1)) }
{
    let place = copy_place(alloc, &file.key, &file.path)?;
    store.prepare_own(agent as usize - 1)?;
    Ok(Ready {
        target: Some(place),
        growth: 0,
    })
}

// Room for an own row.
fn ready_own(store: &mut Standing, agent: u32) -> Result<Ready, AllocError>
    requires { IsAgent store.old.machine agent }
    ensures stays { HasStayed store.old store.new }
    ensures place { store.new.prepared.place ≡ store.old.prepared.place }
    ensures ok { IfOk result (λ r. r ≡ record { target = None; growth = 0 }) }
    ensures room { OnOk result (store.new.prepared.room ≡ Some (agent - 1)) }
{
    store.prepare_own(agent as usize - 1)?;
    Ok(Ready::none())
}

// The file of an open access handle.
fn ready_handle(alloc: Global, store: &Standing, agent: u32, row: u32) -> Result<Ready, AllocError>
    requires { IsAgent store.now.machine agent }
    ensures { IfOk result (λ r. r ≡ record { target = handle_place (open_handle in_lengths store.now.machine agent row); growth = 0 }) }
{
    if row == 0 {
        return Ok(Ready::none());
    }
    let Some(handle) = store
        .register()
        .handle(agent as usize - 1, row as usize - 1)
    else {
        return Ok(Ready::none());
    };
    let place = copy_place(alloc, &handle.file.0, &handle.file.1)?;
    Ok(Ready {
        target: Some(place),
        growth: 0,
    })
}

// The root of a bucket that becomes persistent, with its unit and what its mode adds to the charge.
fn ready_mode(
    alloc: Global,
    store: &mut Standing,
    agent: u32,
    bucket: &Text,
) -> Result<Ready, AllocError>
    requires { IsAgent store.old.machine agent }
    ensures stays { HasStayed store.old store.new }
    ensures place { store.new.prepared.place ≡ store.old.prepared.place }
    ensures ok { IfOk result (λ r. IsModeReady store.old.machine store.new r.target r.growth (cond (agent_of store.old.machine agent).grant (root_place (bucket_unit store.old.machine agent bucket.now)) None)) }
{
    if !store.register().has_grant(agent as usize - 1) {
        return Ok(Ready::none());
    }
    let Some(place) = bucket_root(alloc, store, agent, bucket)? else {
        return Ok(Ready::none());
    };
    let growth = if store.is_persistent(&place.0) {
        0
    } else {
        mode_charge(&place.0)?
    };
    store.prepare_unit(&place.0)?;
    Ok(Ready {
        target: Some(place),
        growth,
    })
}

// A tag of an agent's party.
fn ready_tag(
    alloc: Global,
    store: &mut Standing,
    agent: u32,
    tag: &Text,
) -> Result<Ready, AllocError>
    requires { IsAgent store.old.machine agent }
    ensures stays { HasStayed store.old store.new }
    ensures place { store.new.prepared.place ≡ store.old.prepared.place }
    ensures ok { IfOk result (λ r. r ≡ record { target = None; growth = 0 }) }
    ensures tag { OnOk result (store.new.prepared.tag ≡ Some (record { party = party_of store.old.machine agent; tag = tag.now })) }
{
    store.prepare_tag(alloc, agent as usize - 1, tag.as_bytes())?;
    Ok(Ready::none())
}

/// What a call that is accepted asks for, by its word. No place stands ready before.
pub(crate) fn ready_for(
    alloc: Global,
    store: &mut Standing,
    agent: u32,
    op: &Op,
) -> Result<Ready, AllocError>
    requires agent { IsAgent store.old.machine agent }
    requires judged { IsAccepted store.old.machine agent op.now }
    requires clean { store.old.prepared.place ≡ None }
    ensures stays { HasStayed store.old store.new }
    ensures ok { IfOk result (λ r. IsReady store.new r.target r.growth agent op.now) }
    ensures err { IfErr result (λ e. store.new.prepared.place ≡ None) }
    ensures ends { ends op.now ≡ true → IsTrue (is_ok result) }
{
    match op {
        Op::GetDirectory { bucket } => ready_root(alloc, store, agent, bucket),
        Op::GetDirectoryHandle { dir, name, .. } => ready_child(
            alloc,
            store,
            dir,
            name,
            Kind::Directory,
        ),
        Op::GetFileHandle { dir, name, .. } => ready_child(alloc, store, dir, name, Kind::File),
        Op::RemoveEntry { dir, name, .. } => ready_removed(alloc, dir, name),
        Op::GetFile { .. } => ready_own(store, agent),
        Op::CreateWritable { file, .. } => ready_open(alloc, store, agent, file),
        Op::CreateSyncAccessHandle { file, .. } => ready_open(alloc, store, agent, file),
        Op::SyncWrite { row, .. } => ready_handle(alloc, store, agent, *row),
        Op::SyncTruncate { row, .. } => ready_handle(alloc, store, agent, *row),
        Op::SyncFlush { row } => ready_handle(alloc, store, agent, *row),
        Op::Persist { bucket } => ready_mode(alloc, store, agent, bucket),
        Op::Post { tag } => ready_tag(alloc, store, agent, tag),
        Op::Wait { tag } => ready_tag(alloc, store, agent, tag),
        _ => Ok(Ready::none()),
    }
}
