//! What each call answers where it is not refused.
#![tactic(auto, unfolding(opfs_machine::specs::Machine::machine))]

ghost use Rattle.std.specs.Prelude.{◌≡◌, ◌*◌, ◌<◌, ◌≤◌, length, drop, find, not, true, Some, IfOk, IfSome, IsTrue};
ghost use Rattle.std.specs.List.{filter_map, list_any};
ghost use Rattle.std.specs.BTreeSet.{contains};
ghost use Rattle.std.specs.Cmp.Lexicographic.{slice_cmp};
ghost use Rattle.std.specs.Ordering.{nat_cmp};
ghost use Rattle.std.specs.Option.{option_copied};
ghost use Rattle.opfs_base.specs.Places.{place_of, child_name, resolved};
ghost use Rattle.opfs_base.specs.Texts.{same_text};
ghost use Rattle.opfs_base.specs.Units.{unit_of};
ghost use Rattle.opfs_machine.specs.Agents.{agent_of, own_of, open_handle};
ghost use Rattle.opfs_machine.specs.Contents.{in_bytes, next_of};
ghost use Rattle.opfs_machine.specs.Replies.{answer, sizes_in, given_in, snapshot_in, bytes_at, child_reply, path_reply, file_reply, handle_bytes, origin_in, kind_in};
ghost use Rattle.opfs_machine.specs.Rows.{row_at, children_of, file_at};
ghost use Rattle.opfs_machine.specs.Sums.{is_persistent, usage};
ghost use Rattle.opfs_rulings.specs.Known.{IsAgent};
ghost use Rattle.opfs_splice.specs.Splicing.{window};

use crate::agents::{agent, own_row};
use crate::board::Board;
use crate::bucket_rulings::is_persistent;
use crate::handle_rulings::open_handle;
use crate::rows::{PlacedRow, place_of};
use crate::rulings::file_at;
use crate::sets::names_of;
use opfs_base::{
    Key, Kind, Locator, Name, Path, SharedBytes, Text, child_name, resolve, same, times, unit_of,
};
use opfs_hist::{Op, Reply};
use opfs_machine::{Own, Place, Row, Sizes};
use opfs_splice::window;
use std::alloc::{AllocError, Global};
use std::collections::BTreeSet;

/// The present bytes of the file at a place; none where there is none.
pub fn bytes_at<'a>(state: &'a Board, place: &Place) -> &'a [u8]
    ensures { result.now ≡ bytes_at state.now place.now }
{
    match file_at(state, &place.0, &place.1) {
        None => &[],
        Some(file) => file.present.as_slice(),
    }
}

/// The sizes of the stream or access handle of a number.
pub fn sizes_of(state: &Board, number: u32, row: u32) -> Sizes
    requires { IsAgent state.now number }
    ensures { result ≡ sizes_in state.now (own_of (agent_of state.now number) row) }
{
    match own_row(state, number, row) {
        Some(Own::Stream(stream)) => Sizes {
            size: stream.buffer.len() as u64,
            position: stream.offset,
        },
        Some(Own::Handle(handle)) => Sizes {
            size: bytes_at(state, &handle.file).len() as u64,
            position: handle.cursor,
        },
        _ => Sizes {
            size: 0,
            position: 0,
        },
    }
}

/// Where a name is among some, looked for beside a place and at their ends alone.
fn place_near(given: &[Name], place: usize, name: &Name) -> Option<usize>
    ensures { IfSome result (λ at. list_any (same_text name.now) given.now ≡ true) }
{
    let (behind, before, last) = (
        place.saturating_add(1),
        place.saturating_sub(1),
        given.len().saturating_sub(1),
    );
    if is_at(given, behind, name) {
        return Some(behind);
    }
    if is_at(given, before, name) {
        return Some(before);
    }
    if is_at(given, last, name) {
        return Some(last);
    }
    None
}

/// Whether a name stands at a place among some.
fn is_at(given: &[Name], place: usize, name: &Name) -> bool
    ensures { IsTrue result → list_any (same_text name.now) given.now ≡ true }
{
    place < given.len() && *name == given[place]
}

/// Whether a name is among some.
fn is_given(given: &[Name], name: &Name) -> bool
    ensures { result ≡ list_any (same_text name.now) given.now }
{
    given.iter().any(|other| *name == *other)
}

/// How many rows at the front are no children, or children that were given. Names are mostly given in their order or in the
/// opposite one, so each is looked for beside the one that was found before it, and the first that is not there ends the front.
fn passed(rows: &[PlacedRow], dir: &Place, given: &[Name]) -> usize
    ensures within { result ≤ length rows.now }
    ensures same { next_of given.now (filter_map (λ e. child_name dir.now e.0) rows.now) ≡ next_of given.now (filter_map (λ e. child_name dir.now e.0) (drop result rows.now)) }
{
    let mut place = 0;
    for (at, entry) in rows.iter().enumerate() {
        if let Some(name) = child_name(&dir.0, &dir.1, &entry.0) {
            match place_near(given, place, name) {
                Some(found) => place = found,
                None => return at,
            }
        }
    }
    rows.len()
}

/// The first child whose name a set has not.
fn first_outside<'a>(rows: &'a [PlacedRow], dir: &Place, names: &BTreeSet<Name>) -> Option<&'a Name>
    ensures { option_copied result ≡ find (λ name. not (contains (slice_cmp nat_cmp) names.now name)) (filter_map (λ e. child_name dir.now e.0) rows.now) }
{
    for entry in rows {
        if let Some(name) = child_name(&dir.0, &dir.1, &entry.0) {
            if !names.contains(name) {
                return Some(name);
            }
        }
    }
    None
}

/// The least child of a directory that was not given.
pub fn next_name<'a>(
    alloc: Global,
    rows: &'a [PlacedRow],
    dir: &Place,
    given: &[Name],
) -> Result<Option<&'a Name>, AllocError>
    ensures { IfOk result (λ name. option_copied name ≡ next_of given.now (filter_map (λ e. child_name dir.now e.0) rows.now)) }
{
    let rest = &rows[passed(rows, dir, given)..];
    if let Some(name) = first_name(rest, dir, given) {
        return Ok(Some(name));
    }
    let names = names_of(alloc, given)?;
    Ok(first_outside(rest, dir, &names))
}

/// The child that stands first among rows, where it was not given.
fn first_name<'a>(rows: &'a [PlacedRow], dir: &Place, given: &[Name]) -> Option<&'a Name>
    ensures { IfSome result (λ name. Some name.now ≡ next_of given.now (filter_map (λ e. child_name dir.now e.0) rows.now)) }
{
    let [entry, ..] = rows else {
        return None;
    };
    let Some(name) = child_name(&dir.0, &dir.1, &entry.0) else {
        return None;
    };
    if is_given(given, name) {
        return None;
    }
    Some(name)
}

/// getFile.
fn file_reply(state: &Board, at: &Locator) -> Reply
    ensures { result ≡ file_reply (file_at state.now (place_of at.now)) }
{
    match file_at(state, &at.key, &at.path) {
        None => Reply::FileInfo(0, 0),
        Some(file) => Reply::FileInfo(file.present.len() as u64, file.stamp),
    }
}

/// resolve.
fn path_reply(alloc: Global, dir: &Locator, entry: &Locator) -> Result<Reply, AllocError>
    ensures { IfOk result (λ reply. reply ≡ path_reply (resolved dir.now entry.now)) }
{
    Ok(match resolve(alloc, dir, entry)? {
        None => Reply::NoPath,
        Some(path) => Reply::Names(path),
    })
}

/// slice of a snapshot.
fn slice_reply(
    alloc: Global,
    state: &Board,
    number: u32,
    row: u32,
    at: u64,
    len: u64,
) -> Result<Reply, AllocError>
    requires { IsAgent state.now number }
    ensures { IfOk result (λ reply. reply ≡ Reply.Read (window (snapshot_in (own_of (agent_of state.now number) row)) at len)) }
{
    let bytes: &[u8] = match own_row(state, number, row) {
        Some(Own::Snapshot(bytes)) => bytes.as_slice(),
        _ => &[],
    };
    Ok(Reply::Read(window(alloc, bytes, at, len)?))
}

/// read of an access handle, from a place on.
fn read_reply(
    alloc: Global,
    state: &Board,
    number: u32,
    row: u32,
    start: u64,
    len: u64,
) -> Result<Reply, AllocError>
    requires { IsAgent state.now number }
    ensures { IfOk result (λ reply. reply ≡ Reply.Read (window (handle_bytes state.now (open_handle in_bytes state.now number row)) start len)) }
{
    let bytes: &[u8] = match open_handle(state, number, row) {
        Some(handle) => bytes_at(state, &handle.file),
        None => &[],
    };
    Ok(Reply::Read(window(alloc, bytes, start, len)?))
}

/// The kind of what stands at a place.
fn kind_at(state: &Board, key: &Key, path: &Path) -> Kind
    ensures { result ≡ kind_in (row_at state.now (key.now, path.now)) }
{
    match state.row_at(key, path) {
        Some(Row::Directory) => Kind::Directory,
        _ => Kind::File,
    }
}

/// The names that an iterator has given.
pub fn given_names(state: &Board, number: u32, row: u32) -> &[Name]
    requires { IsAgent state.now number }
    ensures { result.now ≡ given_in (own_of (agent_of state.now number) row) }
{
    match own_row(state, number, row) {
        Some(Own::Iterator(iterator)) => iterator.given.items.as_slice(),
        _ => &[],
    }
}

/// The child of a directory that is given next, or the end.
fn reply_of(
    alloc: Global,
    state: &Board,
    dir: &Locator,
    name: Option<&Name>,
) -> Result<Reply, AllocError>
    ensures { IfOk result (λ reply. reply ≡ child_reply state.now (place_of dir.now) (option_copied name.entry)) }
{
    let Some(name) = name else {
        return Ok(Reply::Last);
    };
    let path = dir.path.child(alloc, name)?;
    let kind = kind_at(state, &dir.key, &path);
    let name = name.copy(alloc)?;
    Ok(Reply::Child(kind, name))
}

/// The name that an iterator over a directory gives next.
pub fn next_given<'a>(
    alloc: Global,
    state: &'a Board,
    number: u32,
    row: u32,
    place: &Place,
) -> Result<Option<&'a Name>, AllocError>
    requires { IsAgent state.now number }
    ensures { IfOk result (λ name. option_copied name ≡ next_of (given_in (own_of (agent_of state.now number) row)) (children_of state.now place.now)) }
{
    if let Some(name) = state.next_followed(number, row, place) {
        return Ok(name);
    }
    let given = given_names(state, number, row);
    let name = next_name(alloc, state.rows_within(place), place, given)?;
    Ok(name)
}

/// next of an iterator over a directory.
fn child_reply(
    alloc: Global,
    state: &Board,
    number: u32,
    row: u32,
    dir: &Locator,
) -> Result<Reply, AllocError>
    requires { IsAgent state.now number }
    ensures { IfOk result (λ reply. reply ≡ child_reply state.now (place_of dir.now)
        (next_of (given_in (own_of (agent_of state.now number) row)) (children_of state.now (place_of dir.now)))) }
{
    let place = place_of(alloc, dir)?;
    let name = next_given(alloc, state, number, row, &place)?;
    reply_of(alloc, state, dir, name)
}

/// The key of an agent's origin; no text for an opaque one.
fn origin_key(alloc: Global, state: &Board, number: u32) -> Result<Key, AllocError>
    requires { IsAgent state.now number }
    ensures { IfOk result (λ key. key ≡ origin_in (agent_of state.now number).key) }
{
    match &agent(state, number).key {
        Some(origin) => origin.copy(alloc),
        None => Key::of_text(alloc, ""),
    }
}

/// Whether an agent's unit of a bucket is persistent.
fn is_bucket_persistent(
    alloc: Global,
    state: &Board,
    number: u32,
    bucket: &Text,
) -> Result<bool, AllocError>
    requires { IsAgent state.now number }
    ensures { IfOk result (λ flag. flag ≡ is_persistent state.now (unit_of (origin_in (agent_of state.now number).key) bucket.now)) }
{
    let origin = origin_key(alloc, state, number)?;
    let unit = unit_of(alloc, &origin, bucket.as_str())?;
    let flag = is_persistent(state, &unit);
    Ok(flag)
}

/// estimate.
fn estimate_reply(state: &Board, number: u32) -> Result<Reply, AllocError>
    requires { IsAgent state.now number }
    ensures { IfOk result (λ reply. reply ≡ Reply.Estimate (4096 * usage in_bytes state.now (origin_in (agent_of state.now number).key)) (4096 * state.now.limits.quota)) }
{
    let origin: &[u8] = match &agent(state, number).key {
        Some(origin) => origin.as_bytes(),
        None => &[],
    };
    let used = times(4096, state.usage(origin)?)?;
    let quota = times(4096, state.held().limits.quota)?;
    Ok(Reply::Estimate(used, quota))
}

/// What a call answers where it is not refused.
pub fn answer(
    alloc: Global,
    state: &Board,
    sizes: Sizes,
    number: u32,
    op: &Op,
) -> Result<Reply, AllocError>
    requires { IsAgent state.now number }
    ensures { IfOk result (λ reply. reply ≡ answer state.now sizes number op.now) }
{
    Ok(match op {
        Op::Next { row, dir } => child_reply(alloc, state, number, *row, dir)?,
        Op::Resolve { dir, entry } => path_reply(alloc, dir, entry)?,
        Op::IsSameEntry { entry, other } => Reply::Flag(same(entry, other)),
        Op::GetFile { file } => file_reply(state, file),
        Op::Slice { row, at, len } => slice_reply(alloc, state, number, *row, *at, *len)?,
        Op::SyncRead { row, len, at } => read_reply(
            alloc,
            state,
            number,
            *row,
            at.unwrap_or(sizes.position),
            *len,
        )?,
        Op::SyncWrite { bytes, .. } => Reply::Length(bytes.len()),
        Op::SyncGetSize { .. } => Reply::Length(sizes.size),
        Op::Persist { bucket } => {
            let persistent = is_bucket_persistent(alloc, state, number, bucket)?;
            Reply::Flag(agent(state, number).grant || persistent)
        }
        Op::Persisted { bucket } => Reply::Flag(is_bucket_persistent(
            alloc, state, number, bucket,
        )?),
        Op::Estimate => estimate_reply(state, number)?,
        _ => Reply::Done,
    })
}
