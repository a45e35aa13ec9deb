//! What a run takes note of: a call that was not refused binds, opens or closes what it does.

ghost use Rattle.std.specs.Prelude.{◌≡◌, ◌+◌, [], ◌∷◌, ◌++◌, IfOk, OnOk, OnErr};
ghost use Rattle.opfs_base.specs.Places.{child_of};
ghost use Rattle.opfs_script_run.specs.Runs.Running.{binds, makes_row, opens_row, closes_row, binds_root, handle_named, binds_child, bind_name, hand_after, hand_then};

use crate::runs::hand::{Hand, Named, Open};
use opfs_base::{Kind, Locator, Name, Path, Text, child_of, is_valid_name, unit_of};
use opfs_hist::{Op, Reply};
use opfs_script::Step;
use std::alloc::{AllocError, Global};

/// The variable that a step binds; the empty text where it binds none.
fn bind_name(step: &Step) -> &str
    ensures { result.now ≡ bind_name step.now }
{
    match step {
        Step::GetDirectory { bind, .. }
        | Step::GetDirectoryHandle { bind, .. }
        | Step::GetFileHandle { bind, .. }
        | Step::Values { bind, .. }
        | Step::Next { bind, .. }
        | Step::GetFile { bind, .. }
        | Step::CreateWritable { bind, .. }
        | Step::CreateSyncAccessHandle { bind, .. } => bind.as_str(),
        _ => "",
    }
}

/// The locator of a child. A text that is no valid file name, which no accepted call has, counts as want of memory.
fn named_child(alloc: Global, dir: &Locator, name: &Text, kind: Kind) -> Result<Locator, AllocError>
    ensures { IfOk result (λ at. at ≡ child_of dir.now name.now kind) }
{
    if !is_valid_name(name.as_str()) {
        return Err(AllocError);
    }
    let name = Name::read(alloc, name.as_str())?;
    child_of(alloc, dir, &name, kind)
}

/// What a handle of a kind is bound as.
fn handle_named(kind: Kind, at: Locator) -> Named
    ensures { result ≡ handle_named kind at }
{
    match kind {
        Kind::Directory => Named::Directory(at),
        Kind::File => Named::File(at),
    }
}

/// The number of the next row. A number past 32 bits counts as want of memory.
fn next_row(rows: u32) -> Result<u32, AllocError>
    ensures { IfOk result (λ row. row ≡ rows + 1) }
{
    match rows.checked_add(1) {
        Some(row) => Ok(row),
        None => Err(AllocError),
    }
}

/// Binds a variable anew.
fn bind(alloc: Global, hand: &mut Hand, variable: &str, named: Named) -> Result<(), AllocError>
    ensures ok { OnOk result (hand.new ≡ binds hand.old variable.now named) }
    ensures err { OnErr result (hand.new ≡ hand.old) }
{
    let variable = Text::copy_of(alloc, variable)?;
    hand.bound.bind(variable, named)?;
    Ok(())
}

/// Binds the root of a bucket, where the agent has a key.
fn bind_root(
    alloc: Global,
    hand: &mut Hand,
    variable: &str,
    bucket: &Text,
) -> Result<(), AllocError>
    ensures ok { OnOk result (hand.new ≡ binds_root hand.old variable.now bucket.now hand.old.key) }
    ensures err { OnErr result (hand.new ≡ hand.old) }
{
    let Some(origin) = &hand.key else {
        return Ok(());
    };
    let root = Locator {
        key: unit_of(alloc, origin, bucket.as_str())?,
        path: Path::root(alloc),
        kind: Kind::Directory,
    };
    bind(alloc, hand, variable, Named::Directory(root))
}

/// Binds the handle of a child.
fn bind_handle(
    alloc: Global,
    hand: &mut Hand,
    variable: &str,
    dir: &Locator,
    name: &Text,
    kind: Kind,
) -> Result<(), AllocError>
    ensures ok { OnOk result (hand.new ≡ binds hand.old variable.now (handle_named kind (child_of dir.now name.now kind))) }
    ensures err { OnErr result (hand.new ≡ hand.old) }
{
    let at = named_child(alloc, dir, name, kind)?;
    bind(alloc, hand, variable, handle_named(kind, at))
}

/// Binds the child that an iterator gave, if it gave one.
fn bind_child(
    alloc: Global,
    hand: &mut Hand,
    variable: &str,
    dir: &Locator,
    reply: &Reply,
) -> Result<(), AllocError>
    ensures ok { OnOk result (hand.new ≡ binds_child hand.old variable.now dir.now reply.now) }
    ensures err { OnErr result (hand.new ≡ hand.old) }
{
    let Reply::Child(kind, name) = reply else {
        return Ok(());
    };
    let at = child_of(alloc, dir, name, *kind)?;
    bind(alloc, hand, variable, handle_named(*kind, at))
}

/// Binds an iterator, a new row.
fn make_iterator(
    alloc: Global,
    hand: &mut Hand,
    variable: &str,
    dir: &Locator,
) -> Result<(), AllocError>
    ensures ok { OnOk result (hand.new ≡ makes_row hand.old variable.now (λ row. Named.Iterator row dir.now)) }
    ensures err { OnErr result (hand.new ≡ hand.old) }
{
    let row = next_row(hand.rows)?;
    let dir = dir.copy(alloc)?;
    bind(alloc, hand, variable, Named::Iterator(row, dir))?;
    hand.rows = row;
    Ok(())
}

/// Binds a snapshot, a new row.
fn make_snapshot(alloc: Global, hand: &mut Hand, variable: &str) -> Result<(), AllocError>
    ensures ok { OnOk result (hand.new ≡ makes_row hand.old variable.now Named.Snapshot) }
    ensures err { OnErr result (hand.new ≡ hand.old) }
{
    let row = next_row(hand.rows)?;
    bind(alloc, hand, variable, Named::Snapshot(row))?;
    hand.rows = row;
    Ok(())
}

/// Binds a row that opens, which is the last of those that are open.
fn bind_opened(
    alloc: Global,
    hand: &mut Hand,
    variable: &str,
    named: Named,
    row: Open,
) -> Result<(), AllocError>
    ensures ok { OnOk result (hand.new ≡ record (binds hand.old variable.now named) { opened = hand.old.opened ++ row ∷ [] }) }
    ensures err { OnErr result (hand.new ≡ hand.old) }
{
    let count = hand.opened.len();
    hand.opened.add(row)?;
    if bind(alloc, hand, variable, named).is_err() {
        hand.opened.truncate(count);
        return Err(AllocError);
    }
    Ok(())
}

/// Binds a stream, a new row that is open.
fn open_stream(alloc: Global, hand: &mut Hand, variable: &str) -> Result<(), AllocError>
    ensures ok { OnOk result (hand.new ≡ opens_row hand.old variable.now Named.Stream Open.Stream) }
    ensures err { OnErr result (hand.new ≡ hand.old) }
{
    let row = next_row(hand.rows)?;
    bind_opened(alloc, hand, variable, Named::Stream(row), Open::Stream(row))?;
    hand.rows = row;
    Ok(())
}

/// Binds an access handle, a new row that is open.
fn open_handle(alloc: Global, hand: &mut Hand, variable: &str) -> Result<(), AllocError>
    ensures ok { OnOk result (hand.new ≡ opens_row hand.old variable.now Named.Handle Open.Handle) }
    ensures err { OnErr result (hand.new ≡ hand.old) }
{
    let row = next_row(hand.rows)?;
    bind_opened(alloc, hand, variable, Named::Handle(row), Open::Handle(row))?;
    hand.rows = row;
    Ok(())
}

/// Takes note of a call that was not refused.
fn note(
    alloc: Global,
    hand: &mut Hand,
    variable: &str,
    op: &Op,
    reply: &Reply,
) -> Result<(), AllocError>
    ensures ok { OnOk result (hand.new ≡ hand_after hand.old variable.now op.now reply.now) }
    ensures err { OnErr result (hand.new ≡ hand.old) }
{
    match op {
        Op::GetDirectory { bucket } => bind_root(alloc, hand, variable, bucket),
        Op::GetDirectoryHandle { dir, name, .. } => {
            bind_handle(alloc, hand, variable, dir, name, Kind::Directory)
        }
        Op::GetFileHandle { dir, name, .. } => {
            bind_handle(alloc, hand, variable, dir, name, Kind::File)
        }
        Op::Values { dir } => make_iterator(alloc, hand, variable, dir),
        Op::Next { dir, .. } => bind_child(alloc, hand, variable, dir, reply),
        Op::GetFile { .. } => make_snapshot(alloc, hand, variable),
        Op::CreateWritable { .. } => open_stream(alloc, hand, variable),
        Op::CreateSyncAccessHandle { .. } => open_handle(alloc, hand, variable),
        Op::Close { row } | Op::Abort { row } | Op::SyncClose { row } => {
            hand.opened.close(*row);
            Ok(())
        }
        _ => Ok(()),
    }
}

impl Hand {
    /// Takes note of what a step asked and was answered: a call that was not refused binds, opens or closes what it
    /// does. On want of memory the hand is as it was. What the machine never answers, an accepted call on what is no
    /// valid file name, is answered as want of memory.
    pub fn then(
        &mut self,
        alloc: Global,
        step: &Step,
        op: &Op,
        reply: &Reply,
    ) -> Result<(), AllocError>
        ensures then { OnOk result (self.new ≡ hand_then self.old step.now op.now reply.now) }
        ensures err { OnErr result (self.new ≡ self.old) }
    {
        if let Reply::No(_) = reply {
            return Ok(());
        }
        note(alloc, self, bind_name(step), op, reply)
    }
}
