//! A key-value file.

ghost use Rattle.std.specs.Prelude.{◌≡◌, ◌≢◌, ◌+◌, ◌++◌, ◌*◌, ◌<◌, ◌≤◌, [], true, false, length, map, nat_lt, IfErr, IfOk, OnErr, OnOk, Ok, Err, None, Some, is_some};
ghost use Rattle.std.specs.Map.{keys_of};
ghost use Rattle.opfs_turns.specs.Asking.Rows.{HasHandle};
ghost use Rattle.opfs_hist.specs.declared.op.Mode.TheVariants as mode;
ghost use Rattle.opfs_kv.specs.Records.Maps.{found, keys_between, keys_from, keys_with, with_key, without_key};
ghost use Rattle.opfs_kv.specs.Records.Records.{IsKey, IsValue, after_all, log_of, put_of, spelled_by};
ghost use Rattle.opfs_sync_files.specs.Entries.{GoesOn, IsCaused};
ghost use Rattle.opfs_sync_files.specs.Files.{file_bytes};
ghost use Rattle.opfs_sync_files.specs.Resting.{LeavesRest};
ghost use Rattle.opfs_turns.specs.Calls.{HasRoom};
ghost use Rattle.opfs_kv.specs.Asked.{IsAppend, IsClose, IsCutOr, IsFlush, IsGet, IsRepack, IsTidyFlush};
ghost use Rattle.opfs_kv.specs.Calls.{HasCause, HasOpenCause, HasPlainCause, IsGotten};
ghost use Rattle.opfs_kv.specs.Keeping.{Spells};
ghost use Rattle.opfs_kv.specs.Opening.{OnlyReads};
ghost use Rattle.opfs_kv.specs.Seen.{Closes, Flushes, HasPlaces, IsTidiedNow, Serves, Stands, dead_in, live_bytes, map_in, seen};
ghost use Rattle.opfs_kv.specs.declared.stop.KvStop.TheVariants as kv_stop;
ghost use Rattle.opfs_kv.specs.declared.tidying.Tidying.TheVariants as when;

use crate::notes::Notes;
use crate::opening::read_notes;
use crate::records::Batch;
use crate::stop::KvStop;
use crate::tidying::Tidying;
use crate::{applying, changing, compacting, getting, listing, storing, tidy_flush};
use opfs_agent::Agent;
use opfs_agent::handle_calls::{ClosedSync, SyncHandle};
use opfs_base::Bytes;
use opfs_hall::Hall;
use opfs_store::Store;
use opfs_turns::Stop;
use std::alloc::AllocError;
use std::marker::Model;
use std::sync::Wait;

/// A map from keys to values in one file. It has to be spent, by a close or by giving its handle back: it cannot be dropped.
pub struct Kv {
    handle: SyncHandle,
    notes: Notes,
}

impl Model for Kv {
    ghost use Rattle.opfs_kv.specs.Seen.{KvSeen, seen};

    ghost Value = { KvSeen };

    ghost view = { λ kv. seen kv.handle kv.notes };
}

impl Kv {
    /// Opens a file of records through an access handle that may write. It reads the file in pieces, and keeps the places of
    /// the values alone. Where it does not open, the handle comes back. It never
    /// compacts by itself.
    pub fn open<S: Store, R: Wait>(
        rt: &R,
        court: &Hall<S>,
        agent: &mut Agent<S>,
        sync: SyncHandle,
    ) -> Result<Kv, (SyncHandle, KvStop)>
        requires own { agent.old.pass.hall ≡ court.now }
        requires few { HasPlaces agent.old }
        requires handle { HasHandle S.tells agent.old sync }
        requires writes { sync.mode ≡ mode.ReadWrite }
        ensures stands { IfOk result (λ kv. Stands S.tells agent.new kv) }
        ensures reads { IfOk result (λ kv. OnlyReads S.tells agent.old agent.new sync kv.handle 261) }
        ensures others { LeavesRest S.tells agent.old agent.new sync.row }
        ensures map { IfOk result (λ kv. S.tells → Spells (file_bytes agent.old sync) (map_in agent.new kv)) }
        ensures short { OnOk result (length (file_bytes agent.old sync) ≤ 16777216) }
        ensures whole { IfOk result (λ kv. (kv.live ≡ length (file_bytes agent.old sync)) × (kv.tail ≡ false)) }
        ensures setting { IfOk result (λ kv. kv.tidying ≡ when.Never) }
        ensures back { IfErr result (λ back. OnlyReads S.tells agent.old agent.new sync back.0 261) }
        ensures cause { IfErr result (λ back. HasOpenCause S.tells agent.old agent.new sync.row (file_bytes agent.old sync) back.1) }
    {
        Kv::open_with(rt, court, agent, sync, Tidying::Never)
    }

    /// The same, with when it compacts by itself.
    pub fn open_with<S: Store, R: Wait>(
        rt: &R,
        court: &Hall<S>,
        agent: &mut Agent<S>,
        mut sync: SyncHandle,
        tidying: Tidying,
    ) -> Result<Kv, (SyncHandle, KvStop)>
        requires own { agent.old.pass.hall ≡ court.now }
        requires few { HasPlaces agent.old }
        requires handle { HasHandle S.tells agent.old sync }
        requires writes { sync.mode ≡ mode.ReadWrite }
        ensures stands { IfOk result (λ kv. Stands S.tells agent.new kv) }
        ensures reads { IfOk result (λ kv. OnlyReads S.tells agent.old agent.new sync kv.handle 261) }
        ensures others { LeavesRest S.tells agent.old agent.new sync.row }
        ensures map { IfOk result (λ kv. S.tells → Spells (file_bytes agent.old sync) (map_in agent.new kv)) }
        ensures short { OnOk result (length (file_bytes agent.old sync) ≤ 16777216) }
        ensures whole { IfOk result (λ kv. (kv.live ≡ length (file_bytes agent.old sync)) × (kv.tail ≡ false)) }
        ensures setting { IfOk result (λ kv. kv.tidying ≡ tidying) }
        ensures back { IfErr result (λ back. OnlyReads S.tells agent.old agent.new sync back.0 261) }
        ensures cause { IfErr result (λ back. HasOpenCause S.tells agent.old agent.new sync.row (file_bytes agent.old sync) back.1) }
    {
        match read_notes(rt, court, agent, &mut sync, tidying) {
            Ok(notes) => Ok(Kv {
                handle: sync,
                notes,
            }),
            Err(stop) => Err((sync, stop)),
        }
    }

    /// The value of a key. A key that is not there asks nothing of the agent; of one that is, the value is read alone.
    pub fn get<S: Store, R: Wait>(
        &mut self,
        rt: &R,
        court: &Hall<S>,
        agent: &mut Agent<S>,
        key: &Bytes,
    ) -> Result<Option<Bytes>, KvStop>
        requires own { agent.old.pass.hall ≡ court.now }
        requires few { HasPlaces agent.old }
        requires stands { Stands S.tells agent.old self.old }
        ensures serves { Serves S.tells agent.old agent.new self.old self.new 1 (map_in agent.old self.old) }
        ensures others { LeavesRest S.tells agent.old agent.new self.old.handle.row }
        ensures value { IfOk result (λ value. S.tells → value ≡ found (map_in agent.old self.old) key.now) }
        ensures once { IsGotten S.tells agent.old agent.new self.old.handle.row (found self.old.index key.now) result }
        ensures cause { IfErr result (HasPlainCause agent.old agent.new (IsGet self.old.handle.row (found self.old.index key.now))) }
    {
        getting::get(rt, court, agent, &mut self.handle, &self.notes, key)
    }

    /// Gives a key a value.
    pub fn put<S: Store, R: Wait>(
        &mut self,
        rt: &R,
        court: &Hall<S>,
        agent: &mut Agent<S>,
        key: &Bytes,
        value: &Bytes,
    ) -> Result<(), KvStop>
        requires own { agent.old.pass.hall ≡ court.now }
        requires few { HasPlaces agent.old }
        requires stands { Stands S.tells agent.old self.old }
        requires key { IsKey key.now }
        requires value { IsValue value.now }
        ensures put { OnOk result (Serves S.tells agent.old agent.new self.old self.new 2 (with_key (map_in agent.old self.old) key.now value.now)) }
        ensures live { OnOk result (self.new.live ≡ self.old.live + (6 + length key.now + length value.now)) }
        ensures left { OnErr result (Serves S.tells agent.old agent.new self.old self.new 2 (map_in agent.old self.old)) }
        ensures others { LeavesRest S.tells agent.old agent.new self.old.handle.row }
        ensures full { 16777216 < self.old.live + (6 + length key.now + length value.now) → result ≡ Err (kv_stop.Full self.old.live (6 + length key.now + length value.now)) }
        ensures cause { IfErr result (HasCause agent.old agent.new (IsCutOr self.old (IsAppend self.old (spelled_by key.now (Some value.now)))) self.old.live (6 + length key.now + length value.now)) }
    {
        changing::put(
            rt,
            court,
            agent,
            &mut self.handle,
            &mut self.notes,
            key,
            value,
        )
    }

    /// Takes out a key, and tells whether it was there. Where it was not, nothing is written.
    pub fn delete<S: Store, R: Wait>(
        &mut self,
        rt: &R,
        court: &Hall<S>,
        agent: &mut Agent<S>,
        key: &Bytes,
    ) -> Result<bool, KvStop>
        requires own { agent.old.pass.hall ≡ court.now }
        requires few { HasPlaces agent.old }
        requires stands { Stands S.tells agent.old self.old }
        requires key { IsKey key.now }
        ensures was { IfOk result (λ was. was ≡ is_some (found (map_in agent.old self.old) key.now)) }
        ensures gone { OnOk result (Serves S.tells agent.old agent.new self.old self.new 2 (without_key (map_in agent.old self.old) key.now)) }
        ensures live { OnOk result (found self.old.index key.now ≢ None → self.new.live ≡ self.old.live + (2 + length key.now)) }
        ensures left { OnErr result (Serves S.tells agent.old agent.new self.old self.new 2 (map_in agent.old self.old)) }
        ensures others { LeavesRest S.tells agent.old agent.new self.old.handle.row }
        ensures none { found self.old.index key.now ≡ None → (result ≡ Ok false) × (agent.new ≡ agent.old) }
        ensures full { found self.old.index key.now ≢ None → 16777216 < self.old.live + (2 + length key.now) → result ≡ Err (kv_stop.Full self.old.live (2 + length key.now)) }
        ensures cause { IfErr result (HasCause agent.old agent.new (IsCutOr self.old (IsAppend self.old (spelled_by key.now None))) self.old.live (2 + length key.now)) }
    {
        changing::delete(rt, court, agent, &mut self.handle, &mut self.notes, key)
    }

    /// Makes several changes as one, in their order: all of them, or none. Their records are written in one write, and are stored as a
    /// whole by the next flush.
    pub fn apply<S: Store, R: Wait>(
        &mut self,
        rt: &R,
        court: &Hall<S>,
        agent: &mut Agent<S>,
        batch: &Batch,
    ) -> Result<(), KvStop>
        requires own { agent.old.pass.hall ≡ court.now }
        requires few { HasPlaces agent.old }
        requires stands { Stands S.tells agent.old self.old }
        ensures applied { OnOk result (Serves S.tells agent.old agent.new self.old self.new 2 (after_all (map_in agent.old self.old) batch.now)) }
        ensures live { OnOk result (self.new.live ≡ self.old.live + length (log_of batch.now)) }
        ensures written { OnOk result (live_bytes agent.new self.new ≡ live_bytes agent.old self.old ++ log_of batch.now) }
        ensures once { self.old.tail ≡ false → GoesOn agent.old agent.new 1 }
        ensures none { batch.now ≡ [] → (result ≡ Ok tt) × (agent.new ≡ agent.old) }
        ensures left { OnErr result (Serves S.tells agent.old agent.new self.old self.new 2 (map_in agent.old self.old)) }
        ensures others { LeavesRest S.tells agent.old agent.new self.old.handle.row }
        ensures full { 16777216 < self.old.live + length (log_of batch.now) → result ≡ Err (kv_stop.Full self.old.live (length (log_of batch.now))) }
        ensures cause { IfErr result (HasCause agent.old agent.new (IsCutOr self.old (IsAppend self.old (log_of batch.now))) self.old.live (length (log_of batch.now))) }
    {
        applying::apply(rt, court, agent, &mut self.handle, &mut self.notes, batch)
    }

    /// Stores the file for good: its content is then records that stand for the map. Where the file was opened so, and more than half of
    /// its live bytes are dead, it compacts before.
    pub fn flush<S: Store, R: Wait>(
        &mut self,
        rt: &R,
        court: &Hall<S>,
        agent: &mut Agent<S>,
    ) -> Result<(), KvStop>
        requires own { agent.old.pass.hall ≡ court.now }
        requires few { HasPlaces agent.old }
        requires stands { Stands S.tells agent.old self.old }
        ensures flushed { OnOk result (Flushes S.tells agent.old agent.new self.old self.new 6 (map_in agent.old self.old)) }
        ensures packed { OnOk result (IsTidiedNow self.old → S.tells → file_bytes agent.new self.new.handle ≡ log_of (map put_of (map_in agent.old self.old))) }
        ensures plain { (IsTidiedNow self.old → ⊥) → GoesOn agent.old agent.new 2 }
        ensures left { OnErr result (Serves S.tells agent.old agent.new self.old self.new 6 (map_in agent.old self.old)) }
        ensures others { LeavesRest S.tells agent.old agent.new self.old.handle.row }
        ensures cause { IfErr result (HasPlainCause agent.old agent.new (IsCutOr self.old (IsTidyFlush S.tells self.old (map_in agent.old self.old)))) }
    {
        tidy_flush::flush(rt, court, agent, &mut self.handle, &mut self.notes)
    }

    /// Stores the file for good, and does not compact it.
    pub(crate) fn store<S: Store, R: Wait>(
        &mut self,
        rt: &R,
        court: &Hall<S>,
        agent: &mut Agent<S>,
    ) -> Result<(), KvStop>
        requires own { agent.old.pass.hall ≡ court.now }
        requires few { HasPlaces agent.old }
        requires stands { Stands S.tells agent.old self.old }
        ensures flushed { OnOk result (Flushes S.tells agent.old agent.new self.old self.new 2 (map_in agent.old self.old)) }
        ensures left { OnErr result (Serves S.tells agent.old agent.new self.old self.new 2 (map_in agent.old self.old)) }
        ensures others { LeavesRest S.tells agent.old agent.new self.old.handle.row }
        ensures cause { IfErr result (HasPlainCause agent.old agent.new (IsCutOr self.old (IsFlush self.old))) }
    {
        storing::flush_file(rt, court, agent, &mut self.handle, &mut self.notes)
    }

    /// Writes the map's records by key at the start of the file, in one write, and cuts what is left behind them.
    pub fn compact<S: Store, R: Wait>(
        &mut self,
        rt: &R,
        court: &Hall<S>,
        agent: &mut Agent<S>,
    ) -> Result<(), KvStop>
        requires own { agent.old.pass.hall ≡ court.now }
        requires few { HasPlaces agent.old }
        requires stands { Stands S.tells agent.old self.old }
        ensures serves { Serves S.tells agent.old agent.new self.old self.new 4 (map_in agent.old self.old) }
        ensures others { LeavesRest S.tells agent.old agent.new self.old.handle.row }
        ensures packed { OnOk result (S.tells → file_bytes agent.new self.new.handle ≡ log_of (map put_of (map_in agent.old self.old))) }
        ensures whole { OnOk result (self.new.tail ≡ false) }
        ensures cause { IfErr result (HasPlainCause agent.old agent.new (IsCutOr self.old (IsRepack S.tells self.old (map_in agent.old self.old)))) }
    {
        compacting::compact_file(rt, court, agent, &mut self.handle, &mut self.notes)
    }

    /// How many keys there are.
    pub fn len<S: Store>(&self, agent: &Agent<S>) -> usize
        ensures { result ≡ length (map_in agent.now self.now) }
    {
        let _ = agent;
        self.notes.index.len()
    }

    /// Whether a key is there. Asks nothing of the agent.
    pub fn contains<S: Store>(&self, agent: &Agent<S>, key: &Bytes) -> bool
        ensures { result ≡ is_some (found (map_in agent.now self.now) key.now) }
    {
        listing::contains(agent, &self.handle, &self.notes, key)
    }

    /// The keys from one on, in order; all of them from no bytes on. Takes memory for these keys alone.
    pub fn keys_from<S: Store>(
        &self,
        agent: &Agent<S>,
        from: &Bytes,
    ) -> Result<Vec<Bytes>, AllocError>
        ensures { IfOk result (λ keys. keys.items ≡ keys_from from.now (keys_of (map_in agent.now self.now))) }
    {
        listing::keys_from(agent, &self.handle, &self.notes, from)
    }

    /// The keys from one on and below another, in order.
    pub fn keys_between<S: Store>(
        &self,
        agent: &Agent<S>,
        from: &Bytes,
        to: &Bytes,
    ) -> Result<Vec<Bytes>, AllocError>
        ensures { IfOk result (λ keys. keys.items ≡ keys_between from.now to.now (keys_of (map_in agent.now self.now))) }
    {
        listing::keys_between(agent, &self.handle, &self.notes, from, to)
    }

    /// The keys that begin with bytes, in order.
    pub fn keys_with<S: Store>(
        &self,
        agent: &Agent<S>,
        front: &Bytes,
    ) -> Result<Vec<Bytes>, AllocError>
        ensures { IfOk result (λ keys. keys.items ≡ keys_with front.now (keys_of (map_in agent.now self.now))) }
    {
        listing::keys_with(agent, &self.handle, &self.notes, front)
    }

    /// How many of the live bytes are dead: those that a compact gives back.
    pub fn dead<S: Store>(&self, agent: &Agent<S>) -> u64
        requires { Stands S.tells agent.now self.now }
        ensures { result ≡ dead_in self.now }
    {
        listing::dead(agent, &self.handle, &self.notes)
    }

    /// Compacts where more than half of the live bytes are dead, and tells whether it did.
    pub fn tidy<S: Store, R: Wait>(
        &mut self,
        rt: &R,
        court: &Hall<S>,
        agent: &mut Agent<S>,
    ) -> Result<bool, KvStop>
        requires own { agent.old.pass.hall ≡ court.now }
        requires few { HasPlaces agent.old }
        requires stands { Stands S.tells agent.old self.old }
        ensures serves { Serves S.tells agent.old agent.new self.old self.new 4 (map_in agent.old self.old) }
        ensures others { LeavesRest S.tells agent.old agent.new self.old.handle.row }
        ensures wasted { IfOk result (λ did. did ≡ nat_lt self.old.live (2 * dead_in self.old)) }
        ensures none { IfOk result (λ did. did ≡ false → (agent.new ≡ agent.old) × (self.new ≡ self.old)) }
        ensures packed { IfOk result (λ did. did ≡ true → S.tells → file_bytes agent.new self.new.handle ≡ log_of (map put_of (map_in agent.old self.old))) }
        ensures cause { IfErr result (HasPlainCause agent.old agent.new (IsCutOr self.old (IsRepack S.tells self.old (map_in agent.old self.old)))) }
    {
        compacting::tidy(rt, court, agent, &mut self.handle, &mut self.notes)
    }

    /// Closes the file, which is stored for good. Where that is refused it comes back open.
    pub fn close<S: Store, R: Wait>(
        self,
        rt: &R,
        court: &Hall<S>,
        agent: &mut Agent<S>,
    ) -> Result<ClosedSync, (Kv, Stop)>
        requires own { agent.old.pass.hall ≡ court.now }
        requires few { HasPlaces agent.old }
        requires stands { Stands S.tells agent.old self }
        ensures closed { IfOk result (λ closed. Closes S.tells agent.old agent.new self (closed.row) 2 (map_in agent.old self)) }
        ensures back { IfErr result (λ back. Serves S.tells agent.old agent.new self back.0 2 (map_in agent.old self)) }
        ensures others { LeavesRest S.tells agent.old agent.new self.handle.row }
        ensures cause { IfErr result (λ back. IsCaused agent.old agent.new (IsCutOr self (IsClose self)) back.1) }
    {
        let Kv { handle, notes } = self;
        cut_and_end(rt, court, agent, handle, notes)
    }

    /// The access handle, open as it is. Takes no memory, and adds no entry.
    pub fn give_back(self) -> SyncHandle
        ensures { result ≡ self.handle }
    {
        let Kv { handle, notes: _ } = self;
        handle
    }
}

// Closes a file without a tail.
fn end<S: Store, R: Wait>(
    rt: &R,
    court: &Hall<S>,
    agent: &mut Agent<S>,
    handle: SyncHandle,
    notes: Notes,
) -> Result<ClosedSync, (Kv, Stop)>
    requires own { agent.old.pass.hall ≡ court.now }
    requires room { HasRoom agent.old }
    requires stands { Stands S.tells agent.old (seen handle notes) }
    requires none { notes.tail ≡ false }
    ensures closed { IfOk result (λ closed. Closes S.tells agent.old agent.new (seen handle notes) (closed.row) 1 (map_in agent.old (seen handle notes))) }
    ensures back { IfErr result (λ back. Serves S.tells agent.old agent.new (seen handle notes) back.0 1 (map_in agent.old (seen handle notes))) }
    ensures cause { IfErr result (λ back. IsCaused agent.old agent.new (IsClose (seen handle notes)) back.1) }
{
    match opfs_sync_files::close(rt, court, agent, handle) {
        Ok(closed) => Ok(closed),
        Err((handle, stop)) => Err((Kv { handle, notes }, stop)),
    }
}

// Cuts a pending tail, and closes the file.
fn cut_and_end<S: Store, R: Wait>(
    rt: &R,
    court: &Hall<S>,
    agent: &mut Agent<S>,
    mut handle: SyncHandle,
    mut notes: Notes,
) -> Result<ClosedSync, (Kv, Stop)>
    requires own { agent.old.pass.hall ≡ court.now }
    requires few { HasPlaces agent.old }
    requires stands { Stands S.tells agent.old (seen handle notes) }
    ensures closed { IfOk result (λ closed. Closes S.tells agent.old agent.new (seen handle notes) (closed.row) 2 (map_in agent.old (seen handle notes))) }
    ensures back { IfErr result (λ back. Serves S.tells agent.old agent.new (seen handle notes) back.0 2 (map_in agent.old (seen handle notes))) }
    ensures cause { IfErr result (λ back. IsCaused agent.old agent.new (IsCutOr (seen handle notes) (IsClose (seen handle notes))) back.1) }
{
    match storing::cut(rt, court, agent, &mut handle, &mut notes) {
        Ok(()) => end(rt, court, agent, handle, notes),
        Err(stop) => Err((Kv { handle, notes }, stop)),
    }
}
