//! A notebook: a key-value file of an agent.

ghost use Rattle.std.specs.Prelude.{◌≡◌, ◌↔◌, ◌++◌, ◌∷◌, [], true, false, IfErr, IfOk, IsTrue, None, OnErr, OnOk, Some};
ghost use Rattle.opfs_kv.specs.Records.Maps.{found};
ghost use Rattle.opfs_kv.specs.Records.Records.{IsKey, IsValue, after_all};
ghost use Rattle.opfs_kv.specs.Seen.{map_in};
ghost use Rattle.opfs_kv.specs.declared.tidying.Tidying.TheVariants as when;
ghost use Rattle.opfs_notebook.specs.Ready.{Goes, HasMade, Holds, HoldsNotes, IsReady};

use crate::files::{discard, new_file, open_file};
use opfs_agent::Agent;
use opfs_agent::handle_calls::SyncHandle;
use opfs_base::Bytes;
use opfs_hall::Hall;
use opfs_kv::{Batch, Kv, KvStop, Tidying};
use opfs_store::Store;
use opfs_turns::Stop;
use std::alloc::{AllocError, Global};
use std::sync::Wait;

// Whether a name is as long as that of a note may be.
fn is_name(name: &Bytes) -> bool
    ensures { IsTrue result ↔ IsKey name.now }
{
    !name.is_empty() && name.len() <= 255
}

// Whether a text is.
fn is_text(text: &Bytes) -> bool
    ensures { IsTrue result ↔ IsValue text.now }
{
    text.len() <= 65_536
}

/// Adds a note to a batch, and tells whether its name and its text are as long as they may be.
pub fn add(alloc: Global, batch: &mut Batch, name: &str, text: &str) -> Result<bool, AllocError>
    ensures fits { IfOk result (λ done. IsTrue done ↔ (IsKey name.now × IsValue text.now)) }
    ensures added { IfOk result (λ done. done ≡ true → batch.new ≡ batch.old ++ (record { key = name.now; value = Some text.now }) ∷ []) }
    ensures left { IfOk result (λ done. done ≡ false → batch.new ≡ batch.old) }
    ensures err { OnErr result (batch.new ≡ batch.old) }
{
    let name = Bytes::copy_of(alloc, name.as_bytes())?;
    let text = Bytes::copy_of(alloc, text.as_bytes())?;
    if !is_name(&name) {
        return Ok(false);
    }
    if !is_text(&text) {
        return Ok(false);
    }
    batch.put(name, text)?;
    Ok(true)
}

/// Adds to a batch that a note is taken out, and tells whether its name is as long as it may be.
pub fn remove(alloc: Global, batch: &mut Batch, name: &str) -> Result<bool, AllocError>
    ensures fits { IfOk result (λ done. IsTrue done ↔ IsKey name.now) }
    ensures added { IfOk result (λ done. done ≡ true → batch.new ≡ batch.old ++ (record { key = name.now; value = None }) ∷ []) }
    ensures left { IfOk result (λ done. done ≡ false → batch.new ≡ batch.old) }
    ensures err { OnErr result (batch.new ≡ batch.old) }
{
    let name = Bytes::copy_of(alloc, name.as_bytes())?;
    if !is_name(&name) {
        return Ok(false);
    }
    batch.delete(name)?;
    Ok(true)
}

// Opens a notebook through an access handle. Where it does not open, the handle is discarded.
fn read<S: Store, R: Wait>(
    rt: &R,
    court: &Hall<S>,
    agent: &mut Agent<S>,
    handle: SyncHandle,
    tidying: Tidying,
) -> Result<Kv, KvStop>
    requires holds { Holds S.tells court.now agent.old handle }
    requires few { HasMade agent.old 50000001 }
    ensures goes { Goes agent.old agent.new 262 }
    ensures holds { IfOk result (λ kv. HoldsNotes S.tells court.now agent.new kv) }
    ensures setting { IfOk result (λ kv. kv.tidying ≡ tidying) }
    ensures not { IfErr result (λ _. IsReady court.now agent.new 0) }
{
    agent.know_kept();
    let opened = Kv::open_with(rt, court, agent, handle, tidying);
    agent.know_kept();
    match opened {
        Ok(kv) => Ok(kv),
        Err((handle, stop)) => {
            discard(rt, court, agent, handle);
            Err(stop)
        }
    }
}

/// An access handle on the file of a name of the agent's default bucket.
pub fn handle_of<S: Store, R: Wait>(
    rt: &R,
    court: &Hall<S>,
    agent: &mut Agent<S>,
    name: &str,
) -> Result<SyncHandle, Stop>
    requires ready { IsReady court.now agent.old 0 }
    requires few { HasMade agent.old 40000000 }
    ensures goes { Goes agent.old agent.new 3 }
    ensures holds { IfOk result (λ handle. Holds S.tells court.now agent.new handle) }
    ensures not { IfErr result (λ _. IsReady court.now agent.new 0) }
{
    let file = new_file(rt, court, agent, name)?;
    open_file(rt, court, agent, &file)
}

/// Opens the notebook of a name, which is made where it is missing. It compacts by itself.
pub fn open<S: Store, R: Wait>(
    rt: &R,
    court: &Hall<S>,
    agent: &mut Agent<S>,
    name: &str,
) -> Result<Kv, KvStop>
    requires ready { IsReady court.now agent.old 0 }
    requires few { HasMade agent.old 40000000 }
    ensures goes { Goes agent.old agent.new 265 }
    ensures holds { IfOk result (λ kv. HoldsNotes S.tells court.now agent.new kv) }
    ensures setting { IfOk result (λ kv. kv.tidying ≡ when.AtFlush) }
    ensures not { IfErr result (λ _. IsReady court.now agent.new 0) }
{
    open_with(rt, court, agent, name, Tidying::AtFlush)
}

/// The same, with when it compacts by itself.
pub fn open_with<S: Store, R: Wait>(
    rt: &R,
    court: &Hall<S>,
    agent: &mut Agent<S>,
    name: &str,
    tidying: Tidying,
) -> Result<Kv, KvStop>
    requires ready { IsReady court.now agent.old 0 }
    requires few { HasMade agent.old 40000000 }
    ensures goes { Goes agent.old agent.new 265 }
    ensures holds { IfOk result (λ kv. HoldsNotes S.tells court.now agent.new kv) }
    ensures setting { IfOk result (λ kv. kv.tidying ≡ tidying) }
    ensures not { IfErr result (λ _. IsReady court.now agent.new 0) }
{
    match handle_of(rt, court, agent, name) {
        Ok(handle) => read(rt, court, agent, handle, tidying),
        Err(stop) => Err(KvStop::Agent(stop)),
    }
}

/// Writes notes, all or none.
pub fn write<S: Store, R: Wait>(
    rt: &R,
    court: &Hall<S>,
    agent: &mut Agent<S>,
    kv: &mut Kv,
    batch: &Batch,
) -> Result<(), KvStop>
    requires holds { HoldsNotes S.tells court.now agent.old kv.old }
    requires few { HasMade agent.old 50000000 }
    ensures holds { HoldsNotes S.tells court.now agent.new kv.new }
    ensures goes { Goes agent.old agent.new 2 }
    ensures written { OnOk result (S.tells → map_in agent.new kv.new ≡ after_all (map_in agent.old kv.old) batch.now) }
    ensures left { OnErr result (S.tells → map_in agent.new kv.new ≡ map_in agent.old kv.old) }
{
    agent.know_kept();
    let done = kv.apply(rt, court, agent, batch);
    agent.know_kept();
    done
}

/// Stores a notebook for good.
pub fn store<S: Store, R: Wait>(
    rt: &R,
    court: &Hall<S>,
    agent: &mut Agent<S>,
    kv: &mut Kv,
) -> Result<(), KvStop>
    requires holds { HoldsNotes S.tells court.now agent.old kv.old }
    requires few { HasMade agent.old 50000000 }
    ensures holds { HoldsNotes S.tells court.now agent.new kv.new }
    ensures goes { Goes agent.old agent.new 6 }
{
    agent.know_kept();
    let done = kv.flush(rt, court, agent);
    agent.know_kept();
    done
}

/// The text of a note.
pub fn note<S: Store, R: Wait>(
    rt: &R,
    court: &Hall<S>,
    agent: &mut Agent<S>,
    kv: &mut Kv,
    name: &Bytes,
) -> Result<Option<Bytes>, KvStop>
    requires holds { HoldsNotes S.tells court.now agent.old kv.old }
    requires few { HasMade agent.old 50000000 }
    ensures holds { HoldsNotes S.tells court.now agent.new kv.new }
    ensures goes { Goes agent.old agent.new 1 }
    ensures text { IfOk result (λ text. S.tells → text ≡ found (map_in agent.old kv.old) name.now) }
{
    agent.know_kept();
    let found = kv.get(rt, court, agent, name);
    agent.know_kept();
    found
}

/// Gives a notebook up: what was not stored is gone.
pub fn give_up<S: Store, R: Wait>(rt: &R, court: &Hall<S>, agent: &mut Agent<S>, kv: Kv)
    requires holds { HoldsNotes S.tells court.now agent.old kv }
    requires few { HasMade agent.old 50001000 }
    ensures ready { IsReady court.now agent.new 0 }
    ensures goes { Goes agent.old agent.new 1 }
{
    let handle = kv.give_back();
    discard(rt, court, agent, handle);
}

/// Closes a notebook, which is stored for good. Where that is refused it is given up.
pub fn close<S: Store, R: Wait>(
    rt: &R,
    court: &Hall<S>,
    agent: &mut Agent<S>,
    kv: Kv,
) -> Result<(), KvStop>
    requires holds { HoldsNotes S.tells court.now agent.old kv }
    requires few { HasMade agent.old 50000000 }
    ensures ready { IsReady court.now agent.new 0 }
    ensures goes { Goes agent.old agent.new 3 }
{
    agent.know_kept();
    let done = kv.close(rt, court, agent);
    agent.know_kept();
    match done {
        Ok(_) => Ok(()),
        Err((kv, stop)) => {
            give_up(rt, court, agent, kv);
            Err(KvStop::Agent(stop))
        }
    }
}
