//! A key-value file as a program uses it.

ghost use Rattle.opfs_kv.specs.Records.Records.{IsKey, IsValue};
ghost use Rattle.opfs_notebook.specs.Ready.{Goes, HasMade, HoldsNotes};

use opfs_agent::Agent;
use opfs_base::Bytes;
use opfs_hall::Hall;
use opfs_kv::{Kv, KvStop};
use opfs_notebook::notes::{note, store};
use opfs_store::Store;
use opfs_turns::Stop;
use std::sync::Wait;

/// Gives a key a value.
pub fn put<S: Store, R: Wait>(
    rt: &R,
    court: &Hall<S>,
    agent: &mut Agent<S>,
    kv: &mut Kv,
    key: &Bytes,
    value: &Bytes,
) -> Result<(), KvStop>
    requires holds { HoldsNotes S.tells court.now agent.old kv.old }
    requires few { HasMade agent.old 50000000 }
    requires key { IsKey key.now }
    requires value { IsValue value.now }
    ensures holds { HoldsNotes S.tells court.now agent.new kv.new }
    ensures goes { Goes agent.old agent.new 2 }
{
    agent.know_kept();
    let done = kv.put(rt, court, agent, key, value);
    agent.know_kept();
    done
}

/// Takes out a key, and tells whether it was there.
pub fn delete<S: Store, R: Wait>(
    rt: &R,
    court: &Hall<S>,
    agent: &mut Agent<S>,
    kv: &mut Kv,
    key: &Bytes,
) -> Result<bool, KvStop>
    requires holds { HoldsNotes S.tells court.now agent.old kv.old }
    requires few { HasMade agent.old 50000000 }
    requires key { IsKey key.now }
    ensures holds { HoldsNotes S.tells court.now agent.new kv.new }
    ensures goes { Goes agent.old agent.new 2 }
{
    agent.know_kept();
    let done = kv.delete(rt, court, agent, key);
    agent.know_kept();
    done
}

/// Writes the file anew.
pub fn compact<S: Store, R: Wait>(
    rt: &R,
    court: &Hall<S>,
    agent: &mut Agent<S>,
    kv: &mut Kv,
) -> Result<(), KvStop>
    requires holds { HoldsNotes S.tells court.now agent.old kv.old }
    requires few { HasMade agent.old 50000000 }
    ensures holds { HoldsNotes S.tells court.now agent.new kv.new }
    ensures goes { Goes agent.old agent.new 4 }
{
    agent.know_kept();
    let done = kv.compact(rt, court, agent);
    agent.know_kept();
    done
}

/// The same where more than half of the file's bytes are dead: it tells whether they were.
pub fn tidy<S: Store, R: Wait>(
    rt: &R,
    court: &Hall<S>,
    agent: &mut Agent<S>,
    kv: &mut Kv,
) -> Result<bool, KvStop>
    requires holds { HoldsNotes S.tells court.now agent.old kv.old }
    requires few { HasMade agent.old 50000000 }
    ensures holds { HoldsNotes S.tells court.now agent.new kv.new }
    ensures goes { Goes agent.old agent.new 4 }
{
    agent.know_kept();
    let done = kv.tidy(rt, court, agent);
    agent.know_kept();
    done
}

/// Gives a key a value, stores the file for good, and reads the value.
pub fn put_and_get<S: Store, R: Wait>(
    rt: &R,
    court: &Hall<S>,
    agent: &mut Agent<S>,
    kv: &mut Kv,
    key: &Bytes,
    value: &Bytes,
) -> Result<Option<Bytes>, KvStop>
    requires holds { HoldsNotes S.tells court.now agent.old kv.old }
    requires few { HasMade agent.old 45000000 }
    requires key { IsKey key.now }
    requires value { IsValue value.now }
    ensures holds { HoldsNotes S.tells court.now agent.new kv.new }
    ensures goes { Goes agent.old agent.new 9 }
{
    put(rt, court, agent, kv, key, value)?;
    store(rt, court, agent, kv)?;
    note(rt, court, agent, kv, key)
}

/// Takes out a key, and writes the file anew.
pub fn take_out<S: Store, R: Wait>(
    rt: &R,
    court: &Hall<S>,
    agent: &mut Agent<S>,
    kv: &mut Kv,
    key: &Bytes,
) -> Result<bool, KvStop>
    requires holds { HoldsNotes S.tells court.now agent.old kv.old }
    requires few { HasMade agent.old 45000000 }
    requires key { IsKey key.now }
    ensures holds { HoldsNotes S.tells court.now agent.new kv.new }
    ensures goes { Goes agent.old agent.new 6 }
{
    let was = delete(rt, court, agent, kv, key)?;
    compact(rt, court, agent, kv)?;
    Ok(was)
}

/// Gives a key a value, and compacts where more than half of the file's bytes are dead: it tells whether they were.
pub fn put_tidily<S: Store, R: Wait>(
    rt: &R,
    court: &Hall<S>,
    agent: &mut Agent<S>,
    kv: &mut Kv,
    key: &Bytes,
    value: &Bytes,
) -> Result<bool, KvStop>
    requires holds { HoldsNotes S.tells court.now agent.old kv.old }
    requires few { HasMade agent.old 45000000 }
    requires key { IsKey key.now }
    requires value { IsValue value.now }
    ensures holds { HoldsNotes S.tells court.now agent.new kv.new }
    ensures goes { Goes agent.old agent.new 6 }
{
    put(rt, court, agent, kv, key, value)?;
    tidy(rt, court, agent, kv)
}

/// The keys from one on, in order, and how many keys there are.
pub fn keys_on<S: Store>(
    agent: &Agent<S>,
    kv: &Kv,
    from: &Bytes,
) -> Result<(Vec<Bytes>, usize), KvStop> {
    match kv.keys_from(agent, from) {
        Ok(keys) => Ok((keys, kv.len(agent))),
        Err(_) => Err(KvStop::Agent(Stop::NoMemory)),
    }
}
