//! What is told in a turn.

ghost use Rattle.std.specs.Prelude.{◌≡◌, ◌⊎◌, ◌≤◌};
ghost use Rattle.opfs_outside.specs.Faults.{Rose};
ghost use Rattle.opfs_port.specs.Said.{WentOut};
ghost use Rattle.opfs_serving.specs.Turns.{HasSaid, HasToldMore, HasTurned};

use crate::progress::{Progress, State};
use opfs_hall::{Hall, Told, Watch};
use opfs_port::{Port, PortFault};
use opfs_print::transcript;
use opfs_store::Store;
use std::alloc::Global;
use std::sync::Wait;

// Tells a text, with what stands then.
fn tell_text<T, P: Port<T>>(port: &mut P, text: &[u8], at: Told<T>) -> State
    ensures on { result ≡ State.On → P.tells → WentOut text.now at.value (P.said port.old) (P.said port.new) }
    ensures off { P.tells → (P.said port.new ≡ P.said port.old) ⊎ WentOut text.now at.value (P.said port.old) (P.said port.new) }
    ensures rest { P.tells → P.rest port.new ≡ P.rest port.old }
    ensures later { P.faults port.old ≤ P.faults port.new }
    ensures cause { result ≡ State.Failed → Rose (P.faults port.old) (P.faults port.new) }
{
    match port.tell(text, at) {
        Ok(()) => State::On,
        Err(PortFault::Stream) => State::Failed,
        Err(PortFault::NoMemory) => State::Short,
    }
}

/// Tells the lines of the entries of a store that were not told yet.
pub fn tell_entries<S: Store, P: Port<S>>(
    alloc: Global,
    store: &mut S,
    port: &mut P,
    progress: &mut Progress,
)
    ensures store { store.new ≡ store.old }
    ensures told { HasToldMore S.entries P.tells P.said P.faults store.new port.old port.new progress.old progress.new }
    ensures rest { P.tells → P.rest port.new ≡ P.rest port.old }
{
    if progress.state != State::On {
        return;
    }
    let given = store.give_out();
    let at = Told::of(store);
    if given.place != progress.count {
        progress.state = State::Short;
        return;
    }
    let mut lines = Vec::new(alloc);
    if transcript(alloc, &given.entries, &mut lines).is_err() {
        progress.state = State::Short;
        return;
    }
    progress.count = given.place + given.entries.len();
    if lines.is_empty() {
        return;
    }
    progress.state = tell_text(port, &lines[..lines.len() - 1], at);
}

/// Takes a turn with the owner's pass, and tells what was entered and not told yet.
pub fn tell_turn<S: Store, P: Port<S>, R: AllocGlobal + Wait>(
    rt: &R,
    hall: &Hall<S>,
    watch: Watch<S>,
    port: &mut P,
    progress: &mut Progress,
) -> Watch<S>
    requires own { watch.pass.hall ≡ hall.now }
    requires owner { watch.pass.agent ≡ 0 }
    ensures turned { HasTurned S.opening S.entries S.keeps S.goes_on hall.now watch result }
    ensures told { HasToldMore S.entries P.tells P.said P.faults result.last port.old port.new progress.old progress.new }
    ensures rest { P.tells → P.rest port.new ≡ P.rest port.old }
{
    let mut turn = watch.enter(rt, hall);
    turn.value.know_kept();
    tell_entries(rt.alloc(), &mut turn.value, port, progress);
    Watch::leave(hall, turn)
}

/// Takes a turn with the owner's pass, and tells a text.
pub fn say_turn<S: Store, P: Port<S>, R: Wait>(
    rt: &R,
    hall: &Hall<S>,
    watch: Watch<S>,
    port: &mut P,
    text: &[u8],
    progress: &mut Progress,
) -> Watch<S>
    requires own { watch.pass.hall ≡ hall.now }
    requires owner { watch.pass.agent ≡ 0 }
    ensures turned { HasTurned S.opening S.entries S.keeps S.goes_on hall.now watch result }
    ensures said { HasSaid P.tells P.said P.faults text.now result.last port.old port.new progress.old progress.new }
{
    let mut turn = watch.enter(rt, hall);
    turn.value.know_kept();
    let at = Told::of(&turn.value);
    progress.state = tell_text(port, text, at);
    Watch::leave(hall, turn)
}
