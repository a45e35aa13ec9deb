//! Calls that change no file: they use the store, look at it, post, wait and end.

ghost use Rattle.std.specs.Prelude.{◌≡◌, ◌+◌, ◌-◌, ◌<◌, ◌≤◌, ◌^◌, ℕ, List, Option, Some, length, true};
ghost use Rattle.opfs_base.specs.Texts.{Text};
ghost use Rattle.opfs_base.specs.declared.extents.Extent.{Extent};
ghost use Rattle.opfs_base.specs.declared.locator.Locator.{Locator};
ghost use Rattle.opfs_state_rows.specs.Changes.Allowed.{MayCount};
ghost use Rattle.opfs_state_rows.specs.Changes.Asking.{target_of};
ghost use Rattle.opfs_state_rows.specs.Changes.Changed.{IsDone};
ghost use Rattle.opfs_hist.specs.declared.op.Op.TheVariants as op;
ghost use Rattle.opfs_machine.specs.declared.state.Sizes.{Sizes};
ghost use Rattle.opfs_machine.specs.Agents.{counted, party_of};
ghost use Rattle.opfs_machine.specs.Effects.{refused};
ghost use Rattle.opfs_state_rows.specs.Changes.Quiet.{is_quiet};

use crate::standing::Standing;
use opfs_base::Text;
use opfs_hist::{Op, PendingSum};

/// A call that changes nothing.
pub fn tell(store: &mut Standing, agent: u32, op: &Op)
    requires may { MayCount store.old.machine agent }
    requires quiet { is_quiet op.now ≡ true }
    ensures done { (sizes : Sizes) (extents : Option (List Extent)) → IsDone store.old store.new sizes agent op.now extents }
    ensures prepared { store.new.prepared ≡ store.old.prepared }
{
    store.count(agent as usize - 1);
}

/// A call that is refused: only that the answer Stuck ends the agent's waiting.
pub fn refuse(store: &mut Standing, agent: u32, op: &Op)
    requires above { 0 < agent }
    requires within { agent ≤ length store.old.machine.agents }
    requires entries { store.old.machine.entries + 1 < 2 ^ 64 }
    ensures machine { store.new.machine ≡ counted (refused store.old.machine agent op.now) agent }
    ensures tree { store.new.tree ≡ store.old.tree }
    ensures prepared { store.new.prepared ≡ store.old.prepared }
{
    let at = agent as usize - 1;
    if let Op::Await { .. } = op {
        store.stop_waiting(at);
    }
    store.count(at);
}

/// values.
pub fn values(store: &mut Standing, agent: u32)
    requires may { MayCount store.old.machine agent }
    ensures done { (sizes : Sizes) (dir : Locator) (extents : Option (List Extent)) → IsDone store.old store.new sizes agent (op.Values dir) extents }
    ensures prepared { store.new.prepared ≡ store.old.prepared }
{
    let at = agent as usize - 1;
    store.add_iterator(at);
    store.count(at);
}

/// A new moment.
pub fn set_moment(store: &mut Standing, agent: u32, ms: u64)
    requires may { MayCount store.old.machine agent }
    ensures done { (sizes : Sizes) (extents : Option (List Extent)) → IsDone store.old store.new sizes agent (op.Moment ms) extents }
    ensures prepared { store.new.prepared ≡ store.old.prepared }
{
    let at = agent as usize - 1;
    let sum = PendingSum {
        entries: 0,
        rows: 0,
        moment: Some(ms),
    };
    store.note(at, sum);
    store.count(at);
}

/// post, of the tag that is ready.
pub fn post(store: &mut Standing, agent: u32, tag: &Text)
    requires may { MayCount store.old.machine agent }
    requires ready { store.old.prepared.tag ≡ Some (record { party = party_of store.old.machine agent; tag = tag.now }) }
    ensures done { (sizes : Sizes) (extents : Option (List Extent)) → IsDone store.old store.new sizes agent (op.Post tag.now) extents }
    ensures place { store.new.prepared.place ≡ store.old.prepared.place }
{
    store.post();
    store.count(agent as usize - 1);
}

/// The agent begins to wait for the tag that is ready.
pub fn wait(store: &mut Standing, agent: u32, tag: &Text)
    requires may { MayCount store.old.machine agent }
    requires ready { store.old.prepared.tag ≡ Some (record { party = party_of store.old.machine agent; tag = tag.now }) }
    ensures done { (sizes : Sizes) (extents : Option (List Extent)) → IsDone store.old store.new sizes agent (op.Wait tag.now) extents }
    ensures place { store.new.prepared.place ≡ store.old.prepared.place }
{
    let at = agent as usize - 1;
    store.wait(at);
    store.count(at);
}

/// await of a tag that was posted.
pub fn await_tag(store: &mut Standing, agent: u32)
    requires may { MayCount store.old.machine agent }
    ensures done { (sizes : Sizes) (tag : Text) (extents : Option (List Extent)) → IsDone store.old store.new sizes agent (op.Await tag) extents }
    ensures prepared { store.new.prepared ≡ store.old.prepared }
{
    let at = agent as usize - 1;
    store.stop_waiting(at);
    store.count(at);
}

/// The end of an agent's script.
pub fn end(store: &mut Standing, agent: u32)
    requires may { MayCount store.old.machine agent }
    ensures done { (sizes : Sizes) (extents : Option (List Extent)) → IsDone store.old store.new sizes agent op.End extents }
    ensures prepared { store.new.prepared ≡ store.old.prepared }
{
    let at = agent as usize - 1;
    store.end_agent(at);
    store.count(at);
}
