//! Tasks of two agents over disks in memory.

ghost use Rattle.std.specs.Prelude.{◌≡◌, ◌∷◌, []};
ghost use Rattle.opfs_codec.specs.Spelling.{IsText, is_origin_text};
ghost use Rattle.opfs_desk.specs.Seen.{entries_of};
ghost use Rattle.opfs_hall.specs.Seen.{new_pass};
ghost use Rattle.opfs_library_tests.specs.Pipe.Tasks.{IsTask};
ghost use Rattle.opfs_notebook.specs.Ready.{IsIdle, asks};

use crate::pipe::Task;
use crate::pipe::running::desk_of;
use crate::pipe::tasks::perform;
use opfs_base::Bytes;
use opfs_desk::Desk;
use opfs_notebook::agents::{Meeting, Starter, meet, part, starters};
use opfs_outside::{Disk, Failed};
use opfs_store::Store;
use opfs_turns::Stop;
use std::sync::Wait;
use std::thread::Threads;

// Two agents that have begun do a task, and end.
fn run_meeting<S: Store + Send, R: Threads + Wait + Sync>(
    rt: &R,
    meeting: Meeting<S>,
    task: Task,
) -> (S, Result<Bytes, Stop>)
    requires task { IsTask task }
    requires owner { meeting.owner ≡ new_pass meeting.court 0 [] }
    requires agents { meeting.court.agents ≡ 2 }
    requires left { IsIdle meeting.court meeting.left 1 0 }
    requires right { IsIdle meeting.court meeting.right 2 0 }
{
    let Meeting {
        court,
        owner,
        mut left,
        mut right,
    } = meeting;
    let told = perform(rt, &court, &mut left, &mut right, task);
    let store = part(
        rt,
        Meeting {
            court,
            owner,
            left,
            right,
        },
    );
    (store, told)
}

// Two agents of a desk without entries do a task.
fn run_desk<D: Disk + Send, R: AllocGlobal + Threads + Wait + Sync>(
    rt: &R,
    desk: Desk<D>,
    first: Starter,
    second: Starter,
    task: Task,
) -> (D, Result<Bytes, Stop>)
    requires task { IsTask task }
    requires agents { desk.fixed.opening.agents ≡ asks first.key ∷ asks second.key ∷ [] }
    requires first { IsText is_origin_text first.key }
    requires second { IsText is_origin_text second.key }
    requires empty { entries_of desk ≡ [] }
{
    match meet(rt, desk, first, second) {
        Ok(meeting) => {
            let (desk, told) = run_meeting(rt, meeting, task);
            let (disk, history, done) = desk.finish();
            drop(history);
            drop(done);
            (disk, told)
        }
        Err(desk) => (desk.leave(), Err(Stop::NoMemory)),
    }
}

// Two agents of a desk over the image that a disk holds do a task.
fn run_disk<D: Disk + Send, R: AllocGlobal + Threads + Wait + Sync>(
    rt: &R,
    disk: D,
    first: Starter,
    second: Starter,
    task: Task,
) -> (D, Result<Bytes, Stop>)
    requires task { IsTask task }
    requires first { IsText is_origin_text first.key }
    requires second { IsText is_origin_text second.key }
{
    match desk_of(rt.alloc(), disk, &first.key, &second.key) {
        Ok(desk) => run_desk(rt, desk, first, second, task),
        Err(disk) => (disk, Err(Stop::NoMemory)),
    }
}

/// The reader, of the first origin, and the writer, of the second one, do a task over the image that a disk holds.
pub fn run<D: Disk + Send, R: AllocGlobal + Threads + Wait + Sync>(
    rt: &R,
    disk: D,
    urls: [&str; 2],
    task: Task,
) -> (D, Result<Bytes, Stop>)
    requires task { IsTask task }
{
    match starters(rt.alloc(), urls) {
        Ok((first, second)) => run_disk(rt, disk, first, second, task),
        Err(_) => (disk, Err(Stop::NoMemory)),
    }
}

/// Sets the quota of an image of which nobody has a desk.
pub fn set_quota<D: Disk>(disk: &mut D, quota: u32) -> Result<(), Failed> {
    if disk.len() < 4_096 {
        return Err(Failed);
    }
    disk.write(20, &quota.to_le_bytes())?;
    disk.sync()
}
