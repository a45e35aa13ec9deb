//! What every shared call leaves of access handles.

ghost use Rattle.opfs_desk_bytes.specs.Reading.Handles.{HandlesGoOn};

use opfs_laws::going_on::legal_histories_go_on;
use opfs_outside::Disk;
use opfs_pages::handles_stay_whole;

/// The law of access handles through a whole call: each of their pages stays one that the store tells.
pub fn handles_go_on<D: Disk>()
    ensures { HandlesGoOn D.tells }
{
    handles_stay_whole();
    legal_histories_go_on();
}
