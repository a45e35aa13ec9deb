//! A script as it was read.

ghost use Rattle.std.specs.Prelude.{◌≡◌, ◌⊎◌, Ok, Err, IfOk, IfErr};
ghost use Rattle.opfs_script.specs.Reading.{reads};
ghost use Rattle.opfs_script_kept.specs.Reading.Kept.{seen};

use crate::packed::PackedScript;
use crate::reading::reading::read_packed;
use opfs_script::{Script, ScriptRefusal, read_script};
use std::alloc::Global;

/// A script with its steps kept as their texts, or one that was read whole.
#[derive(Drop)]
pub enum KeptScript {
    Packed(PackedScript),
    Whole(Script),
}

/// The script that bytes are, as `read_script` reads it, and with the same refusals. Where it is written plainly its steps are kept
/// as texts, and reading takes, beside what it gives, as many bytes as the text has and the memory of one step. Else it is read
/// whole: where it is refused, and where an agent's steps are given twice.
pub fn read_kept(alloc: Global, bytes: &[u8]) -> Result<KeptScript, ScriptRefusal>
    ensures script { IfOk result (λ script. reads bytes.now ≡ Ok (seen script)) }
    ensures refused { IfErr result (λ why. (reads bytes.now ≡ Err why) ⊎ (why ≡ ScriptRefusal.NoMemory)) }
{
    match read_packed(alloc, bytes) {
        Ok(Some(script)) => Ok(KeptScript::Packed(script)),
        Ok(None) => {
            let script = read_script(alloc, bytes)?;
            Ok(KeptScript::Whole(script))
        }
        Err(_) => Err(ScriptRefusal::NoMemory),
    }
}
