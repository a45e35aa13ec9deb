//! Commands one after another, each with how it is to end.

use crate::asking::ran;
use opfs_outside::Host;
use std::alloc::AllocError;
use std::sync::Wait;
use std::thread::Threads;

/// A command, what it reads, and how it is to end.
pub type Ask = (&'static str, &'static str, &'static str);

/// The first of these commands over a host that ends otherwise than it is to, with how it ends; nothing where there is
/// none.
pub fn first_other<R: AllocGlobal + Threads + Wait + Sync, H: Host>(
    rt: &R,
    host: &mut H,
    asks: &[Ask],
) -> Result<String, AllocError> {
    for (command, input, wanted) in asks {
        let told = ran(rt, command, host, input.as_bytes())?;
        if told.as_str() != *wanted {
            return format!(in rt.alloc(); "{command}: {told}");
        }
    }
    Ok(String::new(rt.alloc()))
}
