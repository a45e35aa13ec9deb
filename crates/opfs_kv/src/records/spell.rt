//! How a record is written.

ghost use Rattle.std.specs.Prelude.{◌≡◌, ◌++◌, ◌≤◌, IfOk, OnOk, Some, None};
ghost use Rattle.opfs_kv.specs.Records.Records.{IsKey, IsValue, spelled_by};

use std::alloc::{AllocError, Global};

/// The record of a key with its new value.
pub fn spell_put(alloc: Global, key: &[u8], value: &[u8]) -> Result<Vec<u8>, AllocError>
    requires key { IsKey key.now }
    requires value { IsValue value.now }
    ensures { IfOk result (λ bytes. bytes.items ≡ spelled_by key.now (Some value.now)) }
{
    let mut bytes = Vec::new(alloc);
    append_put(&mut bytes, key, value)?;
    Ok(bytes)
}

/// The record of a key that is taken out.
pub fn spell_gone(alloc: Global, key: &[u8]) -> Result<Vec<u8>, AllocError>
    requires { IsKey key.now }
    ensures { IfOk result (λ bytes. bytes.items ≡ spelled_by key.now None) }
{
    let mut bytes = Vec::new(alloc);
    append_gone(&mut bytes, key)?;
    Ok(bytes)
}

/// Appends the record of a key with its value.
pub fn append_put(into: &mut Vec<u8>, key: &[u8], value: &[u8]) -> Result<(), AllocError>
    requires key { IsKey key.now }
    requires value { IsValue value.now }
    ensures { OnOk result (into.new.items ≡ into.old.items ++ spelled_by key.now (Some value.now)) }
{
    into.reserve(key.len() + value.len() + 6)?;
    into.push(1)?;
    into.push(key.len() as u8)?;
    into.extend_from_slice(key)?;
    let len = value.len() as u32;
    into.extend_from_slice(&len.to_le_bytes())?;
    into.extend_from_slice(value)?;
    Ok(())
}

/// Appends the record of a key that is taken out.
pub fn append_gone(into: &mut Vec<u8>, key: &[u8]) -> Result<(), AllocError>
    requires { IsKey key.now }
    ensures { OnOk result (into.new.items ≡ into.old.items ++ spelled_by key.now None) }
{
    into.reserve(key.len() + 2)?;
    into.push(2)?;
    into.push(key.len() as u8)?;
    into.extend_from_slice(key)?;
    Ok(())
}
