//! The bytes that a step writes, as its object tells them.

ghost use Rattle.std.specs.Prelude.{◌≡◌, Some};
ghost use Rattle.serde_json.specs.View.{view};
ghost use Rattle.opfs_script.specs.Members.{hex_bytes, filled, told_bytes, bytes_of, bytes};
ghost use Rattle.opfs_script.specs.Faults.{Reads};

use crate::fault::Fault;
use crate::members::{has_only, number, text_of};
use hex::FromHexError;
use opfs_base::{Bytes, Data};
use serde_json::Value;
use std::alloc::Global;

/// Bytes: a text's, or those that an object tells.
pub fn bytes(alloc: Global, value: &Value, name: &str) -> Result<Data, Fault>
    ensures { Reads result (bytes name.now (view value.now)) }
{
    match value.get(name) {
        Some(member) => bytes_of(alloc, member),
        None => Err(Fault::Shape),
    }
}

// The bytes that a value stands for.
fn bytes_of(alloc: Global, value: &Value) -> Result<Data, Fault>
    ensures { Reads result (bytes_of (view value.now)) }
{
    match value.as_str() {
        Some(text) => given(alloc, text.as_bytes()),
        None => told_bytes(alloc, value),
    }
}

// Bytes in memory of their own.
fn given(alloc: Global, bytes: &[u8]) -> Result<Data, Fault>
    ensures { Reads result (Some bytes.now) }
{
    match Bytes::copy_of(alloc, bytes) {
        Ok(copy) => shared(alloc, copy),
        Err(_) => Err(Fault::Memory),
    }
}

// Bytes that can be shared.
fn shared(alloc: Global, bytes: Bytes) -> Result<Data, Fault>
    ensures { Reads result (Some bytes) }
{
    match Data::given(alloc, bytes) {
        Ok(made) => Ok(made),
        Err(_) => Err(Fault::Memory),
    }
}

// Bytes told by an object.
fn told_bytes(alloc: Global, value: &Value) -> Result<Data, Fault>
    ensures { Reads result (told_bytes (view value.now)) }
{
    if has_only(value, &["hex"]) {
        match text_of(value, "hex") {
            Some(digits) => hex_bytes(alloc, digits),
            None => Err(Fault::Shape),
        }
    } else if has_only(value, &["fill", "count"]) {
        let byte = number(value, "fill")?;
        let count = number(value, "count")?;
        filled(byte, count)
    } else {
        Err(Fault::Shape)
    }
}

// Bytes as hexadecimal digits.
fn hex_bytes(alloc: Global, digits: &str) -> Result<Data, Fault>
    ensures { Reads result (hex_bytes digits.now) }
{
    match hex::decode(alloc, digits) {
        Ok(bytes) => shared(alloc, Bytes::from_vec(bytes)),
        Err(FromHexError::OutOfMemory) => Err(Fault::Memory),
        Err(_) => Err(Fault::Shape),
    }
}

// One byte so many times.
fn filled(byte: u64, count: u64) -> Result<Data, Fault>
    ensures { Reads result (filled byte count) }
{
    if byte <= 255 {
        Ok(Data::filled(byte as u8, count))
    } else {
        Err(Fault::Shape)
    }
}
