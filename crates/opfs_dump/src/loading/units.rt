//! Units.

ghost use Rattle.std.specs.Prelude.{◌≡◌, ◌&&◌, map, not, true, IfOk};
ghost use Rattle.std.specs.List.{list_all};
ghost use Rattle.serde_json.specs.View.{view};
ghost use Rattle.opfs_base.specs.Keys.{is_origin};
ghost use Rattle.opfs_base.specs.Texts.{same_text};
ghost use Rattle.opfs_base.specs.Units.{default_bucket, is_bucket_byte, is_bucket_name, is_letter_or_digit};
ghost use Rattle.opfs_codec.specs.Spelling.{is_key_text};
ghost use Rattle.opfs_dump.specs.Text.Limits.{are_units, is_rising, is_unit};
ghost use Rattle.opfs_dump.specs.Text.Reading.{units_in, texts_of};
ghost use Rattle.opfs_dump.specs.Loading.Answers.{Reads};

use crate::loading::fault::Fault;
use crate::loading::members::values;
use opfs_base::{Key, origin_of};
use opfs_codec::bucket_of;
use serde_json::Value;
use std::alloc::Global;

// Whether a byte is `a` to `z` or `0` to `9`.
fn is_letter_or_digit(byte: u8) -> bool
    ensures { result ≡ is_letter_or_digit byte }
{
    byte.is_ascii_lowercase() || byte.is_ascii_digit()
}

// Whether a byte may stand in a bucket's name.
fn is_bucket_byte(byte: u8) -> bool
    ensures { result ≡ is_bucket_byte byte }
{
    is_letter_or_digit(byte) || byte == b'-' || byte == b'_'
}

// Whether all bytes may stand in a bucket's name.
fn are_bucket_bytes(bytes: &[u8]) -> bool
    ensures { result ≡ list_all is_bucket_byte bytes.now }
{
    bytes.iter().all(|byte| is_bucket_byte(*byte))
}

// Whether bytes are a bucket's name.
fn is_bucket_name(bytes: &[u8]) -> bool
    ensures { result ≡ is_bucket_name bytes.now }
{
    match bytes.split_first() {
        None => false,
        Some((first, more)) => is_letter_or_digit(*first)
            && are_bucket_bytes(more)
            && more.len() <= 63,
    }
}

// Whether bytes are the name of a bucket that is not the default one.
fn is_named_bucket(bytes: &[u8]) -> bool
    ensures { result ≡ (is_bucket_name bytes.now && not (same_text bytes.now default_bucket)) }
{
    is_bucket_name(bytes) && bytes != b"default".as_slice()
}

// Whether bytes are as many as a key has.
fn is_key_text(bytes: &[u8]) -> bool
    ensures { result ≡ is_key_text bytes.now }
{
    1 <= bytes.len() && bytes.len() <= 255
}

// Whether a unit is that of an origin's default bucket.
fn is_origin(unit: &[u8]) -> bool
    ensures { result ≡ is_origin unit.now }
{
    !unit.contains(&b'#')
}

// Whether an origin's key and a bucket's name make a unit.
fn is_of_bucket(origin: &[u8], bucket: &[u8]) -> bool
    ensures { result ≡ (is_key_text origin.now && (is_bucket_name bucket.now && not (same_text bucket.now default_bucket))) }
{
    is_key_text(origin) && is_named_bucket(bucket)
}

/// Whether a key is a unit.
pub(crate) fn is_unit(key: &Key) -> bool
    ensures { result ≡ is_unit key.now }
{
    let unit = key.as_bytes();
    if is_origin(unit) {
        return is_key_text(unit);
    }
    is_of_bucket(origin_of(unit), bucket_of(unit))
}

// Texts as keys.
fn keys_of(alloc: Global, values: &[Value]) -> Result<Vec<Key>, Fault>
    ensures { Reads (λ keys. keys.items) result (texts_of (map view values.now)) }
{
    let mut keys = Vec::new(alloc);
    for value in values {
        let Some(text) = value.as_str() else {
            return Err(Fault::Form);
        };
        keys.push(Key::of_text(alloc, text)?)?;
    }
    Ok(keys)
}

// Whether all keys are units.
fn all_units(keys: &[Key]) -> bool
    ensures { result ≡ list_all is_unit keys.now }
{
    keys.iter().all(is_unit)
}

// Whether keys rise strictly.
fn is_rising(keys: &[Key]) -> bool
    ensures { result ≡ is_rising keys.now }
{
    let mut rest = keys;
    while let [first, more @ ..] = rest {
        if let Some(next) = more.first() {
            if *first >= *next {
                return false;
            }
        }
        rest = more;
    }
    true
}

// Whether keys are units that rise strictly.
fn are_units(keys: &[Key]) -> bool
    ensures { result ≡ are_units keys.now }
{
    all_units(keys) && is_rising(keys)
}

/// The persistent units of a dump.
pub(crate) fn units_in(alloc: Global, value: &Value) -> Result<Vec<Key>, Fault>
    ensures read { Reads (λ keys. keys.items) result (units_in (view value.now)) }
    ensures units { IfOk result (λ keys. are_units keys.items ≡ true) }
{
    let Some(items) = values(value, "persistent") else {
        return Err(Fault::Form);
    };
    let keys = keys_of(alloc, items)?;
    if are_units(&keys) {
        Ok(keys)
    } else {
        Err(Fault::Form)
    }
}
