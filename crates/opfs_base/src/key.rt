//! Storage keys and the units of an origin.

ghost use Rattle.std.specs.Prelude.{◌≡◌, ◌==◌, ◌⊎◌, true, false, IsTrue, IfOk, IfErr, OnOk, string_bytes};
ghost use Rattle.std.specs.List.{list_all, position};
ghost use Rattle.opfs_base.specs.Keys.{has_tuple_origin, origin_text, key_of, is_origin, is_one_line};
ghost use Rattle.opfs_base.specs.Units.{hash_sign, is_letter_or_digit, is_bucket_byte, is_bucket_name, unit_of, origin_of, bucket_of, same_origin};

use crate::bytes::Bytes;
use std::alloc::{AllocError, Global};
use std::marker::Model;
use thiserror::Error;
use url::{ParseError, Position, Url};

/// Why a text gives no key.
#[derive(Clone, Copy, Debug, PartialEq, Eq, Error)]
pub enum KeyRefusal {
    /// It is no URL.
    #[error("not a URL")]
    BadUrl,
    /// The URL has an opaque origin.
    #[error("a URL of opaque origin")]
    Opaque,
    /// The key has more than 255 bytes.
    #[error("a key of more than 255 bytes")]
    TooLong,
    /// There is no memory.
    #[error("out of memory")]
    NoMemory,
}

/// Why there is no such unit.
#[derive(Clone, Copy, Debug, PartialEq, Eq, Error)]
pub enum UnitRefusal {
    /// The text is not a bucket's name.
    #[error("not a bucket's name")]
    BadBucket,
    /// There is no memory.
    #[error("out of memory")]
    NoMemory,
}

/// The text of a unit: an origin's storage key, alone for its default bucket, seen as its UTF-8.
#[derive(Drop, PartialEq, Eq, PartialOrd, Ord)]
pub struct Key {
    text: Bytes,
}

impl Model for Key {
    ghost use Rattle.std.specs.Prelude.{List, ℕ};

    ghost Value = { List ℕ };

    ghost view = { λ key. key.text };

    ghost use Rattle.std.specs.Str.{IsUtf8};

    ghost invariant = { λ key. IsUtf8 key.text };

    ghost inverse = { λ text. record { text = text } };
}

impl Key {
    /// The storage key of a URL (Storage: obtain a storage key), which is the unit of its origin's default bucket.
    /// `NoMemory` stands too for the parser's answers that a text is too long for it.
    pub fn of_url(alloc: Global, text: &str) -> Result<Key, KeyRefusal>
        ensures key { IfOk result (λ key. key_of text.now ≡ Ok key) }
        ensures origin { IfOk result (λ key. IsTrue (is_origin key)) }
        ensures line { IfOk result (λ key. IsTrue (is_one_line key)) }
        ensures refused { IfErr result (λ e. (key_of text.now ≡ Err e) ⊎ (e ≡ KeyRefusal.NoMemory)) }
    {
        let url = match Url::parse(alloc, text) {
            Ok(url) => url,
            Err(ParseError::OutOfMemory | ParseError::Overflow) => return Err(KeyRefusal::NoMemory),
            Err(_) => return Err(KeyRefusal::BadUrl),
        };
        if !has_tuple_origin(url.scheme()) {
            return Err(KeyRefusal::Opaque);
        }
        let Ok(key) = origin_text(alloc, &url) else {
            return Err(KeyRefusal::NoMemory);
        };
        if key.len() > 255 {
            return Err(KeyRefusal::TooLong);
        }
        Ok(Key::from_string(key))
    }

    /// The key that is this text.
    pub fn of_text(alloc: Global, text: &str) -> Result<Key, AllocError>
        ensures { IfOk result (λ key. key ≡ text.now) }
    {
        let text = Bytes::copy_of(alloc, text.as_bytes())?;
        Ok(Key { text })
    }

    /// The unit of a bucket of an origin.
    pub fn unit(alloc: Global, origin: &Key, bucket: &str) -> Result<Key, UnitRefusal>
        requires { IsTrue (is_origin origin.now) }
        ensures named { OnOk result (IsTrue (is_bucket_name bucket.now)) }
        ensures unit { IfOk result (λ unit. unit ≡ unit_of origin.now bucket.now) }
        ensures origin { IfOk result (λ unit. origin_of unit ≡ origin.now) }
        ensures bucket { IfOk result (λ unit. bucket_of unit ≡ bucket.now) }
        ensures refused { IfErr result (λ e. (is_bucket_name bucket.now ≡ false) ⊎ (e ≡ UnitRefusal.NoMemory)) }
    {
        if !is_bucket_name(bucket) {
            return Err(UnitRefusal::BadBucket);
        }
        match unit_text(alloc, origin, bucket) {
            Ok(text) => Ok(Key::from_string(text)),
            Err(_) => Err(UnitRefusal::NoMemory),
        }
    }

    /// The key as a text.
    pub fn as_str(&self) -> &str
        ensures { result.now ≡ self.now }
    {
        match str::from_utf8(self.text.as_slice()) {
            Ok(text) => text,
            Err(_) => unreachable!(),
        }
    }

    /// The key's UTF-8.
    pub fn as_bytes(&self) -> &[u8]
        ensures { result.now ≡ self.now }
    {
        self.text.as_slice()
    }

    /// The same key in new memory.
    pub fn copy(&self, alloc: Global) -> Result<Key, AllocError>
        ensures { IfOk result (λ key. key ≡ self.now) }
    {
        let text = self.text.copy(alloc)?;
        Ok(Key { text })
    }

    // The key of this text. Takes no memory.
    fn from_string(text: String) -> Key
        ensures { result ≡ string_bytes text }
    {
        let text = Bytes::from_vec(text.into_bytes());
        Key { text }
    }
}

/// Whether two units are of one origin.
pub fn same_origin(a: &Key, b: &Key) -> bool
    ensures { result ≡ same_origin a.now b.now }
{
    origin_of(a.as_bytes()) == origin_of(b.as_bytes())
}

/// The key of a unit's origin: the bytes before the first `#`.
pub fn origin_of(unit: &[u8]) -> &[u8]
    ensures { result.now ≡ origin_of unit.now }
{
    match hash_place(unit) {
        Some(end) => &unit[..end],
        None => unit,
    }
}

// Where the first `#` stands.
fn hash_place(unit: &[u8]) -> Option<usize>
    ensures { result ≡ position (λ byte. byte == hash_sign) unit.now }
{
    unit.iter().position(|byte| *byte == b'#')
}

/// Whether a text is a bucket's name: 1 to 64 bytes of `a` to `z`, `0` to `9`, `-` and `_`, the first a letter or
/// digit.
pub fn is_bucket_name(text: &str) -> bool
    ensures { result ≡ is_bucket_name text.now }
{
    match text.as_bytes().split_first() {
        None => false,
        Some((first, more)) => is_letter_or_digit(*first)
            && are_bucket_bytes(more)
            && more.len() <= 63,
    }
}

// Whether all bytes may stand in a bucket's name.
fn are_bucket_bytes(bytes: &[u8]) -> bool
    ensures { result ≡ list_all is_bucket_byte bytes.now }
{
    bytes.iter().all(|byte| is_bucket_byte(*byte))
}

// Whether a byte is a lower case letter or a digit.
fn is_letter_or_digit(byte: u8) -> bool
    ensures { result ≡ is_letter_or_digit byte }
{
    byte.is_ascii_lowercase() || byte.is_ascii_digit()
}

// Whether a byte may stand in a bucket's name.
fn is_bucket_byte(byte: u8) -> bool
    ensures { result ≡ is_bucket_byte byte }
{
    is_letter_or_digit(byte) || byte == b'-' || byte == b'_'
}

// The text of the unit of a bucket of an origin.
fn unit_text(alloc: Global, origin: &Key, bucket: &str) -> Result<String, AllocError>
    ensures { IfOk result (λ text. string_bytes text ≡ unit_of origin.now bucket.now) }
{
    let origin = origin.as_str();
    if bucket == "default" {
        String::from_str(alloc, origin)
    } else {
        format!(in alloc; "{origin}#{bucket}")
    }
}

// Whether URLs of a scheme have a tuple origin.
fn has_tuple_origin(scheme: &str) -> bool
    ensures { result ≡ has_tuple_origin scheme.now }
{
    scheme == "http" || scheme == "https" || scheme == "ws" || scheme == "wss" || scheme == "ftp"
}

// A URL's tuple origin as a text.
fn origin_text(alloc: Global, url: &Url) -> Result<String, AllocError>
    ensures { IfOk result (λ text. string_bytes text ≡ origin_text url.now) }
{
    let host = url.slice(Position::BeforeHost, Position::AfterPort);
    format!(in alloc; "{}://{}", url.scheme(), host)
}
