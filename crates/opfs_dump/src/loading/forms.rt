//! The forms of rows.

ghost use Rattle.std.specs.Prelude.{codes, map};
ghost use Rattle.serde_json.specs.View.{view};
ghost use Rattle.opfs_script.specs.Members.{text};
ghost use Rattle.opfs_dump.specs.Text.Reading.{bytes_in, document_in, file_in, folder_in, name_of, names_of, path_in, place_in, row_in};
ghost use Rattle.opfs_dump.specs.Text.Seen.{row_of, document_of};
ghost use Rattle.opfs_dump.specs.Loading.Answers.{Reads};

use crate::loading::fault::Fault;
use crate::loading::members::{has_only, number, text_of, values};
use crate::text::{DumpedFile, DumpedRow};
use hex::FromHexError;
use opfs_base::{Bytes, Key, Name, Path, is_valid_name};
use opfs_machine::Place;
use serde_json::Value;
use std::alloc::Global;

// A valid file name.
fn name_of(alloc: Global, value: &Value) -> Result<Name, Fault>
    ensures { Reads (λ name. name) result (name_of (view value.now)) }
{
    let Some(text) = value.as_str() else {
        return Err(Fault::Form);
    };
    if !is_valid_name(text) {
        return Err(Fault::Form);
    }
    match Name::read(alloc, text) {
        Ok(name) => Ok(name),
        Err(_) => Err(Fault::Memory),
    }
}

// Valid file names.
fn names_of(alloc: Global, values: &[Value]) -> Result<Vec<Name>, Fault>
    ensures { Reads (λ names. names.items) result (names_of (map view values.now)) }
{
    let mut names = Vec::new(alloc);
    for value in values {
        match name_of(alloc, value) {
            Ok(name) => names.push(name)?,
            Err(fault) => return Err(fault),
        }
    }
    Ok(names)
}

// The unit of a row.
fn key_in(alloc: Global, value: &Value) -> Result<Key, Fault>
    ensures { Reads (λ key. key) result (text (codes "key") (view value.now)) }
{
    let Some(text) = text_of(value, "key") else {
        return Err(Fault::Form);
    };
    match Key::of_text(alloc, text) {
        Ok(key) => Ok(key),
        Err(_) => Err(Fault::Memory),
    }
}

// The path of a row.
fn path_in(alloc: Global, value: &Value) -> Result<Path, Fault>
    ensures { Reads (λ path. path) result (path_in (view value.now)) }
{
    let Some(items) = values(value, "path") else {
        return Err(Fault::Form);
    };
    let names = names_of(alloc, items)?;
    Ok(Path::from_vec(names))
}

// The place of a row.
fn place_in(alloc: Global, value: &Value) -> Result<Place, Fault>
    ensures { Reads (λ place. place) result (place_in (view value.now)) }
{
    let key = key_in(alloc, value)?;
    let path = path_in(alloc, value)?;
    Ok((key, path))
}

// The bytes of a file.
fn bytes_in(alloc: Global, value: &Value) -> Result<Bytes, Fault>
    ensures { Reads (λ bytes. bytes) result (bytes_in (view value.now)) }
{
    let Some(digits) = text_of(value, "hex") else {
        return Err(Fault::Form);
    };
    match hex::decode(alloc, digits.as_bytes()) {
        Ok(bytes) => Ok(Bytes::from_vec(bytes)),
        Err(FromHexError::OutOfMemory) => Err(Fault::Memory),
        Err(_) => Err(Fault::Form),
    }
}

// The bytes and the time stamp of a file.
fn file_in(alloc: Global, value: &Value) -> Result<DumpedFile, Fault>
    ensures { Reads document_of result (file_in (view value.now)) }
{
    let bytes = bytes_in(alloc, value)?;
    match number(value, "stamp") {
        Some(stamp) => Ok(DumpedFile { bytes, stamp }),
        None => Err(Fault::Form),
    }
}

// A directory.
fn folder_in(alloc: Global, value: &Value) -> Result<DumpedRow, Fault>
    ensures { Reads row_of result (folder_in (view value.now)) }
{
    let place = place_in(alloc, value)?;
    Ok(DumpedRow { place, file: None })
}

// A file.
fn document_in(alloc: Global, value: &Value) -> Result<DumpedRow, Fault>
    ensures { Reads row_of result (document_in (view value.now)) }
{
    let place = place_in(alloc, value)?;
    let file = file_in(alloc, value)?;
    Ok(DumpedRow {
        place,
        file: Some(file),
    })
}

/// A row.
#[tactic(auto, unfolding(crate::specs::Text::Reading::row_in))]
pub(crate) fn row_in(alloc: Global, value: &Value) -> Result<DumpedRow, Fault>
    ensures { Reads row_of result (row_in (view value.now)) }
{
    if has_only(value, &["key", "path"]) {
        return folder_in(alloc, value);
    }
    if has_only(value, &["hex", "key", "path", "stamp"]) {
        return document_in(alloc, value);
    }
    Err(Fault::Form)
}
