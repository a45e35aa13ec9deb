//! The fields of changes, read from the front of bytes.

ghost use Rattle.std.specs.Prelude.{◌≡◌, List, true, length, Some, None, if◌then◌else◌, IsTrue, IfOk};
ghost use Rattle.std.specs.Int.{w8, w16, w32, w64};
ghost use Rattle.std.specs.Str.{is_utf8};
ghost use Rattle.opfs_base.specs.Keys.{is_origin};
ghost use Rattle.opfs_base.specs.Names.{is_valid_name};
ghost use Rattle.opfs_base.specs.Units.{is_bucket_name};
ghost use Rattle.opfs_codec.specs.Spelling.{is_key_text, is_origin_text};
ghost use Rattle.opfs_codec.specs.Reading.{Gives, number_at, bytes_at, text_at, unit_at, key_at, items_at, name_at, path_at, extent_at, extents_at, place_at};

use crate::change::Format;
use crate::miss::Miss;
use opfs_base::{Extent, Extents, Key, Name, Path, is_bucket_name, is_valid_name};
use std::alloc::Global;

fn u8_at(bytes: &[u8]) -> Result<(u8, &[u8]), Miss>
    ensures { Gives (λ x. (x.0, x.1.now)) result (number_at w8 bytes.now) }
{
    if bytes.is_empty() {
        return Err(Miss::Spelling);
    }
    let (front, rest) = bytes.split_at(1);
    Ok((front[0], rest))
}

fn u16_at(bytes: &[u8]) -> Result<(u16, &[u8]), Miss>
    ensures { Gives (λ x. (x.0, x.1.now)) result (number_at w16 bytes.now) }
{
    if bytes.len() < 2 {
        return Err(Miss::Spelling);
    }
    let (front, rest) = bytes.split_at(2);
    Ok((u16::from_le_bytes([front[0], front[1]]), rest))
}

fn u32_at(bytes: &[u8]) -> Result<(u32, &[u8]), Miss>
    ensures { Gives (λ x. (x.0, x.1.now)) result (number_at w32 bytes.now) }
{
    if bytes.len() < 4 {
        return Err(Miss::Spelling);
    }
    let (front, rest) = bytes.split_at(4);
    let number = u32::from_le_bytes([front[0], front[1], front[2], front[3]]);
    Ok((number, rest))
}

/// A number of 8 bytes.
pub fn u64_at(bytes: &[u8]) -> Result<(u64, &[u8]), Miss>
    ensures { Gives (λ x. (x.0, x.1.now)) result (number_at w64 bytes.now) }
{
    if bytes.len() < 8 {
        return Err(Miss::Spelling);
    }
    let (front, rest) = bytes.split_at(8);
    let number = u64::from_le_bytes([
        front[0], front[1], front[2], front[3], front[4], front[5], front[6], front[7],
    ]);
    Ok((number, rest))
}

// Bytes behind their number in one byte.
#[tactic(auto, unfolding(crate::specs::Reading::bytes_at))]
fn short_at(bytes: &[u8]) -> Result<(&[u8], &[u8]), Miss>
    ensures { Gives (λ x. (x.0.now, x.1.now)) result (bytes_at w8 bytes.now) }
{
    let (len, rest) = u8_at(bytes)?;
    let len = len as usize;
    if rest.len() < len {
        return Err(Miss::Spelling);
    }
    Ok(rest.split_at(len))
}

// Bytes behind their number in two bytes.
#[tactic(auto, unfolding(crate::specs::Reading::bytes_at))]
fn long_at(bytes: &[u8]) -> Result<(&[u8], &[u8]), Miss>
    ensures { Gives (λ x. (x.0.now, x.1.now)) result (bytes_at w16 bytes.now) }
{
    let (len, rest) = u16_at(bytes)?;
    let len = len as usize;
    if rest.len() < len {
        return Err(Miss::Spelling);
    }
    Ok(rest.split_at(len))
}

// Bytes as a text.
fn str_of(bytes: &[u8]) -> Result<&str, Miss>
    ensures { Gives (λ x. x.now) result (if is_utf8 bytes.now then Some bytes.now else None) }
{
    match str::from_utf8(bytes) {
        Ok(text) => Ok(text),
        Err(_) => Err(Miss::Spelling),
    }
}

fn is_key_text(text: &str) -> bool
    ensures { result ≡ is_key_text text.now }
{
    1 <= text.len() && text.len() <= 255
}

fn is_origin_text(text: &str) -> bool
    ensures { result ≡ is_origin_text text.now }
{
    is_key_text(text) && !text.as_bytes().contains(&b'#')
}

// A key's text.
#[tactic(auto, unfolding(crate::specs::Reading::text_at))]
fn key_text_at(bytes: &[u8]) -> Result<(&str, &[u8]), Miss>
    ensures { Gives (λ x. (x.0.now, x.1.now)) result (text_at w16 is_key_text bytes.now) }
{
    let (text, rest) = long_at(bytes)?;
    let text = str_of(text)?;
    if !is_key_text(text) {
        return Err(Miss::Spelling);
    }
    Ok((text, rest))
}

// An origin's key.
#[tactic(auto, unfolding(crate::specs::Reading::text_at))]
fn origin_at(bytes: &[u8]) -> Result<(&str, &[u8]), Miss>
    ensures gives { Gives (λ x. (x.0.now, x.1.now)) result (text_at w16 is_origin_text bytes.now) }
    ensures origin { IfOk result (λ x. IsTrue (is_origin x.0.now)) }
{
    let (text, rest) = long_at(bytes)?;
    let text = str_of(text)?;
    if !is_origin_text(text) {
        return Err(Miss::Spelling);
    }
    Ok((text, rest))
}

// A bucket's name.
#[tactic(auto, unfolding(crate::specs::Reading::text_at))]
fn bucket_at(bytes: &[u8]) -> Result<(&str, &[u8]), Miss>
    ensures gives { Gives (λ x. (x.0.now, x.1.now)) result (text_at w8 is_bucket_name bytes.now) }
    ensures bucket { IfOk result (λ x. is_bucket_name x.0.now ≡ true) }
{
    let (text, rest) = short_at(bytes)?;
    let text = str_of(text)?;
    if !is_bucket_name(text) {
        return Err(Miss::Spelling);
    }
    Ok((text, rest))
}

// A name.
#[tactic(auto, unfolding(crate::specs::Reading::name_at, crate::specs::Reading::text_at))]
fn name_of(alloc: Global, bytes: &[u8]) -> Result<(Name, &[u8]), Miss>
    ensures { Gives (λ x. (x.0, x.1.now)) result (name_at bytes.now) }
{
    let (text, rest) = short_at(bytes)?;
    let text = str_of(text)?;
    if !is_valid_name(text) {
        return Err(Miss::Spelling);
    }
    let name = Name::read(alloc, text)?;
    Ok((name, rest))
}

// A unit: its origin's key and its bucket's name.
#[tactic(auto, unfolding(crate::specs::Reading::unit_at))]
fn unit_of(alloc: Global, bytes: &[u8]) -> Result<(Key, &[u8]), Miss>
    ensures { Gives (λ x. (x.0, x.1.now)) result (unit_at bytes.now) }
{
    let (origin, rest) = origin_at(bytes)?;
    let (bucket, rest) = bucket_at(rest)?;
    let origin = Key::of_text(alloc, origin)?;
    match Key::unit(alloc, &origin, bucket) {
        Ok(unit) => Ok((unit, rest)),
        Err(_) => Err(Miss::Memory),
    }
}

/// A key.
#[tactic(auto, unfolding(crate::specs::Reading::key_at))]
pub fn key_of(alloc: Global, format: Format, bytes: &[u8]) -> Result<(Key, &[u8]), Miss>
    ensures { Gives (λ x. (x.0, x.1.now)) result (key_at format bytes.now) }
{
    match format {
        Format::Old => {
            let (text, rest) = key_text_at(bytes)?;
            Ok((Key::of_text(alloc, text)?, rest))
        }
        Format::New => unit_of(alloc, bytes),
    }
}

// So many names.
fn names_of(alloc: Global, count: u8, bytes: &[u8]) -> Result<(Vec<Name>, &[u8]), Miss>
    ensures { Gives (λ x. (x.0.items, x.1.now)) result (items_at name_at count bytes.now) }
{
    let mut names = Vec::new(alloc);
    let mut rest = bytes;
    for _ in 0..count {
        let (name, after) = name_of(alloc, rest)?;
        names.push(name)?;
        rest = after;
    }
    Ok((names, rest))
}

/// A path.
#[tactic(auto, unfolding(crate::specs::Reading::path_at))]
pub fn path_of(alloc: Global, bytes: &[u8]) -> Result<(Path, &[u8]), Miss>
    ensures { Gives (λ x. (x.0, x.1.now)) result (path_at bytes.now) }
{
    let (count, rest) = u8_at(bytes)?;
    let (names, rest) = names_of(alloc, count, rest)?;
    Ok((Path::from_vec(names), rest))
}

// An extent.
#[tactic(auto, unfolding(crate::specs::Reading::extent_at))]
fn extent_of(bytes: &[u8]) -> Result<(Extent, &[u8]), Miss>
    ensures { Gives (λ x. (x.0, x.1.now)) result (extent_at bytes.now) }
{
    let (start, rest) = u32_at(bytes)?;
    let (count, rest) = u32_at(rest)?;
    Ok((Extent { start, count }, rest))
}

// So many extents.
fn runs_of(alloc: Global, count: u32, bytes: &[u8]) -> Result<(Vec<Extent>, &[u8]), Miss>
    ensures { Gives (λ x. (x.0.items, x.1.now)) result (items_at extent_at count bytes.now) }
{
    let mut runs = Vec::new(alloc);
    let mut rest = bytes;
    for _ in 0..count {
        let (run, after) = extent_of(rest)?;
        runs.push(run)?;
        rest = after;
    }
    Ok((runs, rest))
}

/// Extents.
#[tactic(auto, unfolding(crate::specs::Reading::extents_at))]
pub fn extents_of(alloc: Global, bytes: &[u8]) -> Result<(Extents, &[u8]), Miss>
    ensures { Gives (λ x. (x.0, x.1.now)) result (extents_at bytes.now) }
{
    let (count, rest) = u32_at(bytes)?;
    let (runs, rest) = runs_of(alloc, count, rest)?;
    Ok((Extents::from_vec(runs), rest))
}

/// A unit and a path.
#[tactic(auto, unfolding(crate::specs::Reading::place_at))]
pub fn place_of(alloc: Global, format: Format, bytes: &[u8]) -> Result<((Key, Path), &[u8]), Miss>
    ensures { Gives (λ x. ((x.0.0, x.0.1), x.1.now)) result (place_at format bytes.now) }
{
    let (unit, rest) = key_of(alloc, format, bytes)?;
    let (path, rest) = path_of(alloc, rest)?;
    Ok(((unit, path), rest))
}
