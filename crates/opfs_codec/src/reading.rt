//! Changes are read.

ghost use Rattle.std.specs.Prelude.{◌≡◌, ◌+◌, ◌<◌, ◌≤◌, ◌++◌, ℕ, List, length, drop, Some, None, option_map, IfOk, IfSome, IfNone};
ghost use Rattle.opfs_codec.specs.Spelling.{spelling, IsChange, BeginsAt};
ghost use Rattle.opfs_codec.specs.declared.change.Change.{Change};
ghost use Rattle.opfs_codec.specs.Reading.{Gives, file_at, content_at, change_at};

use crate::change::{Change, Format};
use crate::fields::{extents_of, key_of, place_of, u64_at};
use crate::miss::Miss;
use std::alloc::{AllocError, Global};

/// The change of format 2 whose spelling begins at a place, and the place behind it; None where none begins there.
pub fn read(alloc: Global, bytes: &[u8], at: u64) -> Result<Option<(Change, u64)>, AllocError>
    ensures found { IfOk result (λ r. IfSome r (λ x. BeginsAt Format.New bytes.now at x.0 × (x.1 ≡ at + length (spelling Format.New x.0)))) }
    ensures none { IfOk result (λ r. IfNone r ((change : Change) → BeginsAt Format.New bytes.now at change → ⊥)) }
    ensures exact { IfOk result (λ r. option_map (λ x. (x.0, drop x.1 bytes.now)) r ≡ change_at Format.New (drop at bytes.now)) }
    ensures forth { IfOk result (λ r. IfSome r (λ x. (at < x.1) × (x.1 ≤ length bytes.now))) }
{
    read_in(alloc, Format::New, bytes, at)
}

/// The change of format 1 whose spelling begins at a place, and the place behind it; None where none begins there.
pub fn read_old(alloc: Global, bytes: &[u8], at: u64) -> Result<Option<(Change, u64)>, AllocError>
    ensures found { IfOk result (λ r. IfSome r (λ x. BeginsAt Format.Old bytes.now at x.0 × (x.1 ≡ at + length (spelling Format.Old x.0)))) }
    ensures none { IfOk result (λ r. IfNone r ((change : Change) → BeginsAt Format.Old bytes.now at change → ⊥)) }
    ensures exact { IfOk result (λ r. option_map (λ x. (x.0, drop x.1 bytes.now)) r ≡ change_at Format.Old (drop at bytes.now)) }
    ensures forth { IfOk result (λ r. IfSome r (λ x. (at < x.1) × (x.1 ≤ length bytes.now))) }
{
    read_in(alloc, Format::Old, bytes, at)
}

/// No change's spelling begins another's, so what was written is read again, whatever follows it.
pub fn one_spelling(_format: Format)
    ensures { (a b : Change) (x y : List ℕ) → IsChange _format a → IsChange _format b → spelling _format a ++ x ≡ spelling _format b ++ y → (a ≡ b) × (x ≡ y) }
{}

// The change of a format whose spelling begins at a place.
fn read_in(
    alloc: Global,
    format: Format,
    bytes: &[u8],
    at: u64,
) -> Result<Option<(Change, u64)>, AllocError>
    ensures found { IfOk result (λ r. IfSome r (λ x. BeginsAt format bytes.now at x.0 × (x.1 ≡ at + length (spelling format x.0)))) }
    ensures none { IfOk result (λ r. IfNone r ((change : Change) → BeginsAt format bytes.now at change → ⊥)) }
    ensures exact { IfOk result (λ r. option_map (λ x. (x.0, drop x.1 bytes.now)) r ≡ change_at format (drop at bytes.now)) }
    ensures forth { IfOk result (λ r. IfSome r (λ x. (at < x.1) × (x.1 ≤ length bytes.now))) }
{
    if at > bytes.len() as u64 {
        return Ok(None);
    }
    let rest = &bytes[at as usize..];
    let len = rest.len();
    match change_of(alloc, format, rest) {
        Ok((change, after)) => {
            let taken = len - after.len();
            Ok(Some((change, at + taken as u64)))
        }
        Err(Miss::Spelling) => Ok(None),
        Err(Miss::Memory) => Err(AllocError),
    }
}

// The making of a file.
#[tactic(auto, unfolding(crate::specs::Reading::file_at))]
fn file_of(alloc: Global, format: Format, bytes: &[u8]) -> Result<(Change, &[u8]), Miss>
    ensures { Gives (λ x. (x.0, x.1.now)) result (file_at format bytes.now) }
{
    let ((unit, path), rest) = place_of(alloc, format, bytes)?;
    let (stamp, rest) = u64_at(rest)?;
    Ok((Change::MakeFile(unit, path, stamp), rest))
}

// The content of a file.
#[tactic(auto, unfolding(crate::specs::Reading::content_at))]
fn content_of(alloc: Global, format: Format, bytes: &[u8]) -> Result<(Change, &[u8]), Miss>
    ensures { Gives (λ x. (x.0, x.1.now)) result (content_at format bytes.now) }
{
    let ((unit, path), rest) = place_of(alloc, format, bytes)?;
    let (stamp, rest) = u64_at(rest)?;
    let (length, rest) = u64_at(rest)?;
    let (extents, rest) = extents_of(alloc, rest)?;
    Ok((Change::Content(unit, path, stamp, length, extents), rest))
}

// A change.
#[tactic(auto, unfolding(crate::specs::Reading::change_at))]
fn change_of(alloc: Global, format: Format, bytes: &[u8]) -> Result<(Change, &[u8]), Miss>
    ensures { Gives (λ x. (x.0, x.1.now)) result (change_at format bytes.now) }
{
    match bytes {
        [1, rest @ ..] => {
            let (unit, rest) = key_of(alloc, format, rest)?;
            Ok((Change::MakeRoot(unit), rest))
        }
        [2, rest @ ..] => {
            let ((unit, path), rest) = place_of(alloc, format, rest)?;
            Ok((Change::MakeDir(unit, path), rest))
        }
        [3, rest @ ..] => file_of(alloc, format, rest),
        [4, rest @ ..] => {
            let ((unit, path), rest) = place_of(alloc, format, rest)?;
            Ok((Change::Remove(unit, path), rest))
        }
        [5, rest @ ..] => content_of(alloc, format, rest),
        [6, rest @ ..] => {
            let (unit, rest) = key_of(alloc, format, rest)?;
            Ok((Change::Persist(unit), rest))
        }
        [7, rest @ ..] => {
            let (unit, rest) = key_of(alloc, format, rest)?;
            Ok((Change::Evict(unit), rest))
        }
        _ => Err(Miss::Spelling),
    }
}
