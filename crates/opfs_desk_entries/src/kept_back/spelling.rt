//! The root or entry that a call makes or removes, and the change as it is spelled.

ghost use Rattle.std.specs.Option.{option_copied};
ghost use Rattle.std.specs.Prelude.{◌≡◌, ◌<◌, ◌^◌, true, is_some, IfOk, IsTrue};
ghost use Rattle.std.specs.Str.{is_utf8};
ghost use Rattle.opfs_base.specs.Names.{is_valid_name};
ghost use Rattle.opfs_base.specs.Places.{place_of, child};
ghost use Rattle.opfs_codec.specs.Fields.{plain};
ghost use Rattle.opfs_desk_entries.specs.KeptBack.Keeping.{is_of_entry, is_well_named, root_place, entry_name, entry_place, change_of};

use opfs_base::{Key, Locator, Text};
use opfs_codec::ChangeRef;
use opfs_hist::Op;
use opfs_machine::{Place, child_place, root_of};
use std::alloc::{AllocError, Global};

// The place of a child. Its name is a text.
fn named_place(alloc: Global, dir: &Locator, name: &Text) -> Result<Place, AllocError>
    requires { IsTrue (is_valid_name name.now) }
    ensures place { IfOk result (λ place. place ≡ child (place_of dir.now) name.now) }
    ensures text { is_utf8 name.now ≡ true }
{
    let _text = name.as_str();
    child_place(alloc, dir, name)
}

// The place of a bucket's root, for an agent with a key. The bucket's name is a text.
fn bucket_place(alloc: Global, key: Option<&Key>, bucket: &Text) -> Result<Place, AllocError>
    requires keyed { is_some (option_copied key) ≡ true }
    ensures place { IfOk result (λ place. place ≡ root_place bucket.now (option_copied key.entry)) }
    ensures text { is_utf8 bucket.now ≡ true }
{
    let _text = bucket.as_str();
    match key {
        Some(key) => root_of(alloc, key, bucket),
        None => unreachable!(),
    }
}

/// The place of the root or entry that a call makes or removes, in memory of its own. Its name is a text.
pub(crate) fn entry_of(alloc: Global, key: Option<&Key>, op: &Op) -> Result<Place, AllocError>
    requires word { is_of_entry op.now ≡ true }
    requires name { IsTrue (is_well_named (option_copied key) op.now) }
    ensures place { IfOk result (λ place. place ≡ entry_place (option_copied key.entry) op.now) }
    ensures text { is_utf8 (entry_name op.now) ≡ true }
{
    match op {
        Op::GetDirectory { bucket } => bucket_place(alloc, key, bucket),
        Op::GetDirectoryHandle { dir, name, .. } => named_place(alloc, dir, name),
        Op::GetFileHandle { dir, name, .. } => named_place(alloc, dir, name),
        Op::RemoveEntry { dir, name, .. } => named_place(alloc, dir, name),
        _ => unreachable!(),
    }
}

/// The change that a call makes at the place of its entry.
#[tactic(auto, unfolding(opfs_codec::specs::Fields::plain))]
pub(crate) fn spelled<'a>(op: &Op, place: &'a Place, moment: u64) -> ChangeRef<'a>
    requires word { is_of_entry op.now ≡ true }
    ensures is { plain result ≡ change_of moment place.now op.now }
    ensures small { moment < 2 ^ 64 }
{
    match op {
        Op::GetDirectory { .. } => ChangeRef::MakeRoot(&place.0),
        Op::GetDirectoryHandle { .. } => ChangeRef::MakeDir(&place.0, &place.1),
        Op::GetFileHandle { .. } => ChangeRef::MakeFile(&place.0, &place.1, moment),
        Op::RemoveEntry { .. } => ChangeRef::Remove(&place.0, &place.1),
        _ => unreachable!(),
    }
}
