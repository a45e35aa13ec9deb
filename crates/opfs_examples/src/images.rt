//! Worked examples of images: what small images stand for, byte by byte, and why others are refused. Each is the contract
//! of a function that does nothing.
ghost use Rattle.std.specs.Prelude.{◌≡◌, List, ℕ, Some, Err};
ghost use Rattle.opfs_codec.specs.declared.change.Format.{Format};
ghost use Rattle.opfs_codec.specs.declared.change.Format.TheVariants.{Old, New};
ghost use Rattle.opfs_image.specs.Filling.{Stands, StandsOld};
ghost use Rattle.opfs_image.specs.Reading.{read_as};
ghost use Rattle.opfs_image.specs.declared.refusal.ImageRefusal.TheVariants as refusal;
ghost use Rattle.opfs_records.specs.Replay.Applying.{built_by};
ghost use Rattle.opfs_records.specs.Replay.Built.{nothing_built};
ghost use Rattle.opfs_records.specs.Replay.Sums.{charge_of};
ghost use Rattle.opfs_examples.specs.Images.Notes.{changes, note_built, note_image, note_map};
ghost use Rattle.opfs_examples.specs.Images.Refused.{cut_image, other_image, old_image, shut_image, bad_image, cut_record_image};

/// A record that makes a root, makes a file and stores its 5 bytes builds just these, in both formats. The charge is 108
/// in format 1 and 132 in format 2.
pub fn a_record_builds_a_note()
    ensures built { (f : Format) → built_by f 1 (changes f) nothing_built ≡ Some note_built }
    ensures old_charge { charge_of Old note_built ≡ 108 }
    ensures charge { charge_of New note_built ≡ 132 }
{}

/// An image with that record stands for the file `note` with the bytes `hello` of its block, in both formats.
pub fn an_image_with_a_note_stands_for_it()
    ensures old { StandsOld (note_image Old) note_map }
    ensures new { Stands (note_image New) note_map }
{}

/// Images are refused: one that is cut below a superblock; one that begins otherwise; one whose area rules in format 1; one
/// without an open first gate; one whose second record is none; and one whose first record has no length.
pub fn damaged_images_are_refused()
    ensures short { read_as New New cut_image ≡ Err refusal.Short }
    ensures magic { read_as New New other_image ≡ Err refusal.Magic }
    ensures old { read_as New New old_image ≡ Err refusal.Old }
    ensures no_area { read_as New New shut_image ≡ Err refusal.NoArea }
    ensures bad { read_as New New bad_image ≡ Err (refusal.BadRecord 4102) }
    ensures cut { read_as New New cut_record_image ≡ Err (refusal.BadRecord 4096) }
{}
