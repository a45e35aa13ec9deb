//! Laws of images.
ghost use Rattle.std.specs.Prelude.{◌≡◌, ◌↔◌, ℕ, List, Ok};
ghost use Rattle.opfs_codec.specs.declared.change.Format.{Format};
ghost use Rattle.opfs_outside.specs.Bytes.{Same};
ghost use Rattle.opfs_records.specs.Replay.Built.{Built};
ghost use Rattle.opfs_image.specs.Filling.{Names, filled};
ghost use Rattle.opfs_image.specs.Layers.{IsLayered};
ghost use Rattle.opfs_image.specs.Reading.{Image, read_as};

/// An image is read as what the records of its journal build.
pub fn an_image_is_what_its_records_build()
    ensures { (wanted counted : Format) (c : List ℕ) (image : Image) → (read_as wanted counted c ≡ Ok image) ↔ IsLayered wanted counted c image }
{}

/// What an image stands for depends on no data block but those that its files name.
pub fn only_named_blocks_matter()
    ensures { (base : ℕ) (b : Built) (c d : List ℕ) → Same (Names base b) c d → filled base c b ≡ filled base d b }
{}
