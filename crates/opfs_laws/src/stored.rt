//! What is stored for good.

ghost use Rattle.opfs_laws.specs.Builds.{ChangesBuildTheDurablePart};
ghost use Rattle.opfs_laws.specs.Contents.{OnlyTheHolderStoresItsFile};

/// What the changes of a legal history build from the opening is the part of its last state that is stored for good. A
/// refused call, a disk fault and a local call add no change.
pub fn changes_build_the_durable_part()
    ensures { ChangesBuildTheDurablePart }
{}

/// While an agent has an access handle of a file open, only its own calls store a content of that file.
pub fn only_the_holder_stores_its_file()
    ensures { OnlyTheHolderStoresItsFile }
{}
