//! Examples of names and paths.

ghost use Rattle.opfs_examples.specs.Names.{NamesAreChecked, NamesAndPathsHaveLimits};

/// A valid file name is not empty, not a dot or two, and holds no slash; a backslash may stand in it.
pub fn names_are_checked()
    ensures { NamesAreChecked }
{}

/// A name of 256 bytes is not made, and of a chain of directories the 32nd is made and the 33rd is not.
pub fn names_and_paths_have_limits()
    ensures { NamesAndPathsHaveLimits }
{}
