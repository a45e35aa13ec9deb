//! Examples of directories.

ghost use Rattle.opfs_examples.specs.Directories.{ADirectoryIsNoFile, ADirectoryGoesWithAllBelow, AnIteratorGivesWhatIsMadeLater};

/// A directory stands where a file is wanted, and the variable of a refused call names nothing.
pub fn a_directory_is_no_file()
    ensures { ADirectoryIsNoFile }
{}

/// A path is resolved, and a directory that holds something is removed with all below it, or not at all.
pub fn a_directory_goes_with_all_below()
    ensures { ADirectoryGoesWithAllBelow }
{}

/// An iterator gives each name once, also one that was made below the last one that it gave.
pub fn an_iterator_gives_what_is_made_later()
    ensures { AnIteratorGivesWhatIsMadeLater }
{}
