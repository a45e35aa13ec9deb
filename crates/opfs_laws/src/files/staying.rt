//! Files that stay.

ghost use Rattle.opfs_laws.specs.Files.Staying.{AnOpenFileStays};

/// While an agent has an access handle of a file open, what is stored of the file changes by contents of it alone: it is
/// neither removed nor cleared, and no other row is made in its place.
pub fn an_open_file_stays()
    ensures { AnOpenFileStays }
{}
