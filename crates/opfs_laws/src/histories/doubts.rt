//! What a disk fault leaves in doubt.

ghost use Rattle.opfs_laws.specs.Histories.Doubts.{ADoubtStays};

/// What is in doubt is told by the place of an entry, and stays as the history goes on. An entry that comes next leaves
/// the eviction of its next victim in doubt, or what it would have stored.
pub fn a_doubt_stays()
    ensures { ADoubtStays }
{}
