//! Examples of what is charged to the area: each a history, with another answer to its last call that is refused.

ghost use Rattle.opfs_examples.specs.Charged.{ABlockIsCharged8Bytes, MakingAFileIsCharged, AFileThatIsThereIsCharged, AModeThatIsThereIsCharged, PersistingIsCharged, ARootThatIsThereIsMadeOnce, TheAreaIsJudgedBeforeThePool};

/// Each block of the pool is charged 8 bytes.
pub fn a_block_is_charged_8_bytes()
    ensures { ABlockIsCharged8Bytes }
{}

/// A file that is made is charged.
pub fn making_a_file_is_charged()
    ensures { MakingAFileIsCharged }
{}

/// A file that is there is charged.
pub fn a_file_that_is_there_is_charged()
    ensures { AFileThatIsThereIsCharged }
{}

/// A unit that is persistent is charged for it.
pub fn a_mode_that_is_there_is_charged()
    ensures { AModeThatIsThereIsCharged }
{}

/// Making a unit persistent is charged.
pub fn persisting_is_charged()
    ensures { PersistingIsCharged }
{}

/// Where the root is there, getDirectory makes nothing and is not charged.
pub fn a_root_that_is_there_is_made_once()
    ensures { ARootThatIsThereIsMadeOnce }
{}

/// The area is judged before the pool.
pub fn the_area_is_judged_before_the_pool()
    ensures { TheAreaIsJudgedBeforeThePool }
{}
