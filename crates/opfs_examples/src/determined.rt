//! Calls determine what they are answered.

ghost use Rattle.opfs_examples.specs.Determined.{CallsDetermineAnswers};

/// Two legal histories of the same calls, in which the disk has no fault, have the same answers and evictions. So each
/// other answer in one of the examples, a disk fault aside, makes its history illegal.
pub fn calls_determine_answers()
    ensures { CallsDetermineAnswers }
{}
