//! Histories without their waits.

ghost use Rattle.opfs_transcripts.specs.Waiting.Waiting.{WaitsDecideNothing};

/// Where no unit is cleared and no await is answered Stuck, the entries in which agents begin to wait change no reply: a
/// history without them is one of the same script, with the same transcript.
pub fn waits_decide_nothing()
    ensures { WaitsDecideNothing }
{}
