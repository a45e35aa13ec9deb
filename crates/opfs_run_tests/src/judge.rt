//! Tests of the judge: transcripts of drawn scripts, as they were printed and with a line changed.
#[cfg(test)]
mod judging;
#[cfg(test)]
mod replaying;
