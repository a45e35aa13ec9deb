//! What crates of tests share: commands of the program over hosts in memory, the images that these leave, verdicts on
//! transcripts, and scripts that are drawn from numbers.
//!
//! It stands on `opfs_top`; on it stands `opfs_cases`.
#![tactic(auto)]

mod altering;
mod asking;
mod asks;
mod drawing;
mod images;
mod judging;

pub use altering::{CHANGES, Change, altered, lines_of};
pub use asking::{
    asked, bytes_of, done, ran, ran_alone, ran_within, run, run_behind, run_over, tried,
};
pub use asks::{Ask, first_other};
pub use drawing::{Deck, Draws, FEW_NAMES, push_agent, script_of};
pub use images::{calls, checked, content, host, host_among, host_with, image_after, new_image};
pub use judging::{judged, lines_with};
