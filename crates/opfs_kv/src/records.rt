//! A key-value file's words: its records, the map that they stand for, and the index of where each value is.
mod batch;
mod change;
mod head;
mod index;
mod laws;
mod listing;
mod miss;
mod packing;
mod place;
mod scanning;
mod spell;

pub use batch::Batch;
pub use change::Change;
pub use index::Index;
pub use laws::{a_file_grows, one_reading, the_index_reads_the_map, the_map_by_key};
pub use listing::{cost_of, keys_between, keys_from, keys_with};
pub use miss::Miss;
pub use packing::{Packed, pack};
pub use place::Place;
pub use scanning::scan;
pub use spell::{spell_gone, spell_put};
