//! A key-value file: a map from keys to values in one file, through one access handle of an agent. An index in memory has each
//! key with the place of its value, and no value.
//!
//! It stands on `opfs_codec` and `opfs_sync_files`; on it stands `opfs_notebook`.
#![tactic(auto)]

mod applying;
mod changing;
mod commands;
mod compacting;
mod getting;
mod kv;
mod listing;
mod notes;
mod opening;
mod records;
mod stop;
mod storing;
mod tidy_flush;
mod tidying;

pub use commands::{KvOp, KvReplies, KvReply, kv_run};
pub use kv::Kv;
pub use records::{
    Batch, Index, Miss, Packed, Place, a_file_grows, one_reading, pack, scan, spell_gone,
    spell_put, the_index_reads_the_map, the_map_by_key,
};
pub use stop::KvStop;
pub use tidying::Tidying;
