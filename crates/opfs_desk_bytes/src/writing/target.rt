//! What a call puts into a row.

ghost use Rattle.std.specs.Prelude.{◌≡◌, ◌+◌, ◌-◌, ◌^◌, ◌<◌, min, true, false, if◌then◌else◌, length, replicate, IfOk};
ghost use Rattle.opfs_desk_bytes.specs.Writing.Words.{bytes_put, place_put, position_put, beside_put, writes_bytes, counts_bytes};
ghost use Rattle.opfs_desk_steps.specs.RowLaws.Puts.{puts_row, size_put};
ghost use Rattle.opfs_machine.specs.Replies.{row_named};
ghost use Rattle.opfs_machine.specs.Rulings.{start_of, size_written};

use opfs_base::Data;
use opfs_hist::Op;
use opfs_machine::Sizes;
use std::alloc::{AllocError, Global};

/// The row that a call puts bytes into, where they begin, the size and the position that it leaves, and the place whose page it
/// leaves in memory; whether it writes bytes, and whether it answers how many.
#[derive(Clone, Copy)]
pub(crate) struct Target {
    pub row: u32,
    pub at: u64,
    pub size: u64,
    pub position: u64,
    pub beside: u64,
    pub writes: bool,
    pub counts: bool,
}

// The place whose page a write of so many bytes at a position leaves in memory: a stream's offset; of an access handle the last byte.
fn place_beside(at: u64, len: u64, counts: bool) -> u64
    requires { at + len < 2 ^ 63 }
    ensures { result ≡ (if counts then at + (len - 1) else at + len) }
{
    if counts {
        return at + len.saturating_sub(1);
    }
    at + len
}

// That of a write at a position, or where the last call ended.
fn write_to(row: u32, bytes: &Data, position: Option<u64>, sizes: &Sizes, counts: bool) -> Target
    requires small { size_written sizes.now position bytes.now < 2 ^ 63 }
    ensures row { result.row ≡ row }
    ensures at { result.at ≡ start_of sizes.now position }
    ensures size { result.size ≡ size_written sizes.now position bytes.now }
    ensures position { result.position ≡ start_of sizes.now position + length bytes.now }
    ensures beside { result.beside ≡ (if counts then start_of sizes.now position + (length bytes.now - 1) else start_of sizes.now position + length bytes.now) }
    ensures writes { result.writes ≡ true }
    ensures counts { result.counts ≡ counts }
{
    let at = position.unwrap_or(sizes.position);
    let end = at + bytes.len();
    let beside = place_beside(at, bytes.len(), counts);
    Target {
        row,
        at,
        size: sizes.size.max(end),
        position: end,
        beside,
        writes: true,
        counts,
    }
}

// That of a cut or an extension.
fn cut_to(row: u32, size: u64, sizes: &Sizes) -> Target
    ensures { result ≡ record { row = row; at = 0; size = size; position = min sizes.now.position size; beside = min sizes.now.position size; writes = false; counts = false } }
{
    Target {
        row,
        at: 0,
        size,
        position: sizes.position.min(size),
        beside: sizes.position.min(size),
        writes: false,
        counts: false,
    }
}

/// That of a call, whose row has these sizes.
pub(crate) fn target_of(op: &Op, sizes: &Sizes) -> Target
    requires word { puts_row op.now ≡ true }
    requires small { size_put sizes.now op.now < 2 ^ 63 }
    ensures row { result.row ≡ row_named op.now }
    ensures at { result.at ≡ place_put sizes.now op.now }
    ensures size { result.size ≡ size_put sizes.now op.now }
    ensures position { result.position ≡ position_put sizes.now op.now }
    ensures beside { result.beside ≡ beside_put sizes.now op.now }
    ensures writes { result.writes ≡ writes_bytes op.now }
    ensures counts { result.counts ≡ counts_bytes op.now }
{
    match op {
        Op::Write {
            row,
            bytes,
            position,
        } => write_to(*row, bytes, *position, sizes, false),
        Op::Truncate { row, size } => cut_to(*row, *size, sizes),
        Op::SyncWrite { row, bytes, at } => write_to(*row, bytes, *at, sizes, true),
        Op::SyncTruncate { row, size } => cut_to(*row, *size, sizes),
        _ => unreachable!(),
    }
}

/// The bytes that a call writes, held once more: none where it gives a size. No byte is copied.
pub(crate) fn bytes_held(op: &Op) -> Result<Data, AllocError>
    requires word { puts_row op.now ≡ true }
    ensures { IfOk result (λ held. held ≡ bytes_put op.now) }
{
    match op {
        Op::Write { bytes, .. } => bytes.share(),
        Op::SyncWrite { bytes, .. } => bytes.share(),
        Op::Truncate { .. } => Ok(Data::filled(0, 0)),
        Op::SyncTruncate { .. } => Ok(Data::filled(0, 0)),
        _ => unreachable!(),
    }
}

/// One byte so many times, in memory.
pub(crate) fn spelled_out(alloc: Global, byte: u8, count: u64) -> Result<Vec<u8>, AllocError>
    ensures { IfOk result (λ bytes. bytes.items ≡ replicate count byte) }
{
    let mut bytes = Vec::new(alloc);
    bytes.resize(count as usize, byte)?;
    Ok(bytes)
}
