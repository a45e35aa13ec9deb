//! Counts in blocks.

ghost use Rattle.std.specs.Prelude.{◌≡◌, ◌+◌};
ghost use Rattle.opfs_base.specs.Blocks.{blocks};

/// How many blocks so many bytes take.
pub fn blocks(bytes: u64) -> u64
    ensures { result ≡ blocks bytes }
{
    let part = if bytes % 4096 > 0 { 1 } else { 0 };
    bytes / 4096 + part
}

/// How many blocks the bytes up to the end of a range take, whose end may be past 64 bits.
pub fn blocks_to(position: u64, len: u64) -> u64
    ensures { result ≡ blocks (position + len) }
{
    position / 4096 + len / 4096 + blocks(position % 4096 + len % 4096)
}
