//! Runs of pages that are to be written.

ghost use Rattle.std.specs.Prelude.{◌≡◌, ◌+◌, ◌-◌, ◌*◌, ◌^◌, ◌<◌, ◌≤◌, length, take, drop};
ghost use Rattle.opfs_data.specs.Writes.{IsRun, IsWithin, source_bytes};

use opfs_base::BLOCK_SIZE;
use std::marker::Model;

/// What the bytes of a run are taken from.
#[derive(Clone, Copy, PartialEq, Drop)]
pub enum Source {
    /// The bytes of the call.
    Given,
    /// The bytes that the list keeps.
    Own,
}

/// So many pages from one on, which go into so many blocks from one on.
#[derive(Drop)]
pub struct PageRun {
    page: u64,
    count: u32,
    block: u32,
    from: u64,
    source: Source,
}

impl Model for PageRun {
    ghost use Rattle.opfs_data.specs.Writes.{Run, IsRun};

    ghost Value = { Run };

    ghost view = { λ r. record { page = r.page; count = r.count; block = r.block; from = r.from; source = r.source } };

    ghost invariant = { λ r. IsRun (record { page = r.page; count = r.count; block = r.block; from = r.from; source = r.source }) };
}

impl PageRun {
    /// A run. Its bytes begin at one of what they are taken from.
    pub fn make(page: u64, count: u32, block: u32, from: u64, source: Source) -> PageRun
        requires { IsRun (record { page = page; count = count; block = block; from = from; source = source }) }
        ensures { result ≡ record { page = page; count = count; block = block; from = from; source = source } }
    {
        PageRun {
            page,
            count,
            block,
            from,
            source,
        }
    }

    /// The first page.
    pub fn page(&self) -> u64
        ensures page { result ≡ self.now.page }
        ensures small { result + self.now.count < 2 ^ 63 }
    {
        self.page
    }

    /// How many pages there are.
    pub fn count(&self) -> u32
        ensures count { result ≡ self.now.count }
        ensures some { 0 < result }
    {
        self.count
    }

    /// The block of the first page.
    pub fn block(&self) -> u32
        ensures block { result ≡ self.now.block }
        ensures small { result + self.now.count ≤ 2 ^ 32 }
    {
        self.block
    }

    /// The bytes of the run.
    pub fn bytes<'a>(&self, own: &'a [u8], given: &'a [u8]) -> &'a [u8]
        requires { IsWithin own.now given.now self.now }
        ensures bytes { result.now ≡ take (4096 * self.now.count) (drop self.now.from (source_bytes own.now given.now self.now.source)) }
        ensures length { length result.now ≡ 4096 * self.now.count }
        ensures some { 0 < length result.now }
    {
        let source = match self.source {
            Source::Given => given,
            Source::Own => own,
        };
        let from = self.from as usize;
        &source[from..from + (u64::from(self.count) * BLOCK_SIZE) as usize]
    }

    /// So many pages of the run from one on, with another first block.
    pub fn part(&self, done: u32, count: u32, block: u32) -> PageRun
        requires inside { done + count ≤ self.now.count }
        requires some { 0 < count }
        requires blocks { block + count ≤ 2 ^ 32 }
        ensures { result ≡ record { page = self.now.page + done; count = count; block = block; from = self.now.from + 4096 * done; source = self.now.source } }
    {
        PageRun {
            page: self.page + u64::from(done),
            count,
            block,
            from: self.from + u64::from(done) * BLOCK_SIZE,
            source: self.source,
        }
    }
}
