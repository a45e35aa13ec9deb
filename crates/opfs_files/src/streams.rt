//! Standard input as a source and standard output as a sink. They tell no content, and count their errors.
ghost use Rattle.std.specs.Prelude.{◌≡◌, ◌+◌, ◌-◌, ◌^◌, ◌≤◌, ◌<◌, length, min, IfOk};
ghost use Rattle.opfs_files.specs.Shown.{source_faults, sink_faults};

use opfs_outside::{Failed, Sink, Source};
use std::io::{self, ErrorKind, Read, Write};

/// Reads, and again where the read was interrupted.
fn read_again<R: Read>(reader: &mut R, buf: &mut [u8]) -> io::Result<usize>
    ensures bound { IfOk result (λ count. count ≤ length buf.new) }
    ensures same { length buf.new ≡ length buf.old }
{
    for _ in 0..u64::MAX {
        match reader.read(buf) {
            Err(error) if error.kind() == ErrorKind::Interrupted => {}
            done => return done,
        }
    }
    Err(io::Error::from(ErrorKind::Interrupted))
}

/// A reader as a source. Its count rises at each error.
#[derive(Drop)]
pub struct StdinSource<R> {
    reader: R,
    faults: u64,
}

impl<R> StdinSource<R> {
    /// The source that a reader is.
    pub fn make(reader: R) -> StdinSource<R>
        ensures { source_faults result ≡ 0 }
    {
        StdinSource { reader, faults: 0 }
    }

    /// How many calls failed. At 2^64 - 1 it stands still.
    pub fn faults(&self) -> u64
        ensures { result ≡ source_faults self.now }
    {
        self.faults
    }

    fn fail(&mut self) -> Failed
        ensures { source_faults self.new ≡ min (source_faults self.old + 1) (2 ^ 64 - 1) }
    {
        self.faults = self.faults.saturating_add(1);
        Failed
    }
}

impl<R: Read> Source for StdinSource<R> {
    ghost use Rattle.std.specs.Prelude.{[]};
    ghost use Rattle.opfs_files.specs.Counts.{capped};

    ghost tells = { ⊥ };

    ghost rest = { λ _. [] };

    ghost faults = { source_faults };

    ghost counted = { λ source. capped source.faults };

    fn read(&mut self, buf: &mut [u8]) -> Result<usize, Failed> {
        match read_again(&mut self.reader, buf) {
            Ok(count) => Ok(count),
            Err(_) => Err(self.fail()),
        }
    }
}

/// A writer as a sink. Its count rises at each error, and where it takes nothing of a piece that is not empty.
#[derive(Drop)]
pub struct StdoutSink<W> {
    writer: W,
    faults: u64,
}

impl<W> StdoutSink<W> {
    /// The sink that a writer is.
    pub fn make(writer: W) -> StdoutSink<W>
        ensures { sink_faults result ≡ 0 }
    {
        StdoutSink { writer, faults: 0 }
    }

    /// How many calls failed. At 2^64 - 1 it stands still.
    pub fn faults(&self) -> u64
        ensures { result ≡ sink_faults self.now }
    {
        self.faults
    }

    fn fail(&mut self) -> Failed
        ensures { sink_faults self.new ≡ min (sink_faults self.old + 1) (2 ^ 64 - 1) }
    {
        self.faults = self.faults.saturating_add(1);
        Failed
    }
}

impl<W: Write> Sink for StdoutSink<W> {
    ghost use Rattle.std.specs.Prelude.{[]};
    ghost use Rattle.opfs_files.specs.Counts.{capped};

    ghost tells = { ⊥ };

    ghost written = { λ _. [] };

    ghost faults = { sink_faults };

    ghost counted = { λ sink. capped sink.faults };

    fn write(&mut self, bytes: &[u8]) -> Result<usize, Failed> {
        match self.writer.write(bytes) {
            Ok(count) if count > 0 || bytes.is_empty() => Ok(count),
            _ => Err(self.fail()),
        }
    }
}
