//! Readers as sources and writers as sinks, also such as fail.

use opfs_files::{StdinSource, StdoutSink};
use opfs_outside::{Failed, Sink, Source};
use std::io::{self, ErrorKind, Read, Write};
use std::test::Fail;

// A stream that fails where it is read, and takes nothing.
#[derive(Drop)]
struct BrokenStream;

impl Read for BrokenStream {
    fn read(&mut self, _buf: &mut [u8]) -> io::Result<usize> {
        Err(io::Error::from(ErrorKind::BrokenPipe))
    }
}

impl Write for BrokenStream {
    fn write(&mut self, _bytes: &[u8]) -> io::Result<usize> {
        Ok(0)
    }

    fn flush(&mut self) -> io::Result<()> {
        Ok(())
    }
}

// A stream whose first read is interrupted, and which then is at its end.
#[derive(Drop)]
struct InterruptedStream {
    interrupted: bool,
}

impl Read for InterruptedStream {
    fn read(&mut self, _buf: &mut [u8]) -> io::Result<usize> {
        if self.interrupted {
            return Ok(0);
        }
        self.interrupted = true;
        Err(io::Error::from(ErrorKind::Interrupted))
    }
}

#[test]
fn a_read_that_was_interrupted_is_tried_again(rt: HostRuntime) -> Result<(), Fail> {
    let mut source = StdinSource::make(InterruptedStream { interrupted: false });
    let mut bytes = [0; 2];
    assert_eq!(rt; (source.read(&mut bytes), source.faults()), (Ok(0), 0));
    Ok(())
}

/// What three reads of a stream of three bytes answer, and what stands in the buffer behind the first two.
fn read_all<R: Read>(source: &mut StdinSource<R>) -> ([Result<usize, Failed>; 3], [[u8; 2]; 2]) {
    let mut bytes = [0; 2];
    let front = source.read(&mut bytes);
    let first = bytes;
    let rest = source.read(&mut bytes);
    let second = bytes;
    let end = source.read(&mut bytes);
    ([front, rest, end], [first, second])
}

#[test]
fn a_reader_is_read_to_its_end_and_counts_where_it_fails(rt: HostRuntime) -> Result<(), Fail> {
    let mut source = StdinSource::make(b"abc".as_slice());
    assert_eq!(rt;
        read_all(&mut source),
        ([Ok(2), Ok(1), Ok(0)], [*b"ab", *b"cb"])
    );
    assert_eq!(rt; source.faults(), 0);
    let mut broken = StdinSource::make(BrokenStream);
    let answer = broken.read(&mut [0; 2]);
    assert_eq!(rt; (answer, broken.faults()), (Err(Failed), 1));
    Ok(())
}

/// What three writes answer.
fn write_all<W: Write>(sink: &mut StdoutSink<W>) -> [Result<usize, Failed>; 3] {
    [sink.write(b"abc"), sink.write(b"def"), sink.write(b"ef")]
}

#[test]
fn a_writer_takes_a_front_and_counts_where_it_takes_nothing(rt: HostRuntime) -> Result<(), Fail> {
    let mut room = [0; 4];
    let mut sink = StdoutSink::make(room.as_mut_slice());
    let answers = write_all(&mut sink);
    assert_eq!(rt; (answers, sink.faults()), ([Ok(3), Ok(1), Err(Failed)], 1));
    assert_eq!(rt; room, *b"abcd");
    let mut broken = StdoutSink::make(BrokenStream);
    let nothing = (broken.write(b""), broken.faults());
    let some = (broken.write(b"abc"), broken.faults());
    assert_eq!(rt; (nothing, some), ((Ok(0), 0), (Err(Failed), 1)));
    Ok(())
}
