//! A port over streams of the system.

ghost use Rattle.std.specs.Prelude.{◌≡◌, ◌∷◌, ◌++◌, ◌+◌, ◌-◌, ◌^◌, ◌≤◌, [], length, min, IfOk, IfSome, OnOk, IsErrOf};
ghost use Rattle.std.specs.Io.BufRead.{DropsThrough};
ghost use Rattle.std.specs.Io.KnownBytes.{Appends};
ghost use Rattle.opfs_outside.specs.Faults.{Rose};
ghost use Rattle.opfs_port.specs.Lines.{IsHeard};
ghost use Rattle.opfs_port.specs.Shown.{stream_faults, stream_input, stream_output};

use crate::port::{Heard, Port, PortFault};
use crate::reading::read_line;
use crate::writing::put_line;
use opfs_hall::Told;
use std::alloc::{AllocError, Global};
use std::io::{BufReader, Read, Write};

/// As many bytes as a pipe holds, so that a line with a page's digits, and the next, take one read.
const READ_AHEAD: usize = 65_536;

/// A reader and a writer as a port. It tells no content, and counts its errors. Where hearing or telling failed once it fails
/// from then on, so that no part of a line is taken for a line.
#[derive(Drop)]
pub struct StreamPort<R, W> {
    reader: BufReader<R>,
    writer: W,
    text: Vec<u8>,
    is_deaf: bool,
    is_mute: bool,
    faults: u64,
}

impl<R, W> StreamPort<R, W> {
    /// The port that a reader and a writer are.
    pub fn make(alloc: Global, reader: R, writer: W) -> Result<StreamPort<R, W>, AllocError>
    where
        R: Read + Drop,
        W: Write + Drop,
        ensures faults { IfOk result (λ port. stream_faults port ≡ 0) }
        ensures input { IfOk result (λ port. stream_input R.remaining port ≡ R.remaining reader) }
        ensures output { IfOk result (λ port. stream_output W.contents port ≡ W.contents writer) }
    {
        match BufReader::with_capacity(alloc, READ_AHEAD, reader) {
            Ok(reader) => Ok(StreamPort {
                reader,
                writer,
                text: Vec::new(alloc),
                is_deaf: false,
                is_mute: false,
                faults: 0,
            }),
            Err(_) => Err(AllocError),
        }
    }

    /// How many calls failed. At 2^64 - 1 it stands still.
    pub fn faults(&self) -> u64
        ensures { result ≡ stream_faults self.now }
    {
        self.faults
    }

    fn fail(&mut self) -> PortFault
        ensures fault { result ≡ PortFault.Stream }
        ensures counted { stream_faults self.new ≡ min (stream_faults self.old + 1) (2 ^ 64 - 1) }
    {
        self.faults = self.faults.saturating_add(1);
        PortFault::Stream
    }
}

impl<T, R: Read, W: Write> Port<T> for StreamPort<R, W> {
    ghost use Rattle.std.specs.Prelude.{[]};
    ghost use Rattle.opfs_port.specs.Counts.{capped};

    ghost tells = { ⊥ };

    ghost said = { λ _. [] };

    ghost rest = { λ _. [] };

    ghost faults = { stream_faults };

    ghost counted = { λ port. capped port.faults };

    fn hear(&mut self, line: &mut Vec<u8>, most: usize) -> Result<Heard, PortFault>
        ensures short { IfOk result (λ h. h ≡ Heard.Line → length line.new.items ≤ most) }
        ensures dropped { IfOk result (λ h. h ≡ Heard.TooLong → line.new.items ≡ []) }
        ensures known { IfOk result (λ h. IfSome (stream_input R.remaining self.old) (λ bytes. IsHeard h most bytes line.new.items)) }
        ensures rest { OnOk result (DropsThrough (stream_input R.remaining self.old) (stream_input R.remaining self.new) 10) }
        ensures later { stream_faults self.old ≤ stream_faults self.new }
        ensures cause { IsErrOf result PortFault.Stream → Rose (stream_faults self.old) (stream_faults self.new) }
    {
        if self.is_deaf {
            return Err(self.fail());
        }
        match read_line(&mut self.reader, line, most) {
            Ok(heard) => Ok(heard),
            Err(PortFault::Stream) => {
                self.is_deaf = true;
                Err(self.fail())
            }
            Err(PortFault::NoMemory) => {
                self.is_deaf = true;
                Err(PortFault::NoMemory)
            }
        }
    }

    fn tell(&mut self, line: &[u8], at: Told<T>) -> Result<(), PortFault>
        ensures put { OnOk result (Appends (stream_output W.contents self.old) (stream_output W.contents self.new) (line.now ++ 10 ∷ [])) }
        ensures later { stream_faults self.old ≤ stream_faults self.new }
        ensures cause { IsErrOf result PortFault.Stream → Rose (stream_faults self.old) (stream_faults self.new) }
    {
        if self.is_mute {
            return Err(self.fail());
        }
        match put_line(&mut self.writer, &mut self.text, line) {
            Ok(()) => Ok(()),
            Err(_) => {
                self.is_mute = true;
                Err(self.fail())
            }
        }
    }
}
