//! The program `opfs_serve`: it answers each line of standard input on standard output as it hears it.
//!
//! It stands on `opfs_files` and `opfs_serve_top`.
#![tactic(auto)]

use opfs_base::{Bytes, Words};
use opfs_files::{DirHost, StdoutSink};
use opfs_outside::{Sink, put_all};
use opfs_port::{Port, StreamPort};
use opfs_serve_top::{Reply, opfs_serve};
use opfs_top::Status;
use std::alloc::AllocError;
use std::env::{self, Env};
use std::fs::{File, Files};
use std::io::{self, ErrorKind};
use std::process::ExitCode;

/// The words of the command line behind the program's name. Where one is no UTF-8 there are none.
fn words_of<R: Env + AllocGlobal>(rt: &R) -> Result<Words, AllocError> {
    let mut words = Vec::new(rt.alloc());
    match env::args(rt) {
        Ok(args) => {
            for word in args.skip(1) {
                words.push(Bytes::from_vec(word.into_bytes()))?;
            }
        }
        Err(error) => {
            if error.kind() == ErrorKind::OutOfMemory {
                return Err(AllocError);
            }
        }
    }
    Ok(Words::from_vec(words))
}

/// Three files that nobody uses. Where a standard stream is closed, one of them has its number: else the image would be opened as that stream, and
/// what is put out would be written over it.
fn hold_streams<R: Files<File = File>>(
    files: &R,
) -> (io::Result<File>, io::Result<File>, io::Result<File>) {
    let input = File::open(files, "/dev/null");
    let output = File::open(files, "/dev/null");
    let errors = File::open(files, "/dev/null");
    (input, output, errors)
}

/// Puts the line of a reply out, and gives the status.
fn put_reply<K: Sink>(reply: Result<Reply, AllocError>, sink: &mut K) -> Status {
    let Ok(Reply { status, line }) = reply else {
        return Status::Memory;
    };
    match put_all(sink, line.as_slice()) {
        Ok(()) => status,
        Err(_) => Status::Sink,
    }
}

fn main(rt: HostRuntime) -> ExitCode {
    let _held = hold_streams(&rt);
    let mut host = DirHost::make(&rt);
    let mut sink = StdoutSink::make(rt.stdout());
    let reply = match words_of(&rt) {
        Ok(words) => match StreamPort::make(rt.alloc(), rt.stdin(), rt.stdout()) {
            Ok(mut port) => opfs_serve(&rt, &words, &mut host, &mut port),
            Err(_) => Err(AllocError),
        },
        Err(_) => Err(AllocError),
    };
    let status = put_reply(reply, &mut sink);
    ExitCode::from(status.number())
}
