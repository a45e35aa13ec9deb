//! The program `opfs`: the one call, over the process's words, files, standard input and standard output.
//!
//! It stands on `opfs_files` and `opfs_top`.
#![tactic(auto)]

use opfs_base::{Bytes, Words};
use opfs_files::{DirHost, StdinSource, StdoutSink};
use opfs_top::{OpenGate, Status, opfs};
use std::alloc::AllocError;
use std::env::{self, Env};
use std::fs::{File, Files};
use std::io::{self, ErrorKind};
use std::process::ExitCode;

/// The words of the command line behind the program's name. Where one is no UTF-8 there are none.
fn words_of<R: Env + AllocGlobal>(rt: &R) -> Result<Words, AllocError> {
    let mut words = Vec::new(rt.alloc());
    match env::args(rt) {
        Ok(args) => {
            for word in args.skip(1) {
                words.push(Bytes::from_vec(word.into_bytes()))?;
            }
        }
        Err(error) => {
            if error.kind() == ErrorKind::OutOfMemory {
                return Err(AllocError);
            }
        }
    }
    Ok(Words::from_vec(words))
}

/// Three files that nobody uses. Where a standard stream is closed, one of them has its number: else the image would be opened as that stream, and
/// what is put out would be written over it.
fn hold_streams<R: Files<File = File>>(
    files: &R,
) -> (io::Result<File>, io::Result<File>, io::Result<File>) {
    let input = File::open(files, "/dev/null");
    let output = File::open(files, "/dev/null");
    let errors = File::open(files, "/dev/null");
    (input, output, errors)
}

fn main(rt: HostRuntime) -> ExitCode {
    let _held = hold_streams(&rt);
    let mut host = DirHost::make(&rt);
    let mut source = StdinSource::make(rt.stdin());
    let mut sink = StdoutSink::make(rt.stdout());
    let status = match words_of(&rt) {
        Ok(words) => opfs(&rt, &words, &mut host, &mut source, &mut sink, &OpenGate),
        Err(_) => Status::Memory,
    };
    ExitCode::from(status.number())
}
