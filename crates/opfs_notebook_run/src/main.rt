//! A program that keeps notebooks in a store: two agents on threads, each with a key-value file of its own, over a disk in memory.
//!
//! It stands on `opfs_desk`, `opfs_memory` and `opfs_notebook`.
#![tactic(auto)]

use opfs_base::Bytes;
use opfs_image::Geometry;
use opfs_kv::{Batch, KvStop};
use opfs_memory::RamDisk;
use opfs_notebook::notes;
use opfs_notebook::visits::Found;
use std::alloc::{AllocError, Global};
use std::io;
use std::process::ExitCode;
use std::sync::Wait;
use std::thread::Threads;

mod running;

// The sizes of a store of 4 MiB.
const SIZES: Geometry = Geometry {
    areas: 64,
    blocks: 1_024,
    quota: 512,
};

const ORIGINS: [&str; 2] = ["https://a.example", "https://b.example"];

// Prints what an agent found of a note.
fn tell<R: Print>(rt: &R, url: &str, found: &Result<Option<Bytes>, KvStop>) -> io::Result<()> {
    match found {
        Ok(Some(text)) => match str::from_utf8(text.as_slice()) {
            Ok(text) => println!(rt; "{url}: {text}"),
            Err(_) => println!(rt; "{url}: no text"),
        },
        Ok(None) => println!(rt; "{url}: no note"),
        Err(_) => println!(rt; "{url}: refused"),
    }
}

// Lets both agents keep notes, and prints what each found of one.
fn visit<R: AllocGlobal + Threads + Wait + Sync + Print>(
    rt: &R,
    disk: RamDisk,
    batch: &Batch,
    name: &Bytes,
) -> io::Result<RamDisk> {
    let (disk, Found { left, right }) = running::run(rt, disk, ORIGINS, batch, name);
    tell(rt, ORIGINS[0], &left)?;
    tell(rt, ORIGINS[1], &right)?;
    Ok(disk)
}

// The notes of a first visit.
fn first_notes(alloc: Global) -> Result<Batch, AllocError> {
    let mut batch = Batch::empty(alloc);
    notes::add(alloc, &mut batch, "tea", "green")?;
    notes::add(alloc, &mut batch, "cups", "two")?;
    Ok(batch)
}

// Those of a second visit: a note is written over, and one is taken out.
fn later_notes(alloc: Global) -> Result<Batch, AllocError> {
    let mut batch = Batch::empty(alloc);
    notes::add(alloc, &mut batch, "cups", "three")?;
    notes::add(alloc, &mut batch, "cups", "four")?;
    notes::remove(alloc, &mut batch, "tea")?;
    Ok(batch)
}

// Keeps notes in a store over a disk in memory, twice, and prints what was found of two of them.
fn keep<R: AllocGlobal + Threads + Wait + Sync + Print>(rt: &R) -> io::Result<()> {
    let alloc = rt.alloc();
    let first = first_notes(alloc)?;
    let later = later_notes(alloc)?;
    let none = Batch::empty(alloc);
    let tea = Bytes::copy_of(alloc, b"tea")?;
    let cups = Bytes::copy_of(alloc, b"cups")?;
    let disk = running::image(alloc, SIZES)?;
    let disk = visit(rt, disk, &first, &tea)?;
    let disk = visit(rt, disk, &later, &cups)?;
    let disk = visit(rt, disk, &none, &tea)?;
    drop(disk);
    Ok(())
}

fn main(rt: HostRuntime) -> ExitCode {
    match keep(&rt) {
        Ok(()) => ExitCode::SUCCESS,
        Err(_) => ExitCode::FAILURE,
    }
}
