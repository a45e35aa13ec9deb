//! Images in memory, and their texts.

use opfs_dump::{Dumped, dump, lay, loaded_line, read_dump, refused_line};
use opfs_image::{Recovered, recover};
use opfs_memory::{MemDisk, MemSink};
use opfs_outside::Disk;
use std::alloc::{AllocError, Global};

/// A disk of these bytes.
pub fn disk_of(alloc: Global, content: Vec<u8>, fails: Vec<u64>) -> Result<MemDisk, AllocError> {
    MemDisk::make(alloc, content, fails, None, 4096, 1_048_576)
}

// The text of what an image holds, or that it failed.
fn dumped_text(alloc: Global, image: &mut Recovered<MemDisk>) -> Result<Vec<u8>, AllocError> {
    let mut sink = MemSink::make(alloc, 262_144, Vec::new(alloc))?;
    let text = match dump(alloc, image, &mut sink) {
        Ok(()) => sink.written().to_vec(alloc),
        Err(_) => b"failed".to_vec(alloc),
    };
    drop(sink);
    text
}

/// The text of what an image holds, or that it is refused or failed.
pub fn text_of(alloc: Global, image: &[u8]) -> Result<Vec<u8>, AllocError> {
    let image = image.to_vec(alloc)?;
    let disk = disk_of(alloc, image, Vec::new(alloc))?;
    match recover(alloc, disk) {
        Ok(mut image) => {
            let text = dumped_text(alloc, &mut image);
            drop(image);
            text
        }
        Err(_) => b"refused".to_vec(alloc),
    }
}

// The image that a text stands for.
fn laid(alloc: Global, dumped: &Dumped) -> Result<Vec<u8>, AllocError> {
    let size = dumped.geometry.image_size();
    let blank = vec![in alloc; 7u8; size as usize]?;
    let disk = disk_of(alloc, blank, Vec::new(alloc))?;
    if disk.len() < size {
        return Err(AllocError);
    }
    let (disk, done) = lay(alloc, dumped, disk);
    let image = match done {
        Ok(()) => disk.content().to_vec(alloc),
        Err(_) => Err(AllocError),
    };
    drop(disk);
    image
}

// The image that a text stands for, read anew.
fn laid_image(alloc: Global, text: &[u8]) -> Result<Vec<u8>, AllocError> {
    match read_dump(alloc, text) {
        Ok(dumped) => {
            let image = laid(alloc, &dumped);
            drop(dumped);
            image
        }
        Err(_) => Err(AllocError),
    }
}

/// The text of the image that a text stands for.
pub fn laid_text(alloc: Global, text: &[u8]) -> Result<Vec<u8>, AllocError> {
    let image = laid_image(alloc, text)?;
    text_of(alloc, &image)
}

// What is told of a text, with the line feed.
fn told_line(alloc: Global, text: &[u8]) -> Result<String, AllocError> {
    match read_dump(alloc, text) {
        Ok(dumped) => {
            let rows = dumped.rows.len();
            drop(dumped);
            loaded_line(alloc, rows)
        }
        Err(why) => refused_line(alloc, why),
    }
}

/// What is told of a text, without the line feed.
pub fn answer(alloc: Global, text: &[u8]) -> Result<String, AllocError> {
    let line = told_line(alloc, text)?;
    String::from_str(alloc, line.trim_end())
}
