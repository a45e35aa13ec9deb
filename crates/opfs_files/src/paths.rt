//! The name of a new file beside a path, and the folder of a path.

use std::fs::{File, Files};
use std::io::{self, ErrorKind};
use std::path::Path;

/// What stands behind a path in the name of the new file beside it.
const ENDING: [u8; 4] = *b".new";

/// The most bytes of a path beside which a file is made, and of the name of that file.
const MOST: usize = 4096;

const MOST_OF_NAME: usize = 4100;

/// Room for a name, so that no memory is taken for it.
#[derive(Drop)]
pub struct Room {
    bytes: [u8; MOST_OF_NAME],
}

impl Room {
    /// Empty room.
    pub fn make() -> Room {
        Room {
            bytes: [0; MOST_OF_NAME],
        }
    }
}

/// The name of the new file beside a path, which stands in the same folder.
pub fn beside<'a>(path: &str, room: &'a mut Room) -> io::Result<&'a str> {
    let path = path.as_bytes();
    let (len, ending) = (path.len(), ENDING);
    if len > MOST {
        return Err(io::Error::from(ErrorKind::InvalidInput));
    }
    room.bytes[..len].copy_from_slice(path);
    room.bytes[len..len + 4].copy_from_slice(&ending);
    match str::from_utf8(&room.bytes[..len + 4]) {
        Ok(name) => Ok(name),
        Err(_) => Err(io::Error::from(ErrorKind::InvalidInput)),
    }
}

/// The folder that names a path, which is synced so that a crash leaves the name.
pub fn open_folder<R: Files<File = File>>(files: &R, path: &str) -> io::Result<File> {
    match Path::new(path).parent() {
        Some(folder) if folder.as_str() != "" => File::open(files, folder),
        _ => File::open(files, "."),
    }
}
