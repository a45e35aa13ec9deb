//! The bytes that a call writes.

use opfs_base::{Bytes, Data, Told};
use std::alloc::{AllocError, Global};

// Whether data may go to other threads, and be read by several at once.
fn crosses<T: Send + Sync>(_data: &T) -> bool {
    true
}

// Three bytes told one by one, or as often as they come.
fn three(alloc: Global, fill: bool) -> Result<Data, AllocError> {
    if fill {
        Ok(Data::filled(b'x', 3))
    } else {
        let bytes = Bytes::copy_of(alloc, b"abc")?;
        Data::given(alloc, bytes)
    }
}

// How data is told.
fn told_text(alloc: Global, data: &Data) -> Result<String, AllocError> {
    match data.told() {
        Told::Given(bytes) => format!(in alloc; "{bytes:?}"),
        Told::Fill(byte, count) => format!(in alloc; "{count} x {byte}"),
    }
}

// Two bytes of data from the second on, copied over others.
fn copied(data: &Data) -> [u8; 2] {
    let mut into = [0, 0];
    if data.len() == 3 {
        data.copy_into(1, &mut into[..]);
    }
    into
}

// The last byte of data behind others.
fn appended(alloc: Global, data: &Data) -> Result<Vec<u8>, AllocError> {
    let mut into = Vec::with_capacity(alloc, 8)?;
    if data.len() == 3 {
        data.append_to(2, 1, &mut into);
        data.append_to(0, 1, &mut into);
    }
    Ok(into)
}

// How data is told, a part of it, and its ends.
fn seen_of(alloc: Global, data: &Data) -> Result<String, AllocError> {
    let told = told_text(alloc, data)?;
    let ends = appended(alloc, data)?;
    format!(in alloc;
        "{} {:?} {:?} {}",
        told.as_str(),
        copied(data),
        ends.as_slice(),
        crosses(data)
    )
}

// The same of data that is shared.
fn seen(alloc: Global, fill: bool) -> Result<String, AllocError> {
    let first = three(alloc, fill)?;
    let shared = first.share()?;
    drop(first);
    seen_of(alloc, &shared)
}

// Whether data that is shared is told so.
fn is_seen(alloc: Global, fill: bool, wanted: &str) -> Result<bool, AllocError> {
    let text = seen(alloc, fill)?;
    Ok(text.as_str() == wanted)
}

#[test]
fn shared_data_is_told_alike(rt: HostRuntime) -> Result<(), AllocError> {
    let cases = [
        (false, "[97, 98, 99] [98, 99] [99, 97] true"),
        (true, "3 x 120 [120, 120] [120, 120] true"),
    ];
    for (fill, wanted) in cases {
        assert!(rt; is_seen(rt.alloc(), fill, wanted)?, "{wanted}");
    }
    Ok(())
}
