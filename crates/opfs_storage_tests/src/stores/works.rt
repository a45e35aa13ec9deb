//! Working copies in pages.

ghost use Rattle.std.specs.Prelude.{◌≡◌, ◌≤◌, length, IfOk};

use opfs_base::{Bytes, Data};
use opfs_work::Work;
use std::alloc::{AllocError, Global};
use std::test::Fail;

// These bytes.
fn given(alloc: Global, bytes: &[u8]) -> Result<Data, AllocError>
    ensures { IfOk result (λ made. made ≡ bytes.now) }
{
    let bytes = Bytes::copy_of(alloc, bytes)?;
    Data::given(alloc, bytes)
}

// So many equal bytes.
fn filled(alloc: Global, byte: u8, count: usize) -> Result<Vec<u8>, AllocError>
    ensures { IfOk result (λ bytes. length bytes.items ≡ count) }
{
    let mut bytes = Vec::new(alloc);
    bytes.resize(count, byte)?;
    Ok(bytes)
}

// A working copy of at most five bytes.
fn copy_of(alloc: Global, bytes: &[u8], reserve: u64) -> Result<Work, AllocError>
    requires { length bytes.now ≤ 5 }
{
    let bytes = given(alloc, bytes)?;
    Work::make(alloc, &bytes, reserve)
}

// Writes where all that is written to is near, and says whether it is.
fn writes(work: &mut Work, given: &Data, at: Option<u64>) -> bool {
    if !work.near_write(at, given.len()) {
        return false;
    }
    work.write_within(given, at);
    true
}

// Whether these bytes are read at a place where at most so many are asked for.
fn reads(work: &mut Work, len: u64, at: u64, bytes: &[u8]) -> Result<bool, AllocError> {
    if !work.near_read(len, Some(at)) {
        return Ok(false);
    }
    let read = work.read(len, Some(at))?;
    Ok(read.as_slice() == bytes)
}

// Sets the size where what is wiped is near, and says whether it is.
fn truncates(work: &mut Work, size: u64) -> bool {
    if !work.near_size(size) {
        return false;
    }
    work.truncate_within(size);
    true
}

// Whether a byte behind a page fits one block, and then, with two, at their end and behind it; a size of both, and a larger one; and the reserve, before
// and after it is dropped.
fn reserves(work: &mut Work) -> Result<([bool; 5], [u64; 2]), AllocError> {
    let one = work.fits(Some(4096), 1);
    work.prepare(2)?;
    work.grow(2);
    let last = work.fits(Some(8191), 1);
    let behind = work.fits(Some(8192), 1);
    let both = work.fits_size(8192);
    let larger = work.fits_size(8193);
    let reserve = work.reserve();
    work.drop_reserve();
    Ok(([one, last, behind, both, larger], [reserve, work.reserve()]))
}

#[test]
fn a_write_fits_the_reserve(rt: HostRuntime) -> Result<(), Fail> {
    let mut work = copy_of(rt.alloc(), b"abc", 1)?;
    assert_eq!(rt;
        reserves(&mut work)?,
        ([false, true, false, true, false], [2, 0])
    );
    Ok(())
}

// Whether bytes are written within a text and it is read to its end, and the positions behind both.
fn overwrites(alloc: Global) -> Result<([bool; 2], [u64; 2]), AllocError> {
    let mut work = copy_of(alloc, b"hello", 3)?;
    let over = given(alloc, b"EL")?;
    let written = writes(&mut work, &over, Some(1));
    let behind_write = work.position();
    let read = reads(&mut work, 9, 0, b"hELlo")?;
    Ok(([written, read], [behind_write, work.position()]))
}

#[test]
fn a_write_keeps_what_stands_behind_it(rt: HostRuntime) -> Result<(), Fail> {
    assert_eq!(rt; overwrites(rt.alloc())?, ([true; 2], [3, 5]));
    Ok(())
}

// Two bytes written far behind the end of an empty copy.
fn with_gap(alloc: Global) -> Result<(Work, bool), AllocError> {
    let mut work = Work::fresh(alloc);
    work.prepare(4)?;
    work.grow(4);
    work.seek(12_287);
    let behind = given(alloc, b"xy")?;
    let written = writes(&mut work, &behind, None);
    Ok((work, written))
}

// Whether the second of four pages is zero, whether it is near, and whether the last one is.
fn pages_of_gap(work: &Work) -> Option<[bool; 3]> {
    if work.pages() != 4 {
        return None;
    }
    Some([
        work.is_zero(1),
        work.near_page(1).is_some(),
        work.near_page(3).is_some(),
    ])
}

#[test]
fn a_gap_is_zero_and_costs_no_page(rt: HostRuntime) -> Result<(), Fail> {
    let (mut work, written) = with_gap(rt.alloc())?;
    let sizes = [work.size(), work.pages(), work.resident()];
    assert_eq!(rt; (written, sizes), (true, [12_289, 4, 2]));
    assert_eq!(rt; pages_of_gap(&work), Some([true, false, true]));
    assert!(rt; reads(&mut work, 4, 12_285, b"\0\0xy")?);
    Ok(())
}

// Whether a text is cut and extended, and zeros are read behind the cut; and the position behind the cut.
fn cuts_and_extends(alloc: Global) -> Result<([bool; 3], u64), AllocError> {
    let mut work = copy_of(alloc, b"hello", 1)?;
    work.seek(4);
    let cut = truncates(&mut work, 2);
    let position = work.position();
    let extended = truncates(&mut work, 4);
    let read = reads(&mut work, 9, 0, b"he\0\0")?;
    Ok(([cut, extended, read], position))
}

#[test]
fn a_cut_and_an_extension_leave_zeros(rt: HostRuntime) -> Result<(), Fail> {
    assert_eq!(rt; cuts_and_extends(rt.alloc())?, ([true; 3], 2));
    Ok(())
}

// The pages of two that are far, those that are near, and whether a byte can be read or written at once.
fn far_pages(alloc: Global) -> Result<([u64; 2], [bool; 2]), AllocError> {
    let work = Work::far(alloc, 8192, 7, 2)?;
    Ok((
        [work.pages(), work.resident()],
        [work.near_read(1, None), work.near_write(Some(0), 1)],
    ))
}

// Two pages, of which the second was brought.
fn with_second_page(alloc: Global) -> Result<Work, AllocError> {
    let mut work = Work::far(alloc, 8192, 7, 2)?;
    let page = filled(alloc, b'a', 4096)?;
    work.bring(1, page.as_slice());
    Ok(work)
}

// Whether the page that was brought is near, the other one is overwritten whole, and the bytes between both are read; and how many are near then.
fn brings_and_overwrites(alloc: Global) -> Result<([bool; 3], u64), AllocError> {
    let mut work = with_second_page(alloc)?;
    let near = work.near_read(1, Some(4096));
    let whole = Data::filled(b'b', 4096);
    let written = writes(&mut work, &whole, Some(0));
    let resident = work.resident();
    let read = reads(&mut work, 2, 4095, b"ba")?;
    Ok(([near, written, read], resident))
}

#[test]
fn a_page_is_brought_and_another_is_overwritten(rt: HostRuntime) -> Result<(), Fail> {
    assert_eq!(rt; far_pages(rt.alloc())?, ([2, 0], [false; 2]));
    assert_eq!(rt; brings_and_overwrites(rt.alloc())?, ([true; 3], 2));
    Ok(())
}
