//! Buffers that are kept for pages that come Near.

ghost use Rattle.std.specs.Prelude.{◌≡◌, ℕ, ◌+◌, ◌<◌, ◌≤◌, false, OnOk, slice_index, vec_len};
ghost use Rattle.std.specs.Vec.{vec_capacity};
ghost use Rattle.opfs_work.specs.Pages.{is_far, page_byte, one_near};

use crate::buffer::Buffer;
use crate::pages::Page;
use std::alloc::{AllocError, Global};

/// Adds buffers until there are so many, with places for them and for more.
pub fn fill_spare(
    alloc: Global,
    spare: &mut Vec<Buffer>,
    count: usize,
    places: usize,
) -> Result<(), AllocError>
    requires { count + places ≤ 512 }
    ensures spare { OnOk result (count ≤ vec_len spare.new) }
    ensures more { vec_len spare.old ≤ vec_len spare.new }
    ensures places { vec_len spare.old + places ≤ vec_capacity spare.old → vec_len spare.new + places ≤ vec_capacity spare.new }
{
    spare.reserve(count + places)?;
    while spare.len() < count {
        spare.push(Buffer::make(alloc)?)?;
    }
    Ok(())
}

/// Puts the buffer of a page in memory with the spare ones.
pub fn give_back(spare: &mut Vec<Buffer>, page: Page)
    requires { vec_len spare.old + one_near page ≤ vec_capacity spare.old }
    ensures spare { vec_len spare.new ≡ vec_len spare.old + one_near page }
    ensures kept { vec_capacity spare.old ≤ vec_capacity spare.new }
{
    match page {
        Page::Near(buffer) => spare.push(buffer).unwrap(),
        Page::Clean(buffer) => spare.push(buffer).unwrap(),
        Page::Zero => {}
        Page::Far => {}
    }
}

/// A buffer for a page that is written: its own, or a spare one. It has the page's bytes, but of a page that is Far or is
/// written whole.
pub fn taken(spare: &mut Vec<Buffer>, page: Page, whole: bool) -> Buffer
    requires { 1 ≤ vec_len spare.old + one_near page }
    ensures bytes { whole ≡ false → is_far page ≡ false → (far : ℕ) (place : ℕ) → slice_index result place ≡ page_byte far page place }
    ensures spare { vec_len spare.new + 1 ≡ vec_len spare.old + one_near page }
    ensures kept { vec_capacity spare.new ≡ vec_capacity spare.old }
{
    match page {
        Page::Near(buffer) => buffer,
        Page::Clean(buffer) => buffer,
        Page::Zero => blank(spare, whole),
        Page::Far => spare_buffer(spare),
    }
}

// A spare buffer, of zeros where the page is not written whole.
fn blank(spare: &mut Vec<Buffer>, whole: bool) -> Buffer
    requires { 0 < vec_len spare.old }
    ensures zeros { whole ≡ false → (k : ℕ) → slice_index result k ≡ 0 }
    ensures taken { vec_len spare.new + 1 ≡ vec_len spare.old }
    ensures kept { vec_capacity spare.new ≡ vec_capacity spare.old }
{
    let mut buffer = spare_buffer(spare);
    if whole {
        return buffer;
    }
    buffer.wipe(0);
    buffer
}

/// A spare buffer, with whatever bytes it has.
pub fn spare_buffer(spare: &mut Vec<Buffer>) -> Buffer
    requires { 0 < vec_len spare.old }
    ensures taken { vec_len spare.new + 1 ≡ vec_len spare.old }
    ensures kept { vec_capacity spare.new ≡ vec_capacity spare.old }
{
    spare.pop().unwrap()
}
