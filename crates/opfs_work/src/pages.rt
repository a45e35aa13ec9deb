//! A page of 4,096 bytes: zeros, in memory, or elsewhere.

ghost use Rattle.std.specs.Prelude.{◌≡◌, ℕ, ◌<◌, ◌≤◌, Some, length, is_some, IfSome, slice_set, vec_len};
ghost use Rattle.std.specs.Vec.{vec_capacity};
ghost use Rattle.opfs_work.specs.Pages.{is_zero, is_near, is_far, is_changed, is_held, bytes_near, as_kept, as_changed, page_at, page_byte, one_near};

use crate::buffer::Buffer;
use std::mem;

/// A page of 4,096 bytes.
#[derive(Drop)]
pub enum Page {
    /// All bytes are 0.
    Zero,
    /// The bytes are in memory, and no store has them.
    Near(Buffer),
    /// The bytes are in memory, and a store has the same.
    Clean(Buffer),
    /// The bytes are elsewhere.
    Far,
}

impl Page {
    /// Whether all bytes are 0 without being stored.
    pub fn is_zero(&self) -> bool
        ensures { result ≡ is_zero self.now }
    {
        match self {
            Page::Zero => true,
            Page::Near(_) | Page::Clean(_) | Page::Far => false,
        }
    }

    /// Whether the bytes are in memory.
    pub fn is_near(&self) -> bool
        ensures { result ≡ is_near self.now }
    {
        match self {
            Page::Near(_) | Page::Clean(_) => true,
            Page::Zero | Page::Far => false,
        }
    }

    /// Whether the bytes are elsewhere.
    pub fn is_far(&self) -> bool
        ensures { result ≡ is_far self.now }
    {
        match self {
            Page::Far => true,
            Page::Zero | Page::Near(_) | Page::Clean(_) => false,
        }
    }

    /// Whether the bytes are in memory and no store has them.
    pub fn is_changed(&self) -> bool
        ensures { result ≡ is_changed self.now }
    {
        match self {
            Page::Near(_) => true,
            Page::Zero | Page::Clean(_) | Page::Far => false,
        }
    }

    /// The bytes that are in memory.
    pub fn near(&self) -> Option<&[u8]>
        ensures near { is_some result ≡ is_near self.now }
        ensures bytes { IfSome result (λ bytes. bytes_near self.now ≡ Some bytes.now) }
        ensures length { IfSome result (λ bytes. length bytes.now ≡ 4096) }
    {
        match self {
            Page::Near(buffer) => Some(buffer.as_slice()),
            Page::Clean(buffer) => Some(buffer.as_slice()),
            Page::Zero | Page::Far => None,
        }
    }
}

/// One for a page in memory.
pub fn one_near(page: &Page) -> u64
    ensures { result ≡ one_near page.now }
{
    match page {
        Page::Near(_) | Page::Clean(_) => 1,
        Page::Zero => 0,
        Page::Far => 0,
    }
}

/// Puts a page in the place of another.
pub fn put(pages: &mut Vec<Page>, k: usize, page: Page) -> Page
    requires { k < vec_len pages.old }
    ensures was { result ≡ page_at pages.old.items k }
    ensures after { pages.new.items ≡ slice_set pages.old.items k page }
    ensures places { vec_capacity pages.new ≡ vec_capacity pages.old }
{
    mem::replace(&mut pages[k], page)
}

/// A page that is 0 from an offset on, where it is in memory.
pub fn wiped(page: Page, offset: usize) -> Page
    requires { offset ≤ 4096 }
    ensures before { (far : ℕ) (place : ℕ) → place < offset → page_byte far result place ≡ page_byte far page place }
    ensures behind { (place : ℕ) → offset ≤ place → page_byte 0 result place ≡ 0 }
    ensures near { is_near result ≡ is_near page }
    ensures far { is_far result ≡ is_far page }
    ensures changed { is_changed result ≡ is_changed page }
    ensures held { is_held result ≡ is_held page }
    ensures one { one_near result ≡ one_near page }
{
    match page {
        Page::Near(mut buffer) => {
            buffer.wipe(offset);
            Page::Near(buffer)
        }
        Page::Clean(mut bytes) => {
            bytes.wipe(offset);
            Page::Clean(bytes)
        }
        Page::Zero => Page::Zero,
        Page::Far => Page::Far,
    }
}

/// The page when a store has it.
pub fn kept(page: Page) -> Page
    ensures { result ≡ as_kept page }
{
    match page {
        Page::Near(buffer) => Page::Clean(buffer),
        Page::Clean(buffer) => Page::Clean(buffer),
        Page::Zero => Page::Zero,
        Page::Far => Page::Far,
    }
}

/// The page when its bytes are no longer those that a store has.
pub fn touched(page: Page) -> Page
    ensures { result ≡ as_changed page }
{
    match page {
        Page::Near(buffer) => Page::Near(buffer),
        Page::Clean(buffer) => Page::Near(buffer),
        Page::Zero => Page::Zero,
        Page::Far => Page::Far,
    }
}
