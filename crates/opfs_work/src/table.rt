//! A table of pages.

ghost use Rattle.std.specs.Prelude.{◌≡◌, ℕ, ◌+◌, ◌-◌, ◌*◌, ◌/◌, ◌%◌, ◌^◌, ◌<◌, ◌≤◌, ◌++◌, ◌∷◌, [], true, false, ◌↔◌, if◌then◌else◌, length, take, min, max, replicate, IsTrue, IfOk, OnOk, OnErr, is_some, Some, IfSome, slice_index, slice_set, vec_len, map};
ghost use Rattle.std.specs.List.{range_with_len, slice_range};
ghost use Rattle.std.specs.Vec.{vec_capacity};
ghost use Rattle.opfs_work.specs.Pages.{is_zero, is_near, is_far, is_changed, is_held, bytes_near, as_kept, as_changed, page_at, page_byte, byte_at, one_near, near_count, added, pages_in, CoversFar, IsNearBetween, IsSettled};
ghost use Rattle.opfs_work.specs.declared.pages.Page.{Page};

use crate::buffer::Buffer;
use crate::pages::{Page, kept, one_near, put, touched, wiped};
use crate::sizes::blocks;
use crate::spares::{fill_spare, give_back, spare_buffer, taken};
use opfs_base::Data;
use std::alloc::{AllocError, Global};
use std::marker::Model;

/// Pages, of which at most 256 are in memory, with the memory for as many as there is room for.
#[derive(Drop)]
pub struct Table {
    pages: Vec<Page>,
    near: u64,
    room: u64,
    spare: Vec<Buffer>,
    alloc: Global,
}

impl Model for Table {
    ghost use Rattle.std.specs.Prelude.{vec_len};
    ghost use Rattle.std.specs.Vec.{vec_capacity};
    ghost use Rattle.opfs_work.specs.Pages.{Table as TableOf};
    ghost use Rattle.opfs_work.specs.Kept.{IsKept};

    ghost Value = { TableOf };

    ghost view = { λ table. record { pages = table.pages.items; room = table.room } };

    ghost invariant = { λ table. IsKept table.pages.items table.near table.room (vec_capacity table.pages) (vec_len table.spare) (vec_capacity table.spare) };
}

impl Table {
    /// No pages and no room. Takes no memory.
    pub fn fresh(alloc: Global) -> Table
        ensures { result ≡ record { pages = []; room = 0 } }
    {
        Table {
            pages: Vec::new(alloc),
            near: 0,
            room: 0,
            spare: Vec::new(alloc),
            alloc,
        }
    }

    /// How many pages there are.
    pub fn len(&self) -> u64
        ensures len { result ≡ length self.now.pages }
        ensures within { result ≤ self.now.room }
    {
        self.pages.len() as u64
    }

    /// How many pages there is room for.
    pub fn room(&self) -> u64
        ensures room { result ≡ self.now.room }
        ensures small { result < 2 ^ 52 }
    {
        self.room
    }

    /// How many pages are in memory.
    pub fn near(&self) -> u64
        ensures near { result ≡ near_count self.now.pages }
        ensures few { result ≤ 256 }
    {
        self.near
    }

    /// Whether a page is Zero; past the last one all are.
    pub fn is_zero(&self, page: u64) -> bool
        ensures { result ≡ is_zero (page_at self.now.pages page) }
    {
        match self.pages.get(page as usize) {
            Some(page) => page.is_zero(),
            None => true,
        }
    }

    /// Whether a page is in memory.
    pub fn is_near(&self, page: u64) -> bool
        ensures { result ≡ is_near (page_at self.now.pages page) }
    {
        match self.pages.get(page as usize) {
            Some(page) => page.is_near(),
            None => false,
        }
    }

    /// Whether a page is in memory and changed.
    pub fn is_changed(&self, page: u64) -> bool
        ensures { result ≡ is_changed (page_at self.now.pages page) }
    {
        match self.pages.get(page as usize) {
            Some(page) => page.is_changed(),
            None => false,
        }
    }

    /// Whether a page is Far.
    pub fn is_far(&self, page: u64) -> bool
        ensures { result ≡ is_far (page_at self.now.pages page) }
    {
        match self.pages.get(page as usize) {
            Some(page) => page.is_far(),
            None => false,
        }
    }

    /// The bytes of a page in memory.
    pub fn near_page(&self, page: u64) -> Option<&[u8]>
        ensures near { is_some result ≡ is_near (page_at self.now.pages page) }
        ensures bytes { IfSome result (λ bytes. bytes_near (page_at self.now.pages page) ≡ Some bytes.now) }
        ensures length { IfSome result (λ bytes. length bytes.now ≡ 4096) }
    {
        match self.pages.get(page as usize) {
            Some(page) => page.near(),
            None => None,
        }
    }

    // Adds a page that is not in memory. Takes no memory.
    fn push(&mut self, page: Page)
        requires away { one_near page ≡ 0 }
        requires room { length self.old.pages < self.old.room }
        ensures { self.new ≡ record self.old { pages = self.old.pages ++ page ∷ [] } }
    {
        self.pages.push(page).unwrap();
    }

    /// Adds Zero pages until there are so many. Takes no memory.
    pub fn stretch(&mut self, count: u64)
        requires { count ≤ self.old.room }
        ensures length { length self.new.pages ≡ max (length self.old.pages) count }
        ensures room { self.new.room ≡ self.old.room }
        ensures same { (k : ℕ) → page_at self.new.pages k ≡ page_at self.old.pages k }
        ensures near { near_count self.new.pages ≡ near_count self.old.pages }
    {
        while self.len() < count {
            self.push(Page::Zero);
        }
    }

    /// Takes pages away from the end until there are so many. Takes no memory.
    pub fn cut(&mut self, count: u64)
        requires { count ≤ length self.old.pages }
        ensures { self.new ≡ record self.old { pages = take count self.old.pages } }
    {
        while count < self.len() {
            self.drop_last();
        }
    }

    /// So many Far pages, with room for at least as many and for so many more.
    pub fn far(alloc: Global, count: u64, room: u64) -> Result<Table, AllocError>
        ensures length { IfOk result (λ table. length table.pages ≡ count) }
        ensures room { IfOk result (λ table. room ≤ table.room) }
        ensures far { IfOk result (λ table. (k : ℕ) → k < count → is_far (page_at table.pages k) ≡ true) }
        ensures none { IfOk result (λ table. near_count table.pages ≡ 0) }
    {
        let mut table = Table::fresh(alloc);
        table.prepare(count.max(room))?;
        table.fill_far(count);
        Ok(table)
    }

    /// Adds Far pages until there are so many. Takes no memory.
    pub fn fill_far(&mut self, count: u64)
        requires { count ≤ self.old.room }
        ensures length { length self.new.pages ≡ max (length self.old.pages) count }
        ensures room { self.new.room ≡ self.old.room }
        ensures far { (k : ℕ) → length self.old.pages ≤ k → k < count → is_far (page_at self.new.pages k) ≡ true }
        ensures same { (k : ℕ) → k < length self.old.pages → page_at self.new.pages k ≡ page_at self.old.pages k }
        ensures near { near_count self.new.pages ≡ near_count self.old.pages }
    {
        while self.len() < count {
            self.push(Page::Far);
        }
    }

    /// Makes room for so many pages.
    pub fn prepare(&mut self, count: u64) -> Result<(), AllocError>
        ensures room { OnOk result (count ≤ self.new.room) }
        ensures kept { self.old.room ≤ self.new.room }
        ensures same { self.new.pages ≡ self.old.pages }
        ensures err { OnErr result (self.new ≡ self.old) }
    {
        if count <= self.room {
            return Ok(());
        }
        if count >= 0x10_0000_0000_0000 {
            return Err(AllocError);
        }
        let more = count as usize - self.pages.len();
        self.pages.reserve(more)?;
        let buffers = count.min(256) as usize - self.near as usize;
        fill_spare(self.alloc, &mut self.spare, buffers, self.near as usize)?;
        self.room = count;
        Ok(())
    }

    /// Takes the last page away. Takes no memory.
    pub fn drop_last(&mut self)
        requires { 0 < length self.old.pages }
        ensures { self.new ≡ record self.old { pages = take (length self.old.pages - 1) self.old.pages } }
    {
        let last = self.pages.pop().unwrap();
        self.near -= one_near(&last);
        give_back(&mut self.spare, last);
    }

    /// Writes the bytes between two places into one page, which is Near then. Takes no memory.
    pub fn write(&mut self, place: u64, given: &Data, from: u64, to: u64)
        requires order { from ≤ to }
        requires end { to ≤ length given.now }
        requires there { place / 4096 < length self.old.pages }
        requires within { place % 4096 + length (slice_range given.now from to) ≤ 4096 }
        requires whole { is_far (page_at self.old.pages (place / 4096)) ≡ true → length (slice_range given.now from to) ≡ 4096 }
        requires few { near_count self.old.pages < 256 + one_near (page_at self.old.pages (place / 4096)) }
        ensures length { length self.new.pages ≡ length self.old.pages }
        ensures room { self.new.room ≡ self.old.room }
        ensures inside { (far : ℕ → ℕ) (i : ℕ) → place ≤ i → i < place + length (slice_range given.now from to) → byte_at far self.new.pages i ≡ slice_index (slice_range given.now from to) (i - place) }
        ensures before { (far : ℕ → ℕ) (i : ℕ) → i < place → byte_at far self.new.pages i ≡ byte_at far self.old.pages i }
        ensures behind { (far : ℕ → ℕ) (i : ℕ) → place + length (slice_range given.now from to) ≤ i → byte_at far self.new.pages i ≡ byte_at far self.old.pages i }
        ensures changed { is_changed (page_at self.new.pages (place / 4096)) ≡ true }
        ensures others { (k : ℕ) → (k ≡ place / 4096 → ⊥) → page_at self.new.pages k ≡ page_at self.old.pages k }
        ensures count { near_count self.new.pages + one_near (page_at self.old.pages (place / 4096)) ≡ near_count self.old.pages + 1 }
    {
        let page = (place / 4096) as usize;
        let offset = (place % 4096) as usize;
        let old = put(&mut self.pages, page, Page::Zero);
        self.near = self.near + 1 - one_near(&old);
        let mut buffer = taken(&mut self.spare, old, to - from == 4096);
        buffer.write(offset, given, from, to);
        let _zero = put(&mut self.pages, page, Page::Near(buffer));
    }

    /// Whether each Far page that holds a byte between two positions lies between them whole.
    pub fn covers_far(&self, from: u64, to: u64) -> bool
        requires { to + 4096 ≤ 2 ^ 64 }
        ensures { IsTrue result ↔ CoversFar self.now.pages from to }
    {
        if to <= from {
            return true;
        }
        if !self.has_whole(from / 4096, from, to) {
            return false;
        }
        if to % 4096 == 0 {
            return true;
        }
        self.has_whole(to / 4096, from, to)
    }

    // Whether a page is not Far, or lies between two positions whole.
    fn has_whole(&self, page: u64, from: u64, to: u64) -> bool
        requires { 4096 * page + 4096 < 2 ^ 64 }
        ensures { IsTrue result ↔ (is_far (page_at self.now.pages page) ≡ true → (from ≤ 4096 * page) × (4096 * page + 4096 ≤ to)) }
    {
        !self.is_far(page) || (from <= 4096 * page && 4096 * page + 4096 <= to)
    }

    // One for a page that is not in memory.
    fn absent(&self, page: u64) -> u64
        ensures { result ≡ 1 - one_near (page_at self.now.pages page) }
    {
        match self.pages.get(page as usize) {
            Some(page) => 1 - one_near(page),
            None => 1,
        }
    }

    /// How many pages a write at a position brings into memory.
    pub fn added(&self, at: u64, len: u64) -> u64
        requires { at + len < 2 ^ 64 }
        ensures added { result ≡ added self.now.pages at len }
        ensures within { result ≤ (at + len) / 4096 + 1 }
    {
        if len == 0 {
            return 0;
        }
        let mut count = 0;
        for page in at / 4096..blocks(at + len) {
            count += self.absent(page);
        }
        count
    }

    /// Writes bytes at a position, over those that are there. Takes no memory.
    pub fn copy(&mut self, at: u64, given: &Data)
        requires there { at + length given.now ≤ 4096 * length self.old.pages }
        requires whole { CoversFar self.old.pages at (at + length given.now) }
        requires few { near_count self.old.pages + added self.old.pages at (length given.now) ≤ 256 }
        ensures length { length self.new.pages ≡ length self.old.pages }
        ensures room { self.new.room ≡ self.old.room }
        ensures inside { (far : ℕ → ℕ) (i : ℕ) → at ≤ i → i < at + length given.now → byte_at far self.new.pages i ≡ slice_index given.now (i - at) }
        ensures before { (far : ℕ → ℕ) (i : ℕ) → i < at → byte_at far self.new.pages i ≡ byte_at far self.old.pages i }
        ensures behind { (far : ℕ → ℕ) (i : ℕ) → at + length given.now ≤ i → byte_at far self.new.pages i ≡ byte_at far self.old.pages i }
        ensures changed { (k : ℕ) → at / 4096 ≤ k → k < at / 4096 + pages_in at (length given.now) → is_changed (page_at self.new.pages k) ≡ true }
        ensures early { (k : ℕ) → k < at / 4096 → page_at self.new.pages k ≡ page_at self.old.pages k }
        ensures late { (k : ℕ) → at / 4096 + pages_in at (length given.now) ≤ k → page_at self.new.pages k ≡ page_at self.old.pages k }
        ensures count { near_count self.new.pages ≡ near_count self.old.pages + added self.old.pages at (length given.now) }
    {
        if given.is_empty() {
            return;
        }
        let _room = self.room();
        let _len = self.len();
        let end = at + given.len();
        for page in at / 4096..blocks(end) {
            let from = at.max(4096 * page);
            let to = end.min(4096 * page + 4096);
            self.write(from, given, from - at, to - at);
        }
    }

    /// Gives a Far page the bytes that a store has of it. Takes no memory.
    pub fn load(&mut self, page: u64, bytes: &[u8])
        requires far { is_far (page_at self.old.pages page) ≡ true }
        requires few { near_count self.old.pages < 256 }
        requires page { length bytes.now ≡ 4096 }
        ensures { self.new ≡ record self.old { pages = slice_set self.old.pages page (Page.Clean bytes.now) } }
    {
        let mut buffer = spare_buffer(&mut self.spare);
        buffer.load(bytes);
        self.near += 1;
        let _far = put(&mut self.pages, page as usize, Page::Clean(buffer));
    }

    /// Sends a page far; its buffer serves another page then. Takes no memory.
    pub fn let_go(&mut self, page: u64)
        requires { page < length self.old.pages }
        ensures { self.new ≡ record self.old { pages = slice_set self.old.pages page Page.Far } }
    {
        let old = put(&mut self.pages, page as usize, Page::Far);
        self.near -= one_near(&old);
        give_back(&mut self.spare, old);
    }

    /// A store has the page now. Takes no memory.
    pub fn keep(&mut self, page: u64)
        requires { page < length self.old.pages }
        ensures { self.new ≡ record self.old { pages = slice_set self.old.pages page (as_kept (page_at self.old.pages page)) } }
    {
        let old = put(&mut self.pages, page as usize, Page::Zero);
        let _zero = put(&mut self.pages, page as usize, kept(old));
    }

    /// A store does not have the page's bytes any more. Takes no memory.
    pub fn touch(&mut self, page: u64)
        requires { page < length self.old.pages }
        ensures { self.new ≡ record self.old { pages = slice_set self.old.pages page (as_changed (page_at self.old.pages page)) } }
    {
        let old = put(&mut self.pages, page as usize, Page::Zero);
        let _zero = put(&mut self.pages, page as usize, touched(old));
    }

    /// Whether no page that holds a byte between two positions is Far.
    pub fn is_near_between(&self, from: u64, to: u64) -> bool
        requires { to + 4096 ≤ 2 ^ 64 }
        ensures { IsTrue result ↔ IsNearBetween self.now.pages from to }
    {
        if to <= from {
            return true;
        }
        for page in from / 4096..blocks(to) {
            if self.is_far(page) {
                return false;
            }
        }
        true
    }

    /// The bytes from a position on; a Far page counts as zeros.
    pub fn copy_out(&self, from: u64, len: u64) -> Result<Vec<u8>, AllocError>
        requires { from + len < 2 ^ 64 }
        ensures { IfOk result (λ bytes. bytes.items ≡ map (byte_at (λ _. 0) self.now.pages) (range_with_len from len)) }
    {
        let mut bytes = Vec::new(self.alloc);
        bytes.reserve(len as usize)?;
        let mut done = 0;
        while done < len {
            let part = (len - done).min(4096 - (from + done) % 4096);
            self.append(&mut bytes, from + done, part)?;
            done += part;
        }
        Ok(bytes)
    }

    // Appends bytes of one page.
    fn append(&self, bytes: &mut Vec<u8>, place: u64, part: u64) -> Result<(), AllocError>
        requires { place % 4096 + part ≤ 4096 }
        ensures { OnOk result (bytes.new.items ≡ bytes.old.items ++ map (byte_at (λ _. 0) self.now.pages) (range_with_len place part)) }
    {
        let offset = (place % 4096) as usize;
        match self.near_page(place / 4096) {
            Some(page) => bytes.extend_from_slice(&page[offset..offset + part as usize])?,
            None => append_zeros(bytes, part as usize)?,
        }
        Ok(())
    }

    /// Makes a page in memory 0 from a position on. Takes no memory.
    pub fn wipe(&mut self, place: u64)
        requires there { place / 4096 < length self.old.pages }
        ensures length { length self.new.pages ≡ length self.old.pages }
        ensures room { self.new.room ≡ self.old.room }
        ensures before { (far : ℕ → ℕ) (i : ℕ) → i < place → byte_at far self.new.pages i ≡ byte_at far self.old.pages i }
        ensures behind { (i : ℕ) → place ≤ i → i / 4096 ≡ place / 4096 → byte_at (λ _. 0) self.new.pages i ≡ 0 }
        ensures others { (k : ℕ) → (k ≡ place / 4096 → ⊥) → page_at self.new.pages k ≡ page_at self.old.pages k }
        ensures far { is_far (page_at self.new.pages (place / 4096)) ≡ is_far (page_at self.old.pages (place / 4096)) }
        ensures changed { is_changed (page_at self.new.pages (place / 4096)) ≡ is_changed (page_at self.old.pages (place / 4096)) }
        ensures held { is_held (page_at self.new.pages (place / 4096)) ≡ is_held (page_at self.old.pages (place / 4096)) }
        ensures count { near_count self.new.pages ≡ near_count self.old.pages }
    {
        let page = (place / 4096) as usize;
        let offset = (place % 4096) as usize;
        let old = put(&mut self.pages, page, Page::Zero);
        let _zero = put(&mut self.pages, page, wiped(old, offset));
    }

    /// Sends the pages of a run far. Takes no memory.
    pub fn forget(&mut self, from: u64, to: u64)
        requires { to ≤ length self.old.pages }
        ensures length { length self.new.pages ≡ length self.old.pages }
        ensures room { self.new.room ≡ self.old.room }
        ensures far { (k : ℕ) → from ≤ k → k < to → is_far (page_at self.new.pages k) ≡ true }
        ensures others { (k : ℕ) → (from ≤ k → k < to → ⊥) → page_at self.new.pages k ≡ page_at self.old.pages k }
    {
        for page in from..to {
            self.let_go(page);
        }
    }

    /// A store has the changed pages of a run now. They stay in memory while no more than 128 pages are there, so that as many
    /// more can be written; else they go far. Takes no memory.
    pub fn settle(&mut self, from: u64, to: u64)
        requires { to ≤ length self.old.pages }
        ensures length { length self.new.pages ≡ length self.old.pages }
        ensures room { self.new.room ≡ self.old.room }
        ensures settled { (k : ℕ) → from ≤ k → k < to → IsSettled (page_at self.old.pages k) (page_at self.new.pages k) }
        ensures others { (k : ℕ) → (from ≤ k → k < to → ⊥) → page_at self.new.pages k ≡ page_at self.old.pages k }
    {
        for page in from..to {
            self.settle_page(page);
        }
    }

    // A store has a page now.
    fn settle_page(&mut self, page: u64)
        requires { page < length self.old.pages }
        ensures length { length self.new.pages ≡ length self.old.pages }
        ensures room { self.new.room ≡ self.old.room }
        ensures settled { IsSettled (page_at self.old.pages page) (page_at self.new.pages page) }
        ensures others { (k : ℕ) → (k ≡ page → ⊥) → page_at self.new.pages k ≡ page_at self.old.pages k }
    {
        if !self.is_changed(page) {
            return;
        }
        if self.near > 128 {
            self.let_go(page);
            return;
        }
        self.keep(page);
    }
}

// Appends so many zeros.
fn append_zeros(bytes: &mut Vec<u8>, count: usize) -> Result<(), AllocError>
    ensures { OnOk result (bytes.new.items ≡ bytes.old.items ++ replicate count 0) }
{
    let Some(size) = bytes.len().checked_add(count) else {
        return Err(AllocError);
    };
    bytes.resize(size, 0)?;
    Ok(())
}
