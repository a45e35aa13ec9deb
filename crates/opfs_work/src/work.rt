//! The working copy.

ghost use Rattle.std.specs.Prelude.{◌≡◌, ℕ, ◌+◌, ◌-◌, ◌*◌, ◌/◌, ◌%◌, ◌^◌, ◌<◌, ◌≤◌, ◌↔◌, [], true, false, length, min, max, unwrap_or, is_none, not, Some, IsTrue, IfOk, OnOk, OnErr, IfSome, slice_index, slice_set};
ghost use Rattle.opfs_base.specs.Blocks.{blocks};
ghost use Rattle.opfs_splice.specs.Splicing.{splice, resize, window};
ghost use Rattle.opfs_work.specs.declared.pages.Page.{Page};
ghost use Rattle.opfs_work.specs.Pages.{is_zero, is_near, is_far, is_changed, is_held, bytes_near, as_kept, one_near, page_at, byte_at, near_count, added, pages_in, CoversFar, IsSettled};

use crate::pages::Page;
use crate::sizes::{blocks, blocks_to};
use crate::span::Span;
use crate::table::Table;
use opfs_base::{Bytes, Data};
use std::alloc::{AllocError, Global};
use std::marker::Model;

/// The working copy of a stream or an access handle: its bytes in pages, an offset or cursor, and the blocks that are
/// reserved for it. At most 256 pages are in memory.
#[derive(Drop)]
pub struct Work {
    table: Table,
    length: u64,
    position: u64,
    reserve: u64,
    changed: Span,
}

impl Model for Work {
    ghost use Rattle.opfs_work.specs.Works.{WorkingCopy, IsWork, AreBetween};

    ghost Value = { WorkingCopy };

    ghost view = { λ work. record { pages = work.table.pages; length = work.length; position = work.position; reserve = work.reserve; room = work.table.room; changed_from = work.changed.from; changed_to = work.changed.to } };

    ghost invariant = { λ work. IsWork work.table.pages work.table.room work.length work.reserve × AreBetween work.table.pages work.changed.from work.changed.to };
}

impl Work {
    ghost use Rattle.opfs_work.specs.Works.{contents, place_in, IsStored, IsTouched, IsNearWrite, IsNearSize, IsNearRead};

    /// No bytes. Takes no memory.
    pub fn fresh(alloc: Global) -> Work
        ensures { result ≡ record { pages = []; length = 0; position = 0; reserve = 0; room = 0; changed_from = 0; changed_to = 0 } }
    {
        Work {
            table: Table::fresh(alloc),
            length: 0,
            position: 0,
            reserve: 0,
            changed: Span::none(),
        }
    }

    /// So many bytes, all of them elsewhere.
    pub fn far(alloc: Global, length: u64, position: u64, reserve: u64) -> Result<Work, AllocError>
        ensures length { IfOk result (λ work. work.length ≡ length) }
        ensures position { IfOk result (λ work. work.position ≡ position) }
        ensures reserve { IfOk result (λ work. work.reserve ≡ reserve) }
        ensures far { IfOk result (λ work. (k : ℕ) → k < blocks length → is_far (page_at work.pages k) ≡ true) }
        ensures stored { IfOk result (λ work. (k : ℕ) → IsStored work k) }
        ensures none { IfOk result (λ work. near_count work.pages ≡ 0) }
    {
        let table = Table::far(alloc, blocks(length), reserve)?;
        Ok(Work {
            table,
            length,
            position,
            reserve,
            changed: Span::none(),
        })
    }

    /// These bytes and this reserve, with the offset 0.
    pub fn make(alloc: Global, given: &Data, reserve: u64) -> Result<Work, AllocError>
        requires { blocks (length given.now) ≤ 256 }
        ensures bytes { IfOk result (λ work. (far : ℕ → ℕ) → contents far work ≡ given.now) }
        ensures length { IfOk result (λ work. work.length ≡ length given.now) }
        ensures position { IfOk result (λ work. work.position ≡ 0) }
        ensures reserve { IfOk result (λ work. work.reserve ≡ reserve) }
        ensures near { IfOk result (λ work. (k : ℕ) → is_far (page_at work.pages k) ≡ false) }
    {
        let count = blocks(given.len());
        let mut work = Work::fresh(alloc);
        work.prepare(count.max(reserve))?;
        work.grow(count);
        work.write_within(given, Some(0));
        work.seek(0);
        work.drop_reserve();
        work.grow(reserve);
        Ok(work)
    }

    /// How many bytes there are.
    pub fn size(&self) -> u64
        ensures { result ≡ self.now.length }
    {
        self.length
    }

    /// The offset or cursor.
    pub fn position(&self) -> u64
        ensures { result ≡ self.now.position }
    {
        self.position
    }

    /// How many blocks are reserved.
    pub fn reserve(&self) -> u64
        ensures { result ≡ self.now.reserve }
    {
        self.reserve
    }

    /// How many pages there are: the blocks of the bytes, for which there is room.
    pub fn pages(&self) -> u64
        ensures pages { result ≡ length self.now.pages }
        ensures blocks { result ≡ blocks self.now.length }
        ensures within { result ≤ self.now.room }
        ensures reserved { self.now.reserve ≤ self.now.room }
    {
        let _ = &self.length;
        self.table.len()
    }

    /// How many pages are in memory.
    pub fn resident(&self) -> u64
        ensures near { result ≡ near_count self.now.pages }
        ensures few { result ≤ 256 }
    {
        self.table.near()
    }

    /// Whether a page is all zeros that are not stored.
    pub fn is_zero(&self, page: u64) -> bool
        requires { page < length self.now.pages }
        ensures { result ≡ is_zero (page_at self.now.pages page) }
    {
        self.table.is_zero(page)
    }

    /// Whether a page is elsewhere.
    pub fn is_far(&self, page: u64) -> bool
        requires { page < length self.now.pages }
        ensures { result ≡ is_far (page_at self.now.pages page) }
    {
        self.table.is_far(page)
    }

    /// Whether a page is in memory and no store has its bytes.
    pub fn is_changed(&self, page: u64) -> bool
        requires { page < length self.now.pages }
        ensures { result ≡ is_changed (page_at self.now.pages page) }
    {
        self.table.is_changed(page)
    }

    /// Before this page a store has each.
    pub fn changed_from(&self) -> u64
        ensures { result ≡ self.now.changed_from }
    {
        self.changed.from
    }

    /// From this page on a store has each.
    pub fn changed_to(&self) -> u64
        ensures { result ≡ self.now.changed_to }
    {
        self.changed.to
    }

    /// The bytes of a page that is in memory.
    pub fn near_page(&self, page: u64) -> Option<&[u8]>
        requires { page < length self.now.pages }
        ensures none { is_none result ≡ not (is_near (page_at self.now.pages page)) }
        ensures bytes { IfSome result (λ bytes. bytes_near (page_at self.now.pages page) ≡ Some bytes.now) }
        ensures length { IfSome result (λ bytes. length bytes.now ≡ 4096) }
        ensures tail { IfSome result (λ bytes. (i : ℕ) → self.now.length ≤ i → i / 4096 ≡ page → slice_index bytes.now (i % 4096) ≡ 0) }
    {
        let _ = &self.length;
        self.table.near_page(page)
    }

    /// Makes room for so many blocks.
    pub fn prepare(&mut self, blocks: u64) -> Result<(), AllocError>
        ensures room { OnOk result (blocks ≤ self.new.room) }
        ensures kept { self.old.room ≤ self.new.room }
        ensures same { self.new ≡ record self.old { room = self.new.room } }
        ensures err { OnErr result (self.new ≡ self.old) }
    {
        self.table.prepare(blocks)?;
        Ok(())
    }

    /// Reserves at least so many blocks. Takes no memory.
    pub fn grow(&mut self, reserve: u64)
        requires { reserve ≤ self.old.room }
        ensures { self.new ≡ record self.old { reserve = max self.old.reserve reserve } }
    {
        self.reserve = self.reserve.max(reserve);
    }

    /// Reserves nothing any more. Takes no memory.
    pub fn drop_reserve(&mut self)
        ensures { self.new ≡ record self.old { reserve = 0 } }
    {
        self.reserve = 0;
    }

    /// Sets the offset or cursor, past the end too. Takes no memory.
    pub fn seek(&mut self, position: u64)
        ensures { self.new ≡ record self.old { position = position } }
    {
        self.position = position;
    }

    /// Whether a write of so many bytes at a position, or else at the offset, needs no more blocks than are reserved.
    pub fn fits(&self, position: Option<u64>, len: u64) -> bool
        ensures { IsTrue result ↔ (blocks (max self.now.length (place_in self.now position + len)) ≤ self.now.reserve) }
    {
        let at = position.unwrap_or(self.position);
        blocks(self.length).max(blocks_to(at, len)) <= self.reserve
    }

    /// Whether so many bytes need no more blocks than are reserved.
    pub fn fits_size(&self, size: u64) -> bool
        ensures { IsTrue result ↔ (blocks size ≤ self.now.reserve) }
    {
        blocks(size) <= self.reserve
    }

    /// Brings a page that is elsewhere into memory, with the bytes that a store has of it. Takes no memory.
    pub fn bring(&mut self, page: u64, bytes: &[u8])
        requires far { is_far (page_at self.old.pages page) ≡ true }
        requires few { near_count self.old.pages < 256 }
        requires page { length bytes.now ≡ 4096 }
        requires tail { (i : ℕ) → self.old.length ≤ i → i / 4096 ≡ page → slice_index bytes.now (i % 4096) ≡ 0 }
        ensures { self.new ≡ record self.old { pages = slice_set self.old.pages page (Page.Clean bytes.now) } }
    {
        self.table.load(page, bytes);
    }

    /// Whether no page with a byte that a read gives is elsewhere.
    pub fn near_read(&self, len: u64, at: Option<u64>) -> bool
        ensures { IsTrue result ↔ IsNearRead self.now (place_in self.now at) len }
    {
        let start = at.unwrap_or(self.position);
        let end = start.saturating_add(len).min(self.length);
        let _room = self.table.room();
        let _len = self.table.len();
        self.table.is_near_between(start, end)
    }

    /// The bytes from a place, or else from the cursor, on; the cursor moves behind them.
    pub fn read(&mut self, len: u64, at: Option<u64>) -> Result<Bytes, AllocError>
        requires { IsNearRead self.old (place_in self.old at) len }
        ensures bytes { IfOk result (λ bytes. (far : ℕ → ℕ) → bytes ≡ window (contents far self.old) (place_in self.old at) len) }
        ensures moved { IfOk result (λ bytes. self.new ≡ record self.old { position = min (place_in self.old at) self.old.length + length bytes }) }
        ensures err { OnErr result (self.new ≡ self.old) }
    {
        let start = at.unwrap_or(self.position).min(self.length);
        let len = len.min(self.length - start);
        let _room = self.table.room();
        let _len = self.table.len();
        let bytes = self.table.copy_out(start, len)?;
        self.position = start + len;
        Ok(Bytes::from_vec(bytes))
    }
    /// Whether a write of so many bytes needs no page that is elsewhere, no more blocks than are reserved and no more than
    /// 256 pages in memory.
    pub fn near_write(&self, position: Option<u64>, len: u64) -> bool
        ensures { IsTrue result ↔ IsNearWrite self.now (place_in self.now position) len }
    {
        let at = position.unwrap_or(self.position);
        if !self.fits(Some(at), len) {
            return false;
        }
        let _room = self.table.room();
        let _len = self.table.len();
        let near = self.table.near();
        if !self.table.covers_far(self.length.min(at), at + len) {
            return false;
        }
        near + self.table.added(at, len) <= 256
    }

    /// Whether a new size needs no page that is elsewhere and no more blocks than are reserved.
    pub fn near_size(&self, size: u64) -> bool
        ensures { IsTrue result ↔ IsNearSize self.now size }
    {
        if !self.fits_size(size) {
            return false;
        }
        let _room = self.table.room();
        let _len = self.table.len();
        self.table.covers_far(self.length, size)
    }

    // Adds zeros up to a size. Takes no memory.
    fn stretch(&mut self, size: u64)
        requires { blocks size ≤ self.old.reserve }
        ensures length { self.new.length ≡ max self.old.length size }
        ensures pages { length self.new.pages ≡ max (length self.old.pages) (blocks size) }
        ensures same { (k : ℕ) → page_at self.new.pages k ≡ page_at self.old.pages k }
        ensures near { near_count self.new.pages ≡ near_count self.old.pages }
        ensures rest { self.new ≡ record self.old { pages = self.new.pages; length = self.new.length } }
    {
        if self.length < size {
            self.table.stretch(blocks(size));
            self.length = size;
        }
    }

    // Takes bytes away from the end, down to a size. Takes no memory.
    fn shrink(&mut self, size: u64)
        requires { size ≤ self.old.length }
        ensures length { self.new.length ≡ size }
        ensures same { (far : ℕ → ℕ) (i : ℕ) → i < size → byte_at far self.new.pages i ≡ byte_at far self.old.pages i }
        ensures whole { (k : ℕ) → 4096 * k + 4096 ≤ size → page_at self.new.pages k ≡ page_at self.old.pages k }
        ensures far { (k : ℕ) → k < blocks size → is_far (page_at self.new.pages k) ≡ is_far (page_at self.old.pages k) }
        ensures held { (k : ℕ) → k < blocks size → is_held (page_at self.new.pages k) ≡ is_held (page_at self.old.pages k) }
        ensures rest { self.new ≡ record self.old { pages = self.new.pages; length = size } }
    {
        let _ = &self.length;
        self.table.cut(blocks(size));
        self.length = size;
        if size % 4096 == 0 {
            return;
        }
        self.table.wipe(size);
    }

    // The pages that hold a byte between two positions may change. Takes no memory.
    fn mark(&mut self, from: u64, to: u64)
        ensures kept { (k : ℕ) → self.old.changed_from ≤ k → k < self.old.changed_to → (self.new.changed_from ≤ k) × (k < self.new.changed_to) }
        ensures added { (k : ℕ) → from < to → from < 4096 * k + 4096 → 4096 * k < to → (self.new.changed_from ≤ k) × (k < self.new.changed_to) }
        ensures rest { self.new ≡ record self.old { changed_from = self.new.changed_from; changed_to = self.new.changed_to } }
    {
        let _ = &self.length;
        if to <= from {
            return;
        }
        self.changed.add(from / 4096, blocks(to));
    }

    // Zeros come up to a position: a page that is not full differs from then on from the one that a store has. Takes no
    // memory.
    fn wake(&mut self, to: u64)
        requires { self.old.length < to → 0 < self.old.length % 4096 → (self.old.changed_from ≤ self.old.length / 4096) × (self.old.length / 4096 < self.old.changed_to) }
        ensures bytes { (far : ℕ → ℕ) (i : ℕ) → byte_at far self.new.pages i ≡ byte_at far self.old.pages i }
        ensures alike { (k : ℕ) → (is_far (page_at self.new.pages k) ≡ is_far (page_at self.old.pages k)) × (one_near (page_at self.new.pages k) ≡ one_near (page_at self.old.pages k)) }
        ensures others { (k : ℕ) → (self.old.length < to → 0 < self.old.length % 4096 → k ≡ self.old.length / 4096 → ⊥) → page_at self.new.pages k ≡ page_at self.old.pages k }
        ensures awake { self.old.length < to → 0 < self.old.length % 4096 → is_held (page_at self.new.pages (self.old.length / 4096)) ≡ is_far (page_at self.old.pages (self.old.length / 4096)) }
        ensures near { near_count self.new.pages ≡ near_count self.old.pages }
        ensures rest { self.new ≡ record self.old { pages = self.new.pages } }
    {
        if to <= self.length {
            return;
        }
        if self.length % 4096 == 0 {
            return;
        }
        self.table.touch(self.length / 4096);
    }

    // Writes bytes at a position, behind which the offset stands then. Takes no memory.
    fn write_over(&mut self, at: u64, given: &Data)
        requires near { IsNearWrite self.old at (length given.now) }
        requires marked { (k : ℕ) → at / 4096 ≤ k → k < at / 4096 + pages_in at (length given.now) → (self.old.changed_from ≤ k) × (k < self.old.changed_to) }
        ensures bytes { (far : ℕ → ℕ) → contents far self.new ≡ splice (contents far self.old) at given.now }
        ensures length { self.new.length ≡ max self.old.length (at + length given.now) }
        ensures position { self.new.position ≡ at + length given.now }
        ensures rest { self.new ≡ record self.old { pages = self.new.pages; length = self.new.length; position = self.new.position } }
        ensures changed { (k : ℕ) → at / 4096 ≤ k → k < at / 4096 + pages_in at (length given.now) → is_changed (page_at self.new.pages k) ≡ true }
        ensures early { (k : ℕ) → k < at / 4096 → page_at self.new.pages k ≡ page_at self.old.pages k }
        ensures late { (k : ℕ) → at / 4096 + pages_in at (length given.now) ≤ k → page_at self.new.pages k ≡ page_at self.old.pages k }
        ensures count { near_count self.new.pages ≡ near_count self.old.pages + added self.old.pages at (length given.now) }
    {
        let _room = self.table.room();
        let _len = self.table.len();
        let end = at + given.len();
        self.stretch(end);
        self.table.copy(at, given);
        self.position = end;
    }

    /// Writes bytes at a position, or else at the offset, which moves behind them (File System: write a chunk). Takes no
    /// memory.
    pub fn write_within(&mut self, given: &Data, position: Option<u64>)
        requires { IsNearWrite self.old (place_in self.old position) (length given.now) }
        ensures bytes { (far : ℕ → ℕ) → contents far self.new ≡ splice (contents far self.old) (place_in self.old position) given.now }
        ensures length { self.new.length ≡ max self.old.length (place_in self.old position + length given.now) }
        ensures position { self.new.position ≡ place_in self.old position + length given.now }
        ensures reserve { self.new.reserve ≡ self.old.reserve }
        ensures room { self.new.room ≡ self.old.room }
        ensures changed { (k : ℕ) → place_in self.old position / 4096 ≤ k → k < place_in self.old position / 4096 + pages_in (place_in self.old position) (length given.now) → is_changed (page_at self.new.pages k) ≡ true }
        ensures untouched { (k : ℕ) → (IsTouched self.old.length (place_in self.old position) (length given.now) k → ⊥) → page_at self.new.pages k ≡ page_at self.old.pages k }
        ensures stored { (k : ℕ) → IsStored self.new k → IsStored self.old k × (IsTouched self.old.length (place_in self.old position) (length given.now) k → ⊥) }
        ensures count { near_count self.new.pages ≡ near_count self.old.pages + added self.old.pages (place_in self.old position) (length given.now) }
    {
        let at = position.unwrap_or(self.position);
        let _room = self.table.room();
        let _len = self.table.len();
        self.mark(self.length.min(at), at + given.len());
        self.wake(at);
        self.write_over(at, given);
    }

    /// Cuts the bytes or extends them with 0 to a size; an offset or cursor past it becomes it (File System: truncate).
    /// Takes no memory.
    pub fn truncate_within(&mut self, size: u64)
        requires { IsNearSize self.old size }
        ensures bytes { (far : ℕ → ℕ) → contents far self.new ≡ resize (contents far self.old) size }
        ensures length { self.new.length ≡ size }
        ensures position { self.new.position ≡ min self.old.position size }
        ensures reserve { self.new.reserve ≡ self.old.reserve }
        ensures room { self.new.room ≡ self.old.room }
        ensures whole { (k : ℕ) → 4096 * k + 4096 ≤ min self.old.length size → page_at self.new.pages k ≡ page_at self.old.pages k }
        ensures far { (k : ℕ) → k < blocks size → is_far (page_at self.new.pages k) ≡ is_far (page_at self.old.pages k) }
        ensures stored { (k : ℕ) → k < blocks size → IsStored self.new k → IsStored self.old k × (IsTouched self.old.length size 0 k → ⊥) }
    {
        if self.length < size {
            self.lengthen(size);
        } else {
            self.shrink(size);
        }
        self.position = self.position.min(size);
    }

    // Extends the bytes with 0 to a size. Takes no memory.
    fn lengthen(&mut self, size: u64)
        requires near { IsNearSize self.old size }
        requires longer { self.old.length < size }
        ensures bytes { (far : ℕ → ℕ) → contents far self.new ≡ resize (contents far self.old) size }
        ensures length { self.new.length ≡ size }
        ensures whole { (k : ℕ) → 4096 * k + 4096 ≤ self.old.length → page_at self.new.pages k ≡ page_at self.old.pages k }
        ensures far { (k : ℕ) → is_far (page_at self.new.pages k) ≡ is_far (page_at self.old.pages k) }
        ensures stored { (k : ℕ) → IsStored self.new k → IsStored self.old k × (IsTouched self.old.length size 0 k → ⊥) }
        ensures rest { (self.new.position ≡ self.old.position) × (self.new.reserve ≡ self.old.reserve) × (self.new.room ≡ self.old.room) }
    {
        self.mark(self.length, size);
        self.wake(size);
        self.stretch(size);
    }

    /// Sends a page far, whose bytes a store has or nobody needs. Takes no memory.
    pub fn let_go(&mut self, page: u64)
        requires { page < length self.old.pages }
        ensures { self.new ≡ record self.old { pages = slice_set self.old.pages page Page.Far } }
    {
        self.table.let_go(page);
    }

    /// A store has a page now, which stays in memory. Takes no memory.
    pub fn keep(&mut self, page: u64)
        requires { page < length self.old.pages }
        ensures { self.new ≡ record self.old { pages = slice_set self.old.pages page (as_kept (page_at self.old.pages page)) } }
    {
        self.table.keep(page);
    }

    /// Sends the pages of a run far, as `let_go` does. Takes no memory.
    pub fn forget(&mut self, from: u64, to: u64)
        requires { to ≤ length self.old.pages }
        ensures far { (k : ℕ) → from ≤ k → k < to → is_far (page_at self.new.pages k) ≡ true }
        ensures others { (k : ℕ) → (from ≤ k → k < to → ⊥) → page_at self.new.pages k ≡ page_at self.old.pages k }
        ensures size { length self.new.pages ≡ length self.old.pages }
        ensures rest { self.new ≡ record self.old { pages = self.new.pages } }
    {
        self.table.forget(from, to);
    }

    /// A store has each page now. Changed ones stay in memory while at most 128 are there. Takes no memory.
    pub fn settle(&mut self)
        ensures pages { (k : ℕ) → IsSettled (page_at self.old.pages k) (page_at self.new.pages k) }
        ensures stored { (k : ℕ) → IsStored self.new k }
        ensures size { length self.new.pages ≡ length self.old.pages }
        ensures rest { self.new ≡ record self.old { pages = self.new.pages; changed_from = 0; changed_to = 0 } }
    {
        let to = self.changed.to.min(self.table.len());
        self.table.settle(self.changed.from, to);
        self.changed = Span::none();
    }

    /// Other bytes are there now, of which a store has all that were not: cuts to a length, or goes on with pages that are
    /// elsewhere. Takes no memory.
    pub fn resize_far(&mut self, size: u64)
        requires { blocks size ≤ self.old.room }
        ensures bytes { (far : ℕ → ℕ) (i : ℕ) → i < 4096 * length self.old.pages → i < size → byte_at far self.new.pages i ≡ byte_at far self.old.pages i }
        ensures far { (k : ℕ) → length self.old.pages ≤ k → k < blocks size → is_far (page_at self.new.pages k) ≡ true }
        ensures whole { (k : ℕ) → 4096 * k + 4096 ≤ size → k < length self.old.pages → page_at self.new.pages k ≡ page_at self.old.pages k }
        ensures rest { self.new ≡ record self.old { pages = self.new.pages; length = size } }
    {
        if self.length < size {
            self.table.fill_far(blocks(size));
            self.length = size;
        } else {
            self.shrink(size);
        }
    }
}
