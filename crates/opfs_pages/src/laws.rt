// What goes on of the store's pages.
ghost use Rattle.std.specs.Prelude.{◌≡◌, ℕ, ◌+◌, ◌≤◌, ◌<◌, [], max, false, List, length, slice_index_or};
ghost use Rattle.opfs_splice.specs.Splicing.{splice, resize};
ghost use Rattle.opfs_work.specs.Works.{IsTouched};
ghost use Rattle.opfs_base.specs.Blocks.{blocks};
ghost use Rattle.opfs_data.specs.Pages.{page_of, blank};
ghost use Rattle.opfs_data.specs.Rows.{pages_at};
ghost use Rattle.opfs_pages.specs.Copies.{IsBegun, IsCopy, AreHeld};
ghost use Rattle.opfs_pages.specs.Stages.{Stage, IsAtRest, changed};

/// The law that a page which the store has, and which a write or a new size does not touch, begins as the row's page
/// afterwards too, where the row still has it.
pub fn untouched_pages_go_on()
    ensures written { (old given page : List ℕ) (i at : ℕ) → (IsTouched (length old) at (length given) i → ⊥) → IsBegun old i page → IsBegun (splice old at given) i page }
    ensures resized { (old page : List ℕ) (i size : ℕ) → (IsTouched (length old) size 0 i → ⊥) → IsBegun old i page → IsBegun (resize old size) i page }
{}

/// The law of pages that are not written: what the store has of them begins as the row's page after the call.
pub fn pages_at_rest_go_on()
    ensures { (s : Stage) (bytes : List ℕ) (i : ℕ) → length s.work.pages ≡ blocks s.work.length → IsCopy bytes s.work → AreHeld bytes s.work s.content s.base (pages_at s.agent s.row s.swap) → IsAtRest s i
        → IsBegun (changed bytes s.at s.given s.size) i (page_of s.content s.base (slice_index_or (pages_at s.agent s.row s.swap) i blank)) }
{}

/// The law of what a call leaves: a write its own bytes and size, a new size the cut or the extension, a content the row's bytes.
pub fn a_call_changes_as_it_says()
    ensures written { (bytes given : List ℕ) (at : ℕ) → changed bytes at given (max (length bytes) (at + length given)) ≡ splice bytes at given }
    ensures resized { (bytes : List ℕ) (size : ℕ) → changed bytes 0 [] size ≡ resize bytes size }
    ensures stored { (bytes : List ℕ) → changed bytes 0 [] (length bytes) ≡ bytes }
{}
