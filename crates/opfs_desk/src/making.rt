//! A desk that begins over a recovered image.

ghost use Rattle.std.specs.Prelude.{◌≡◌, ◌≤◌, [], length, vec_capacity, IfOk, IfErr};
ghost use Rattle.opfs_desk.specs.Seen.{entries_of, disk_of};
ghost use Rattle.opfs_desk_steps.specs.Parts.Held.{HaveOwnKeys};
ghost use Rattle.opfs_books.specs.Openings.Openings.{fixed_by};

use crate::desk::Desk;
use opfs_base::Extent;
use opfs_books::{Books, a_recovered_image_opens_a_run, limits_of, the_books_show_their_images};
use opfs_data::Swap;
use opfs_desk_steps::{DeskParts, Iterators, Ledger, OpenPages};
use opfs_hall::Told;
use opfs_image::Recovered;
use opfs_journal::Journal;
use opfs_outside::Disk;
use opfs_pages::handles_stay_whole;
use opfs_register::Who;
use opfs_space::{Space, first_blocks_are_right};
use opfs_state::State;
use std::alloc::{AllocError, Global};

// Room for so many extents.
fn make_freed(alloc: Global, count: u32) -> Result<Vec<Extent>, AllocError>
    ensures { IfOk result (λ freed. count ≤ vec_capacity freed) }
{
    let mut freed = Vec::new(alloc);
    freed.reserve(count as usize)?;
    Ok(freed)
}

// A desk's parts where it begins: no bytes of an open row are kept.
fn parts_of<D: Disk>(
    alloc: Global,
    journal: Journal<D>,
    books: Books<State>,
    freed: Vec<Extent>,
    space: Space,
    base: u64,
) -> DeskParts<D>
    ensures { result ≡ record { ledger = record { journal = journal; books = books; freed = freed; alloc = alloc }; pages = record { swap = []; space = space; base = base } } }
{
    let swap = Swap::make(alloc);
    DeskParts {
        ledger: Ledger {
            journal,
            books,
            freed,
            alloc,
        },
        pages: OpenPages { swap, space, base },
    }
}

impl<D: Disk> Desk<D> {
    /// A desk over a recovered image, with agents whose keys are texts of origins and name no bucket. Its history is empty. Where
    /// there is no memory it gives the disk back, which it has not called.
    pub fn make(alloc: Global, from: Recovered<D>, agents: Vec<Who>) -> Result<Desk<D>, D>
        requires few { length agents.items ≤ 64 }
        requires keys { HaveOwnKeys (fixed_by D.Disk from agents.items).opening }
        ensures fixed { IfOk result (λ desk. desk.fixed ≡ fixed_by D.Disk from agents.items) }
        ensures entries { IfOk result (λ desk. entries_of desk ≡ []) }
        ensures disk { IfOk result (λ desk. disk_of desk ≡ from.journal.disk) }
        ensures err { IfErr result (λ disk. disk ≡ from.journal.disk) }
    {
        a_recovered_image_opens_a_run(&from);
        first_blocks_are_right();
        handles_stay_whole();
        the_books_show_their_images::<D>();
        let who = Told::of(&agents);
        let told = Told::of(&from);
        let Recovered {
            journal,
            geometry,
            tree,
            shed,
            map,
            charge,
        } = from;
        let mut journal = journal;
        let Ok(freed) = make_freed(alloc, geometry.blocks) else {
            return Err(journal.give_back());
        };
        let Ok(space) = Space::make(alloc, geometry.blocks, map) else {
            return Err(journal.give_back());
        };
        let limits = limits_of(&geometry);
        let Ok(state) = State::make(alloc, tree, shed, charge, limits, agents) else {
            return Err(journal.give_back());
        };
        match Books::make(alloc, &mut journal, limits.area, state) {
            Ok(books) => Ok(Desk {
                parts: parts_of(alloc, journal, books, freed, space, geometry.data_base()),
                from: told,
                agents: who,
                iterators: Iterators::make(alloc),
            }),
            Err(state) => {
                state.end();
                Err(journal.give_back())
            }
        }
    }
}
