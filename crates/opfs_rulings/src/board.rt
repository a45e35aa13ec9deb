//! The state that calls change, whose rows are kept in order and counted, and what a few iterators give next.

ghost use Rattle.std.specs.Prelude.{◌≡◌, ◌+◌, ◌++◌, ◌∷◌, [], None, Some, true, false, IfOk, OnOk, IfSome, IfNone, IsSomeAnd, flat_map, slice_get, slice_set};
ghost use Rattle.std.specs.Ordering.{nat_cmp};
ghost use Rattle.std.specs.Cmp.Lexicographic.{slice_cmp};
ghost use Rattle.std.specs.Option.{option_copied};
ghost use Rattle.opfs_base.specs.Texts.{Text};
ghost use Rattle.opfs_machine.specs.Agents.{agent_of, own_of, with_agent, with_own, adds_own, counted};
ghost use Rattle.opfs_machine.specs.Contents.{in_bytes, next_of};
ghost use Rattle.opfs_machine.specs.Effects.{made, with_changed, with_waiting};
ghost use Rattle.opfs_machine.specs.Ordered.{insert_by};
ghost use Rattle.opfs_machine.specs.Replies.{given_in};
ghost use Rattle.opfs_machine.specs.Rows.{row_at, without, change_at, children_of};
ghost use Rattle.opfs_machine.specs.Sums.{usage, pool, charge};
ghost use Rattle.opfs_machine.specs.declared.state.FileRow.{FileRow};
ghost use Rattle.opfs_rulings.specs.Courses.{IsCourse, given_row, names_in};
ghost use Rattle.opfs_rulings.specs.Known.{IsAgent, IsOwn};
ghost use Rattle.opfs_rulings.specs.Spots.{IsThere};
ghost use Rattle.opfs_rulings.specs.Tallies.{given, IsRaised};

use crate::course::{Course, Event, course_of, courses_after, find_course, keep};
use crate::parts::{
    add_own, count, end, exchange_own, exchange_row, insert_mode, insert_row, lowered_in,
    remove_in, row_in, set_moment, set_waiting, spot_in,
};
use crate::rows::PlacedRow;
use crate::spots::rows_within;
use crate::tally::{Tally, Weight, lowered, no_uses, raised, use_of};
use crate::weights::{own_origin, weigh_own, weigh_row};
use opfs_base::{Bytes, Key, Name, Path, SharedBytes, mode_charge, origin_of, plus, times};
use opfs_machine::{Own, Place, Posted, Row, State};
use std::alloc::{AllocError, Global};
use std::marker::Model;
use std::mem;

/// An iterator is followed once it has given so many names.
const MANY: usize = 64;

/// So many iterators are followed at most.
const MOST: usize = 16;

/// After so many names of iterators for which there was no room, all courses end.
const MISSES: u32 = 1024;

/// A state whose rows stand in the order of their places; what they come to, unless a count became too large; the courses of the
/// iterators that are followed; and how many names others gave since there is no room for one more.
#[derive(Drop)]
pub struct Board {
    state: State<SharedBytes, Own>,
    tally: Option<Tally>,
    courses: Vec<Course>,
    missed: u32,
    alloc: Global,
}

impl Model for Board {
    ghost use Rattle.opfs_base.specs.Texts.{Text};
    ghost use Rattle.opfs_machine.specs.declared.own.Own.{Own};
    ghost use Rattle.opfs_machine.specs.declared.state.State.{State};

    ghost Value = { State Text Own };

    ghost view = { λ board. board.state };

    ghost use Rattle.opfs_rulings.specs.Courses.{IsBoard};

    ghost invariant = { λ board. IsBoard board.state board.tally board.courses.items };
}

impl Board {
    /// A state without rows, own rows and persistent units.
    pub fn make(alloc: Global, state: State<SharedBytes, Own>) -> Result<Board, AllocError>
        requires rows { state.rows ≡ [] }
        requires own { flat_map (λ a. a.own) state.agents ≡ [] }
        requires modes { state.persistent ≡ [] }
        ensures { IfOk result (λ board. board ≡ state) }
    {
        let uses = no_uses(alloc, state.agents.items.as_slice())?;
        let tally = Some(Tally {
            pool: 0,
            charge: 0,
            uses,
        });
        let courses = Vec::new(alloc);
        Ok(Board {
            state,
            tally,
            courses,
            missed: 0,
            alloc,
        })
    }

    /// What is held.
    pub fn held(&self) -> &State<SharedBytes, Own>
        ensures { result.now ≡ self.now }
    {
        &self.state
    }

    /// The row at a place.
    pub fn row_at(&self, key: &Key, path: &Path) -> Option<&Row<SharedBytes>>
        ensures { option_copied result ≡ row_at self.now (key.now, path.now) }
    {
        row_in(&self.state, key, path)
    }

    /// The index of the row at a place.
    pub fn spot(&self, place: &Place) -> Option<usize>
        ensures there { IfSome result (IsThere place.now self.now.rows) }
        ensures missing { IfNone result ((change : FileRow Text → FileRow Text) → self.now.rows ≡ change_at place.now change self.now.rows) }
    {
        match spot_in(&self.state, &place.0, &place.1) {
            Ok(at) => Some(at),
            Err(_) => None,
        }
    }

    /// The row of a directory and those below it, among which its children stand.
    pub fn rows_within(&self, dir: &Place) -> &[PlacedRow]
        ensures { names_in dir.now result.now ≡ children_of self.now dir.now }
    {
        rows_within(self.state.rows.items.as_slice(), dir)
    }

    /// The pool.
    pub fn pool(&self) -> Result<u64, AllocError>
        ensures { IfOk result (λ total. total ≡ pool in_bytes self.now) }
    {
        match &self.tally {
            Some(tally) => Ok(tally.pool),
            None => Err(AllocError),
        }
    }

    /// The charge.
    pub fn charge(&self) -> Result<u64, AllocError>
        ensures { IfOk result (λ total. total ≡ charge in_bytes self.now) }
    {
        match &self.tally {
            Some(tally) => {
                let blocks = times(8, tally.pool)?;
                let total = plus(tally.charge, blocks)?;
                Ok(total)
            }
            None => Err(AllocError),
        }
    }

    /// The blocks that an origin uses.
    pub fn usage(&self, origin: &[u8]) -> Result<u64, AllocError>
        ensures { IfOk result (λ total. total ≡ usage in_bytes self.now origin.now) }
    {
        match &self.tally {
            Some(tally) => match use_of(tally.uses.items.as_slice(), origin) {
                Some(total) => Ok(total),
                None => Err(AllocError),
            },
            None => Err(AllocError),
        }
    }

    /// The name that an iterator over a directory gives next, where it is followed.
    pub fn next_followed(&self, number: u32, row: u32, dir: &Place) -> Option<Option<&Name>>
        ensures { IfSome result (λ name. option_copied name ≡ next_of (given_in (own_of (agent_of self.now number) row)) (children_of self.now dir.now)) }
    {
        let Some(course) = find_course(self.courses.as_slice(), number, row, dir) else {
            return None;
        };
        match course.left.first() {
            Some(name) => Some(Some(name)),
            None => Some(None),
        }
    }

    /// Follows an iterator over a directory, where it has given many names and few others are followed.
    pub fn follow(&mut self, alloc: Global, number: u32, row: u32, dir: &Place)
        requires agent { IsAgent self.old number }
        requires row { IsOwn (agent_of self.old number) row }
        ensures { self.new ≡ self.old }
    {
        if self.next_followed(number, row, dir).is_some() {
            return;
        }
        if !has_given_many(&self.state, number, row) {
            return;
        }
        if self.courses.len() < MOST {
            let course = course_in(alloc, &self.state, number, row, dir);
            keep(&mut self.courses, course);
            return;
        }
        // If each new course ended another one, many iterators in turn would build one at each call.
        self.missed = self.missed.saturating_add(1);
        if self.missed < MISSES {
            return;
        }
        self.missed = 0;
        self.courses.clear();
    }

    /// Makes a row, where none is there.
    pub fn make_row(
        &mut self,
        alloc: Global,
        place: Place,
        row: Row<SharedBytes>,
    ) -> Result<(), AllocError>
        ensures { OnOk result (self.new ≡ made self.old place row) }
    {
        let at = match spot_in(&self.state, &place.0, &place.1) {
            Ok(_) => return Ok(()),
            Err(at) => at,
        };
        let old = self.tally.take();
        let followed = mem::replace(&mut self.courses, Vec::new(alloc));
        let tally = raised(old, origin_of(place.0.as_bytes()), weigh_row(&place, &row));
        let courses = courses_after(alloc, followed, &Event::Made(&place));
        insert_row(&mut self.state, at, place, row)?;
        self.tally = tally;
        self.courses = courses;
        Ok(())
    }

    /// Takes out the row at a place and all below it.
    pub fn remove_within(&mut self, place: &Place)
        ensures { self.new ≡ without self.old place.now }
    {
        let old = self.tally.take();
        let followed = mem::replace(&mut self.courses, Vec::new(self.alloc));
        let tally = lowered_in(old, &self.state, place);
        let courses = courses_after(self.alloc, followed, &Event::Removed(place));
        remove_in(&mut self.state, place);
        self.tally = tally;
        self.courses = courses;
    }

    /// Puts another row in the place of one, and gives that.
    pub fn swap_row(&mut self, at: usize, place: &Place, row: Row<SharedBytes>) -> Row<SharedBytes>
        requires { IsThere place.now self.old.rows at }
        ensures state { self.new ≡ record self.old { rows = slice_set self.old.rows at (place.now, row) } }
        ensures old { slice_get self.old.rows at ≡ Some (place.now, result) }
    {
        let old = self.tally.take();
        let tally = raised(old, origin_of(place.0.as_bytes()), weigh_row(place, &row));
        let gone = exchange_row(&mut self.state, at, place, row);
        self.tally = lowered(
            tally,
            origin_of(place.0.as_bytes()),
            weigh_row(place, &gone),
        );
        gone
    }

    /// Gives an agent one more own row.
    pub fn add_own(&mut self, number: u32, row: Own) -> Result<(), AllocError>
        requires { IsAgent self.old number }
        ensures { OnOk result (self.new ≡ adds_own self.old number row) }
    {
        let old = self.tally.take();
        let tally = raised(old, own_origin(&row), Some(weigh_own(&row)));
        add_own(&mut self.state, number, row)?;
        self.tally = tally;
        Ok(())
    }

    /// Puts another own row in the place of one, and gives that.
    pub fn swap_own(&mut self, number: u32, row: u32, own: Own) -> Own
        requires agent { IsAgent self.old number }
        requires row { IsOwn (agent_of self.old number) row }
        ensures state { self.new ≡ with_own self.old number row own }
        ensures old { own_of (agent_of self.old number) row ≡ Some result }
    {
        let old = self.tally.take();
        let followed = mem::replace(&mut self.courses, Vec::new(self.alloc));
        let tally = raised(old, own_origin(&own), Some(weigh_own(&own)));
        let courses = courses_after(self.alloc, followed, &Event::Swapped(number, row));
        let gone = exchange_own(&mut self.state, number, row, own);
        self.tally = lowered(tally, own_origin(&gone), Some(weigh_own(&gone)));
        self.courses = courses;
        gone
    }

    /// Puts a name behind those that an iterator has given, if there is one.
    pub fn give(
        &mut self,
        alloc: Global,
        number: u32,
        row: u32,
        name: Option<Name>,
    ) -> Result<(), AllocError>
        requires agent { IsAgent self.old number }
        requires row { IsOwn (agent_of self.old number) row }
        ensures { OnOk result (self.new ≡ with_changed self.old number row (λ r. given_row r name)) }
    {
        let followed = mem::replace(&mut self.courses, Vec::new(alloc));
        let courses = courses_after(alloc, followed, &Event::Gave(number, row, &name));
        let mut own = self.swap_own(number, row, Own::ClosedStream);
        give_row(&mut own, name)?;
        self.swap_own(number, row, own);
        self.courses = courses;
        Ok(())
    }

    /// Sets an agent's clock, in milliseconds.
    pub fn set_moment(&mut self, number: u32, moment: u64)
        requires { IsAgent self.old number }
        ensures { self.new ≡ with_agent self.old number (record (agent_of self.old number) { moment = moment }) }
    {
        set_moment(&mut self.state, number, moment);
    }

    /// Marks an agent as waiting for a tag, or for none.
    pub fn set_waiting(&mut self, number: u32, tag: Option<Bytes>)
        requires { IsAgent self.old number }
        ensures { self.new ≡ with_waiting self.old number tag }
    {
        set_waiting(&mut self.state, number, tag);
    }

    /// Ends an agent.
    pub fn end(&mut self, number: u32)
        requires { IsAgent self.old number }
        ensures { self.new ≡ with_agent self.old number (record (agent_of self.old number) { live = false; waits = None }) }
    {
        end(&mut self.state, number);
    }

    /// Counts an entry of an agent, which is the last use of its origin.
    pub fn count(&mut self, alloc: Global, number: u32) -> Result<(), AllocError>
        ensures { OnOk result (self.new ≡ counted self.old number) }
    {
        count(alloc, &mut self.state, number)?;
        Ok(())
    }

    /// Counts an entry of nobody.
    pub fn count_one(&mut self) -> Result<(), AllocError>
        ensures { OnOk result (self.new ≡ record self.old { entries = self.old.entries + 1 }) }
    {
        let entry = plus(self.state.entries, 1)?;
        self.state.entries = entry;
        Ok(())
    }

    /// Adds a tag to those that were posted.
    pub fn post(&mut self, posted: Posted) -> Result<(), AllocError>
        ensures { OnOk result (self.new ≡ record self.old { posted = self.old.posted ++ posted ∷ [] }) }
    {
        self.state.posted.items.push(posted)?;
        Ok(())
    }

    /// Makes a unit persistent.
    pub fn persist(&mut self, unit: Key) -> Result<(), AllocError>
        ensures { OnOk result (self.new ≡ record self.old { persistent = insert_by (slice_cmp nat_cmp) unit self.old.persistent }) }
    {
        let charge = mode_charge(&unit)?;
        let old = self.tally.take();
        let followed = mem::replace(&mut self.courses, Vec::new(self.alloc));
        let is_new = insert_mode(&mut self.state, unit)?;
        self.tally = with_mode(old, charge, is_new);
        self.courses = followed;
        Ok(())
    }
}

/// A tally with the charge of a mode, where that is new.
fn with_mode(tally: Option<Tally>, charge: u64, is_new: bool) -> Option<Tally>
    ensures new { is_new ≡ true → IfSome result (λ new. IsSomeAnd tally (λ old. IsRaised (given [] (record { pool = 0; charge = charge; usage = 0 })) old new)) }
    ensures old { is_new ≡ false → result ≡ tally }
{
    if !is_new {
        return tally;
    }
    let weight = Weight {
        pool: 0,
        charge,
        usage: 0,
    };
    raised(tally, &[], Some(weight))
}

/// An iterator that gives one more name, or the end.
fn give_row(row: &mut Own, name: Option<Name>) -> Result<(), AllocError>
    ensures { OnOk result (row.new ≡ given_row row.old name) }
{
    if let (Own::Iterator(iterator), Some(name)) = (row, name) {
        iterator.given.items.push(name)?;
    }
    Ok(())
}

/// Whether an own row is an iterator that has given many names.
fn has_given_many(state: &State<SharedBytes, Own>, number: u32, row: u32) -> bool
    requires agent { IsAgent state.now number }
    requires row { IsOwn (agent_of state.now number) row }
{
    let agent = &state.agents.items[number as usize - 1];
    match &agent.own.items[row as usize - 1] {
        Own::Iterator(iterator) => iterator.given.items.len() >= MANY,
        _ => false,
    }
}

/// The course of an iterator, where memory is not short.
fn course_in(
    alloc: Global,
    state: &State<SharedBytes, Own>,
    number: u32,
    row: u32,
    dir: &Place,
) -> Option<Course>
    requires agent { IsAgent state.now number }
    requires row { IsOwn (agent_of state.now number) row }
    ensures { IfSome result (IsCourse state.now) }
{
    let agent = &state.agents.items[number as usize - 1];
    let Own::Iterator(iterator) = &agent.own.items[row as usize - 1] else {
        return None;
    };
    let given = iterator.given.items.as_slice();
    let Ok(course) = course_of(alloc, state.rows.items.as_slice(), number, row, dir, given) else {
        return None;
    };
    Some(course)
}
