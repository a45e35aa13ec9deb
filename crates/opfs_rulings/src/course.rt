//! What iterators give next, each found by one look-up.

ghost use Rattle.std.specs.Prelude.{◌≡◌, Contains, IfOk, IfSome, IsTrue, OnOk};
ghost use Rattle.opfs_base.specs.Places.{child_name};
ghost use Rattle.opfs_rulings.specs.Sets.{IsSetOf};
ghost use Rattle.opfs_rulings.specs.Courses.{AreFrom, Becomes, GivesOrStays, HasChild, HasGiven, HasLost, HasMore, HasOthers, IsGivenBy, MayAdd, StaysBeside, names_in};

use crate::rows::PlacedRow;
use crate::sets::names_of;
use opfs_base::{Name, child_name, compare_places, copy_place, is_within};
use opfs_machine::Place;
use std::alloc::{AllocError, Global};
use std::collections::BTreeSet;

/// Of an iterator over a directory: the names that it has given, and those of the children that it has not.
#[derive(Drop)]
pub struct Course {
    pub agent: u32,
    pub row: u32,
    pub dir: Place,
    pub given: BTreeSet<Name>,
    pub left: BTreeSet<Name>,
}

/// What happens to a board, as far as iterators see it.
#[derive(Drop)]
pub enum Event<'a> {
    /// A row was made at a place.
    Made(&'a Place),
    /// The row at a place went, and all below it.
    Removed(&'a Place),
    /// The iterator of this agent in this own row gave a name, or the end.
    Gave(u32, u32, &'a Option<Name>),
    /// This agent has another own row in the place of one.
    Swapped(u32, u32),
}

/// Adds the name of what stands at a place to those that are left, if it is a child and was not given.
fn add_child(
    alloc: Global,
    left: &mut BTreeSet<Name>,
    dir: &Place,
    place: &Place,
    given: &BTreeSet<Name>,
) -> Result<(), AllocError>
    ensures { OnOk result (HasChild (child_name dir.now place.now) given.now left.old left.new) }
{
    let Some(name) = child_name(&dir.0, &dir.1, place) else {
        return Ok(());
    };
    if given.contains(name) {
        return Ok(());
    }
    left.insert(name.copy(alloc)?)?;
    Ok(())
}

/// The names of the children that were not given.
fn left_of(
    alloc: Global,
    rows: &[PlacedRow],
    dir: &Place,
    given: &BTreeSet<Name>,
) -> Result<BTreeSet<Name>, AllocError>
    ensures { IfOk result (HasOthers (names_in dir.now rows.now) given.now) }
{
    let mut left = BTreeSet::new(alloc);
    for entry in rows {
        add_child(alloc, &mut left, dir, &entry.0, given)?;
    }
    Ok(left)
}

/// The course of an iterator that has given these names.
pub fn course_of(
    alloc: Global,
    rows: &[PlacedRow],
    agent: u32,
    row: u32,
    dir: &Place,
    given: &[Name],
) -> Result<Course, AllocError>
    ensures whose { IfOk result (λ course. (course.agent ≡ agent) × (course.row ≡ row) × (course.dir ≡ dir.now)) }
    ensures past { IfOk result (λ course. IsSetOf given.now course.given) }
    ensures next { IfOk result (λ course. HasOthers (names_in dir.now rows.now) course.given course.left) }
{
    let given = names_of(alloc, given)?;
    let left = left_of(alloc, rows, dir, &given)?;
    let dir = copy_place(alloc, &dir.0, &dir.1)?;
    Ok(Course {
        agent,
        row,
        dir,
        given,
        left,
    })
}

/// A course with what stands at a place now; none where memory is short.
fn with_child(alloc: Global, mut course: Course, place: &Place) -> Option<Course>
    ensures { IfSome result (HasMore place.now course) }
{
    if add_child(alloc, &mut course.left, &course.dir, place, &course.given).is_err() {
        return None;
    }
    Some(course)
}

/// Puts a course behind others, where there is one and memory is not short.
pub fn keep(courses: &mut Vec<Course>, course: Option<Course>)
    ensures { MayAdd course courses.old.items courses.new.items }
{
    let Some(course) = course else {
        return;
    };
    let _ = courses.push(course);
}

/// A course without what stood at a place and below it; none where that is its directory, or above it.
fn without_place(mut course: Course, place: &Place) -> Option<Course>
    ensures { IfSome result (HasLost place.now course) }
{
    if is_within(&place.0, &place.1, &course.dir) {
        return None;
    }
    let Some(name) = child_name(&course.dir.0, &course.dir.1, place) else {
        return Some(course);
    };
    course.left.remove(name);
    Some(course)
}

/// A course whose iterator has given a name.
fn with_given(alloc: Global, mut course: Course, name: &Name) -> Result<Course, AllocError>
    ensures { IfOk result (HasGiven name.now course) }
{
    course.given.insert(name.copy(alloc)?)?;
    course.left.remove(name);
    Ok(course)
}

/// The same of an iterator that may be at its end; none of another one.
fn with_end(
    alloc: Global,
    course: Course,
    agent: u32,
    row: u32,
    name: &Option<Name>,
) -> Option<Course>
    ensures { IfSome result (IsGivenBy agent row name.now course) }
{
    if course.agent != agent || course.row != row {
        return None;
    }
    match name {
        None => Some(course),
        Some(name) => with_given(alloc, course, name).ok(),
    }
}

/// The same of an iterator that may be another one, whose course stays.
fn passed(
    alloc: Global,
    course: Course,
    agent: u32,
    row: u32,
    name: &Option<Name>,
) -> Option<Course>
    ensures { IfSome result (GivesOrStays agent row name.now course) }
{
    if course.agent != agent || course.row != row {
        return Some(course);
    }
    with_end(alloc, course, agent, row, name)
}

/// A course, where it is not that of an own row.
fn other(course: Course, agent: u32, row: u32) -> Option<Course>
    ensures { IfSome result (StaysBeside agent row course) }
{
    if course.agent == agent && course.row == row {
        return None;
    }
    Some(course)
}

// A course once something happened; none where it ends by that, or memory is short.
fn course_after(alloc: Global, course: Course, event: &Event<'_>) -> Option<Course>
    ensures { IfSome result (Becomes event.now course) }
{
    match event {
        Event::Made(place) => with_child(alloc, course, place),
        Event::Removed(place) => without_place(course, place),
        Event::Gave(agent, row, name) => passed(alloc, course, *agent, *row, name),
        Event::Swapped(agent, row) => other(course, *agent, *row),
    }
}

/// Courses once something happened, but for those that end by it, or for which memory is short.
pub fn courses_after(alloc: Global, courses: Vec<Course>, event: &Event<'_>) -> Vec<Course>
    ensures { AreFrom (Becomes event.now) courses.items result.items }
{
    let mut left = courses;
    let mut moved = Vec::new(alloc);
    while let Some(course) = left.pop() {
        keep(&mut moved, course_after(alloc, course, event));
    }
    moved
}

/// Whether a course is that of an iterator over a directory.
fn is_of(course: &Course, agent: u32, row: u32, dir: &Place) -> bool
    ensures { IsTrue result → (course.now.agent ≡ agent) × (course.now.row ≡ row) × (course.now.dir ≡ dir.now) }
{
    if course.agent != agent || course.row != row {
        return false;
    }
    compare_places(&dir.0, &dir.1, &course.dir).is_eq()
}

/// The course of an iterator over a directory, where it is among some.
pub fn find_course<'a>(
    courses: &'a [Course],
    agent: u32,
    row: u32,
    dir: &Place,
) -> Option<&'a Course>
    ensures whose { IfSome result (λ course. (course.now.agent ≡ agent) × (course.now.row ≡ row) × (course.now.dir ≡ dir.now)) }
    ensures among { IfSome result (λ course. Contains courses.now course.now) }
{
    for course in courses {
        if is_of(course, agent, row, dir) {
            return Some(course);
        }
    }
    None
}
