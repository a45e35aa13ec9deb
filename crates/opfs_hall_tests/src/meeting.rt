//! Two agents, one after the other.
ghost use Rattle.std.specs.Prelude.{◌≡◌, [], false};
ghost use Rattle.opfs_hall.specs.Seen.{AreNew, new_pass};
ghost use Rattle.opfs_hall_tests.specs.Runs.{IsSamePass};

use crate::marks::{Mark, Marks};
use opfs_hall::{Hall, Pass};
use std::sync::Wait;

/// What two agents found, and what they left.
#[derive(Drop)]
pub struct Meeting {
    pub first_found: usize,
    pub second_found: usize,
    pub marks: Marks,
}

/// Takes a turn, counts the marks, and leaves one more if there is memory.
fn count_and_mark<R: Wait>(rt: &R, hall: &Hall<Marks>, pass: &mut Pass<Marks>, count: u32) -> usize
    requires own { pass.old.hall ≡ hall.now }
    requires idle { pass.old.busy ≡ false }
    ensures { IsSamePass pass.old pass.new }
{
    let agent = pass.agent();
    let mut turn = hall.enter(rt, pass);
    let found = turn.value.list.len();
    let _ = turn.value.list.push(Mark { agent, count });
    hall.leave(pass, turn);
    found
}

/// The passes of a new hall of two agents.
fn three(
    hall: &Hall<Marks>,
    mut passes: Vec<Pass<Marks>>,
) -> (Pass<Marks>, Pass<Marks>, Pass<Marks>)
    requires { AreNew hall.now 3 passes.items }
    ensures owner { result.0 ≡ new_pass hall.now 0 [] }
    ensures first { result.1 ≡ new_pass hall.now 1 [] }
    ensures second { result.2 ≡ new_pass hall.now 2 [] }
{
    let _ = hall;
    let second = passes.remove(2);
    let first = passes.remove(1);
    (passes.remove(0), first, second)
}

/// Agent 1 leaves the mark 7, and then agent 2 the mark 9.
pub fn meet<R: Wait + AllocGlobal>(rt: &R) -> Option<Meeting> {
    let Ok((hall, passes)) = Hall::make(rt, Marks::new(rt.alloc()), 2) else {
        return None;
    };
    let (mut owner, mut first, mut second) = three(&hall, passes);
    let first_found = count_and_mark(rt, &hall, &mut first, 7);
    let second_found = count_and_mark(rt, &hall, &mut second, 9);
    hall.join(&mut owner, first);
    hall.join(&mut owner, second);
    Some(Meeting {
        first_found,
        second_found,
        marks: hall.close(owner),
    })
}
