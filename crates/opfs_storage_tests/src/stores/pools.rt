//! Shares of the pool and victims.

use opfs_base::Key;
use opfs_pool::{Keys, Pool};
use std::alloc::{AllocError, Global};
use std::test::Fail;

// How many blocks a unit keeps where three are added, one is given back, and all are; and whether one and two more have room behind the first.
fn keep_and_give_back(alloc: Global) -> Result<([u64; 3], [bool; 2]), AllocError> {
    let key = Key::of_text(alloc, "https://a.example")?;
    let mut pool = Pool::make(alloc, 4);
    pool.touch(&key)?;
    pool.raise(&key, 3);
    let raised = pool.count();
    let rooms = [pool.room(1), pool.room(2)];
    pool.lower(&key, 1);
    let lowered = pool.count();
    pool.clear(&key);
    Ok(([raised, lowered, pool.count()], rooms))
}

#[test]
fn blocks_are_kept_and_given_back(rt: HostRuntime) -> Result<(), Fail> {
    assert_eq!(rt; keep_and_give_back(rt.alloc())?, ([3, 2, 0], [true, false]));
    Ok(())
}

// A pool of four blocks with the shares of three candidates, the last one of the caller's origin.
fn shared(alloc: Global, first: &Key, second: &Key, caller: &Key) -> Result<Pool, AllocError> {
    let mut pool = Pool::make(alloc, 4);
    pool.touch(first)?;
    pool.mark(first, true);
    pool.touch(second)?;
    pool.mark(second, true);
    pool.touch(caller)?;
    pool.mark(caller, true);
    Ok(pool)
}

// Keeps a block more for a unit.
fn keep(pool: &mut Pool, unit: &Key) -> Result<(), AllocError> {
    pool.touch(unit)?;
    if pool.room(1) {
        pool.raise(unit, 1);
    }
    Ok(())
}

// Whether the victims have these texts.
fn are(victims: Option<Keys>, texts: &[&str]) -> bool {
    match victims {
        None => false,
        Some(units) => {
            let units = units.as_slice();
            units.len() == texts.len()
                && units
                    .iter()
                    .zip(texts)
                    .all(|(unit, text)| unit.as_str() == *text)
        }
    }
}

// A pool of four blocks with a block of each of three candidates.
fn filled(alloc: Global, first: &Key, second: &Key, third: &Key) -> Result<Pool, AllocError> {
    let mut pool = shared(alloc, first, second, third)?;
    keep(&mut pool, first)?;
    keep(&mut pool, second)?;
    keep(&mut pool, third)?;
    Ok(pool)
}

// The last uses of three origins: `b` before `a`, and `c` before both.
fn uses(alloc: Global) -> Result<Vec<(Key, u64)>, AllocError> {
    let mut uses = Vec::new(alloc);
    uses.push((Key::of_text(alloc, "a")?, 9))?;
    uses.push((Key::of_text(alloc, "b")?, 5))?;
    uses.push((Key::of_text(alloc, "c")?, 1))?;
    Ok(uses)
}

// Whether the victims of a need have these texts.
fn gives(
    alloc: Global,
    pool: &Pool,
    caller: &Key,
    need: u64,
    texts: &[&str],
) -> Result<bool, AllocError> {
    let uses = uses(alloc)?;
    let victims = pool.victims(caller, need, &uses)?;
    Ok(are(victims, texts))
}

// Whether a need has no victims.
fn gives_none(alloc: Global, pool: &Pool, caller: &Key, need: u64) -> Result<bool, AllocError> {
    let uses = uses(alloc)?;
    let victims = pool.victims(caller, need, &uses)?;
    Ok(victims.is_none())
}

// The same, of two units and of one of the caller's origin.
fn three(alloc: Global) -> Result<Pool, AllocError> {
    let first = Key::of_text(alloc, "a")?;
    let second = Key::of_text(alloc, "b")?;
    let third = Key::of_text(alloc, "c#d")?;
    filled(alloc, &first, &second, &third)
}

// Whether needs of one and three blocks have the victims that they should, and one of four has none.
fn go_by_last_use(alloc: Global, pool: &Pool) -> Result<[bool; 3], AllocError> {
    let caller = Key::of_text(alloc, "c")?;
    let one = gives(alloc, pool, &caller, 1, &[])?;
    let three = gives(alloc, pool, &caller, 3, &["b", "a"])?;
    let four = gives_none(alloc, pool, &caller, 4)?;
    Ok([one, three, four])
}

#[test]
fn victims_go_by_last_use(rt: HostRuntime) -> Result<(), Fail> {
    let pool = three(rt.alloc())?;
    assert_eq!(rt; go_by_last_use(rt.alloc(), &pool)?, [true; 3]);
    Ok(())
}
