//! Blocks are allotted from the lowest, given back and adopted.

ghost use Rattle.std.specs.Prelude.{◌≡◌, length};

use opfs_base::Extent;
use opfs_blocks::BlockMap;
use std::alloc::{AllocError, Global};
use std::test::Fail;

// A run of blocks.
fn run(start: u32, count: u32) -> Extent {
    Extent { start, count }
}

// Whether a map gives these runs for so many blocks.
fn gives(alloc: Global, map: &mut BlockMap, count: u32, runs: &[Extent]) -> Result<bool, AllocError>
    ensures { length map.new ≡ length map.old }
{
    let mut into = Vec::with_capacity(alloc, count as usize)?;
    Ok(map.allot(count, &mut into) && into.as_slice() == runs)
}

// The run of one block that a map gives next; none where none is free.
fn next(alloc: Global, map: &mut BlockMap) -> Result<Option<Extent>, AllocError> {
    let mut into = Vec::with_capacity(alloc, 1)?;
    if !map.allot(1, &mut into) {
        return Ok(None);
    }
    Ok(into.pop())
}

#[test]
fn four_blocks_are_allotted_and_given_back(rt: HostRuntime) -> Result<(), Fail> {
    let mut map = BlockMap::make(rt.alloc(), 4)?;
    assert!(rt; gives(rt.alloc(), &mut map, 3, &[run(0, 3)])?);
    map.give_back(&[Extent { start: 1, count: 1 }]);
    assert!(rt; gives(rt.alloc(), &mut map, 2, &[run(1, 1), run(3, 1)])?);
    assert_eq!(rt; next(rt.alloc(), &mut map)?, None);
    assert!(rt; !map.adopt(&[run(0, 1)]));
    Ok(())
}

// What a map answers where runs of its blocks are taken: two that are free, two that meet, and one past its end.
fn adopt_three(map: &mut BlockMap) -> [bool; 3] {
    [
        map.adopt(&[run(0, 70), run(199, 1)]),
        map.adopt(&[run(70, 2), run(71, 1)]),
        map.adopt(&[run(199, 2)]),
    ]
}

#[test]
fn blocks_are_adopted_once(rt: HostRuntime) -> Result<(), Fail> {
    let mut map = BlockMap::make(rt.alloc(), 200)?;
    assert_eq!(rt; adopt_three(&mut map), [true, false, false]);
    assert!(rt; gives(rt.alloc(), &mut map, 129, &[run(70, 129)])?);
    Ok(())
}

#[test]
fn a_map_is_filled_one_by_one(rt: HostRuntime) -> Result<(), Fail> {
    let mut map = BlockMap::make(rt.alloc(), 65_536)?;
    for block in 0..65_536 {
        assert_eq!(rt; next(rt.alloc(), &mut map)?, Some(run(block, 1)));
    }
    assert_eq!(rt; next(rt.alloc(), &mut map)?, None);
    Ok(())
}
