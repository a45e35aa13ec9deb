// What a call puts of a row's pages, and what pages are read from.
use opfs_data::Swap;
use opfs_space::Space;
use opfs_tree::ReadyTree;
use opfs_work::Work;
use std::alloc::Global;

/// What a call leaves of a row: bytes at a position and then a size; or a content, where each page has to have a block.
#[derive(Clone, Copy)]
pub struct PagePut<'a> {
    pub agent: u32,
    pub row: u32,
    pub at: u64,
    pub given: &'a [u8],
    pub size: u64,
    pub whole: bool,
}

/// What a row's pages are read from: its working copy, and the pages of all rows. Block 0 begins at byte `base` of the disk.
#[derive(Clone, Copy)]
pub struct PageSource<'a> {
    pub work: &'a Work,
    pub swap: &'a Swap,
    pub space: &'a Space,
    pub base: u64,
}

/// An open row that is read: whose it is, its working copy, and the pages of all rows. Block 0 begins at byte `base` of the disk.
#[derive(Clone, Copy)]
pub struct RowSource<'a> {
    pub agent: u32,
    pub row: u32,
    pub work: &'a Work,
    pub swap: &'a Swap,
    pub base: u64,
}

/// An open row that is read where the store has each page: whose it is, and the pages of all rows. Block 0 begins at byte `base`
/// of the disk.
#[derive(Clone, Copy)]
pub struct StoredRow<'a> {
    pub agent: u32,
    pub row: u32,
    pub swap: &'a Swap,
    pub base: u64,
}

/// What a put is planned over beside the pages of rows: the memory, the rows of the tree with their blocks, and the byte of the disk
/// where block 0 begins.
#[derive(Clone, Copy)]
pub struct Planning<'a> {
    pub alloc: Global,
    pub tree: &'a ReadyTree,
    pub base: u64,
}
