// Who has which blocks.
ghost use Rattle.opfs_pages.specs.HistoryLaws.Laws.{BlocksTellAFile, TreesKeepBlocks, BlocksGoOn};

/// The law of blocks through each kind of entry: calls that leave open rows, rows that go, pages that are written, rows that
/// are opened, contents that are stored, evictions, removals and what is kept back and recorded.
pub fn blocks_go_on()
    ensures { BlocksGoOn }
{}

/// The law of a file's blocks: their pages begin as the file's bytes.
pub fn blocks_tell_a_file()
    ensures { BlocksTellAFile }
{}

/// The law of trees: changes that leave the extents of files, and rows that come without bytes, leave who has which block.
pub fn trees_keep_their_blocks()
    ensures { TreesKeepBlocks }
{}
