//! Laws of a row's content that was stored.

ghost use Rattle.opfs_desk_contents.specs.Blocks.{ContentsKeepBlocks};

use opfs_pages::blocks_go_on;

/// The law of blocks where a row's content was stored: its file has the blocks of its pages, they are no page's alone any more, and
/// those that it had before are free where no other row is open on it.
pub fn stored_contents_keep_blocks_right()
    ensures { ContentsKeepBlocks }
{
    blocks_go_on();
}
