//! The words of scripts.

ghost use Rattle.std.specs.Prelude.{◌≡◌, map};
ghost use Rattle.opfs_script.specs.Words.{members_of, told, word_in, word_named, written_words};

use opfs_hist::Word;

/// The word that a text is.
#[tactic(auto, unfolding(crate::specs::Words::word_named))]
pub fn word_named(name: &str) -> Option<Word>
    ensures { result ≡ word_named name.now }
{
    word_in(written_words(), name)
}

// The word that a text is in a list of words.
fn word_in(words: &[(&str, Word)], name: &str) -> Option<Word>
    ensures { result ≡ word_in (told words.now) name.now }
{
    for (text, word) in words {
        if name == *text {
            return Some(*word);
        }
    }
    None
}

// The words and how they are written.
fn written_words() -> &'static [(&'static str, Word)]
    ensures { told result.now ≡ written_words }
{
    &[
        ("getDirectory", Word::GetDirectory),
        ("getDirectoryHandle", Word::GetDirectoryHandle),
        ("getFileHandle", Word::GetFileHandle),
        ("removeEntry", Word::RemoveEntry),
        ("values", Word::Values),
        ("next", Word::Next),
        ("resolve", Word::Resolve),
        ("isSameEntry", Word::IsSameEntry),
        ("getFile", Word::GetFile),
        ("slice", Word::Slice),
        ("createWritable", Word::CreateWritable),
        ("write", Word::Write),
        ("seek", Word::Seek),
        ("truncate", Word::Truncate),
        ("close", Word::Close),
        ("abort", Word::Abort),
        ("createSyncAccessHandle", Word::CreateSyncAccessHandle),
        ("syncRead", Word::SyncRead),
        ("syncWrite", Word::SyncWrite),
        ("syncTruncate", Word::SyncTruncate),
        ("syncGetSize", Word::SyncGetSize),
        ("syncFlush", Word::SyncFlush),
        ("syncClose", Word::SyncClose),
        ("persist", Word::Persist),
        ("persisted", Word::Persisted),
        ("estimate", Word::Estimate),
        ("moment", Word::Moment),
        ("post", Word::Post),
        ("await", Word::Await),
    ]
}

/// The names of the members that a step of a word may have.
pub fn members_of(word: Word) -> &'static [&'static str]
    ensures { map (λ name. name.now) result.now ≡ members_of word }
{
    match word {
        Word::GetDirectory => &["do", "bucket", "as"],
        Word::GetDirectoryHandle | Word::GetFileHandle => &["do", "dir", "name", "create", "as"],
        Word::RemoveEntry => &["do", "dir", "name", "recursive"],
        Word::Values => &["do", "dir", "as"],
        Word::Next => &["do", "iterator", "as"],
        Word::Resolve => &["do", "dir", "entry"],
        Word::IsSameEntry => &["do", "entry", "other"],
        Word::GetFile => &["do", "file", "as"],
        Word::Slice => &["do", "snapshot", "at", "len"],
        Word::CreateWritable => &["do", "file", "keepExistingData", "as"],
        Word::Write => &["do", "stream", "data", "position"],
        Word::Seek => &["do", "stream", "position"],
        Word::Truncate => &["do", "stream", "size"],
        Word::Close | Word::Abort => &["do", "stream"],
        Word::CreateSyncAccessHandle => &["do", "file", "mode", "as"],
        Word::SyncRead => &["do", "sync", "len", "at"],
        Word::SyncWrite => &["do", "sync", "data", "at"],
        Word::SyncTruncate => &["do", "sync", "size"],
        Word::SyncGetSize | Word::SyncFlush | Word::SyncClose => &["do", "sync"],
        Word::Persist | Word::Persisted => &["do", "bucket"],
        Word::Estimate => &["do"],
        Word::Moment => &["do", "ms"],
        Word::Post | Word::Await => &["do", "tag"],
    }
}
