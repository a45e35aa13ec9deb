//! The evictions at the front of a transcript.

ghost use Rattle.std.specs.Prelude.{◌≡◌, ◌≤◌, length, option_map};
ghost use Rattle.opfs_judge.specs.Fronts.{after_eviction, IsScanned};

use crate::settling::line_length;

/// What stands behind the line of an eviction, where a text begins with one.
fn after_eviction(text: &[u8]) -> Option<&[u8]>
    ensures { option_map (λ more. more.now) result ≡ after_eviction text.now }
{
    let end = line_length(text);
    if end < text.len() && text.starts_with("evict ".as_bytes()) {
        Some(&text[end + 1..])
    } else {
        None
    }
}

/// How many lines of evictions stand at the front of a text, and how many bytes they have.
pub fn evictions(text: &[u8]) -> (usize, usize)
    ensures scanned { IsScanned text.now result }
    ensures within { result.1 ≤ length text.now }
{
    let mut count = 0;
    let mut rest = text;
    while let Some(more) = after_eviction(rest) {
        count += 1;
        rest = more;
    }
    (count, text.len() - rest.len())
}
