//! The front of a record, up to its value.

ghost use Rattle.std.specs.Prelude.{◌≡◌, option_map};
ghost use Rattle.opfs_kv.specs.Records.Heads.{head_at, key_by, kind_by, sized_by, size_by};

/// A record's key, and the length of its value; None where the key is taken out.
#[derive(Clone, Copy)]
pub struct Head<'a> {
    pub key: &'a [u8],
    pub len: Option<u32>,
}

// A key and the 4 bytes of its value's length.
#[tactic(auto, unfolding(crate::specs::Records::Heads::sized_by))]
fn sized<'a>(key: &'a [u8], rest: &[u8]) -> Option<Head<'a>>
    ensures { option_map (λ h. (h.key.now, h.len)) result ≡ sized_by key.now rest.now }
{
    if rest.len() < 4 {
        return None;
    }
    let (front, _) = rest.split_at(4);
    let len = u32::from_le_bytes([front[0], front[1], front[2], front[3]]);
    if len > 65_536 {
        return None;
    }
    Some(Head {
        key,
        len: Some(len),
    })
}

// A key of a record of this kind.
#[tactic(auto, unfolding(crate::specs::Records::Heads::kind_by))]
fn of_kind<'a>(kind: u8, key: &'a [u8], rest: &[u8]) -> Option<Head<'a>>
    ensures { option_map (λ h. (h.key.now, h.len)) result ≡ kind_by kind key.now rest.now }
{
    if kind == 1 {
        return sized(key, rest);
    }
    if kind == 2 {
        return Some(Head { key, len: None });
    }
    None
}

// A key of this length.
#[tactic(auto, unfolding(crate::specs::Records::Heads::key_by))]
fn keyed(kind: u8, size: u8, rest: &[u8]) -> Option<Head<'_>>
    ensures { option_map (λ h. (h.key.now, h.len)) result ≡ key_by kind size rest.now }
{
    if size == 0 {
        return None;
    }
    if rest.len() < size as usize {
        return None;
    }
    let (key, rest) = rest.split_at(size as usize);
    of_kind(kind, key, rest)
}

/// The front of the record that begins bytes; None where none does, or its front is not there whole.
#[tactic(auto, unfolding(crate::specs::Records::Heads::head_at))]
pub fn read_head(bytes: &[u8]) -> Option<Head<'_>>
    ensures { option_map (λ h. (h.key.now, h.len)) result ≡ head_at bytes.now }
{
    match bytes {
        [kind, size, rest @ ..] => keyed(*kind, *size, rest),
        _ => None,
    }
}
