//! Lists in order.

ghost use Rattle.std.specs.Prelude.{◌≡◌, ◌≤◌, ◌++◌, true, length, take, drop, OnOk, OnErr};
ghost use Rattle.std.specs.FinMap.Entries.{put};
ghost use Rattle.opfs_machine.specs.Ordered.{insert_by};
ghost use Rattle.opfs_rulings.specs.Known.{begins_from, keys_from};

use std::alloc::AllocError;

/// The index of the first item that is not below another.
fn first_not_below<T: Ord>(items: &[T], item: &T) -> usize
    ensures within { result ≤ length items.now }
    ensures below { insert_by T.cmp item.now items.now ≡ take result items.now ++ insert_by T.cmp item.now (drop result items.now) }
    ensures stops { begins_from T.cmp item.now (drop result items.now) ≡ true }
{
    for (at, other) in items.iter().enumerate() {
        if !item.cmp(other).is_gt() {
            return at;
        }
    }
    items.len()
}

/// Adds an item in its place, where none ties with it.
pub fn insert<T: Ord + Drop>(items: &mut Vec<T>, item: T) -> Result<(), AllocError>
    ensures ok { OnOk result (items.new.items ≡ insert_by T.cmp item items.old.items) }
{
    let at = first_not_below(items.as_slice(), &item);
    if at < items.len() && item.cmp(&items[at]).is_eq() {
        return Ok(());
    }
    items.insert(at, item)?;
    Ok(())
}

/// The index of the first entry whose key is not below that of another.
fn first_key<K: Ord, X>(entries: &[(K, X)], key: &K, value: &X) -> usize
    ensures within { result ≤ length entries.now }
    ensures below { put K.cmp key.now value.now entries.now ≡ take result entries.now ++ put K.cmp key.now value.now (drop result entries.now) }
    ensures stops { keys_from K.cmp key.now (drop result entries.now) ≡ true }
{
    let _ = value;
    for (at, entry) in entries.iter().enumerate() {
        if !key.cmp(&entry.0).is_gt() {
            return at;
        }
    }
    entries.len()
}

/// Puts a value at its key; one that stands there goes.
pub fn put<K: Ord + Drop, X: Drop>(
    entries: &mut Vec<(K, X)>,
    key: K,
    value: X,
) -> Result<(), AllocError>
    ensures ok { OnOk result (entries.new.items ≡ put K.cmp key value entries.old.items) }
    ensures err { OnErr result (entries.new.items ≡ entries.old.items) }
{
    let at = first_key(entries.as_slice(), &key, &value);
    if at < entries.len() && key.cmp(&entries[at].0).is_eq() {
        entries[at].1 = value;
        Ok(())
    } else {
        entries.insert(at, (key, value))?;
        Ok(())
    }
}
