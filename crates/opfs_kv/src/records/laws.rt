//! Laws of records, maps and indexes.

ghost use Rattle.std.specs.Prelude.{◌≡◌, ℕ, List, [], ◌≢◌, ◌++◌, length, map, take};
ghost use Rattle.std.specs.List.{AllByRecursion};
ghost use Rattle.std.specs.List.Sorted.{IsStrictlySortedBy};
ghost use Rattle.std.specs.Map.{keys_of};
ghost use Rattle.opfs_base.specs.Texts.{Text};
ghost use Rattle.opfs_kv.specs.Records.Maps.{Map, key_cmp};
ghost use Rattle.opfs_kv.specs.Records.Records.{Record, IsLog, IsRecord, after, spelled, log_of, map_of, put_of};
ghost use Rattle.opfs_kv.specs.Records.Indexes.{IsEntry, IsIndexed, Places, indexed, placed, read_out};
ghost use Rattle.opfs_kv.specs.Records.Scans.{IsBadAt};

/// No record's spelling begins another's, so that bytes are one list of records at most, and have no bad place.
pub fn one_reading()
    ensures first { (a b : Record) (x y : Text) → IsRecord a → IsRecord b → spelled a ++ x ≡ spelled b ++ y → (a ≡ b) × (x ≡ y) }
    ensures all { (bytes : Text) (some others : List Record) → IsLog bytes some → IsLog bytes others → some ≡ others }
    ensures bad { (bytes : Text) (records front : List Record) (rest : Text) → IsLog bytes records → AllByRecursion IsRecord front → bytes ≡ log_of front ++ rest → rest ≢ [] → IsBadAt bytes (length (log_of front)) → ⊥ }
{}

/// The index of records reads their map out of their bytes, whatever follows them.
pub fn the_index_reads_the_map()
    ensures { (records : List Record) (rest : Text) → read_out (log_of records ++ rest) (indexed 0 records []) ≡ map_of records }
{}

/// A map's records by key stand for the map.
pub fn the_map_by_key()
    ensures { (m : Map) → IsStrictlySortedBy key_cmp (keys_of m) → map_of (map put_of m) ≡ m }
{}

/// A file of records with its index, cut behind them, with a record more, and written by key.
pub fn a_file_grows()
    ensures cut { (old new : Text) (live : ℕ) (index : Places) → IsIndexed (take live old) index → take live new ≡ take live old → read_out new index ≡ read_out old index }
    ensures more { (bytes : Text) (index : Places) (r : Record) → IsIndexed bytes index → IsRecord r → IsIndexed (bytes ++ spelled r) (placed (length bytes) index r) }
    ensures map { (bytes : Text) (index : Places) (r : Record) → IsIndexed bytes index → IsRecord r → read_out (bytes ++ spelled r) (placed (length bytes) index r) ≡ after (read_out bytes index) r }
    ensures packed { (bytes : Text) (index : Places) (packed : Text) (made : Places) → AllByRecursion IsEntry index → IsStrictlySortedBy key_cmp (keys_of index)
        → packed ≡ log_of (map put_of (read_out bytes index)) → made ≡ indexed 0 (map put_of (read_out bytes index)) [] → IsIndexed packed made × ((rest : Text) → read_out (packed ++ rest) made ≡ read_out bytes index) }
{}
