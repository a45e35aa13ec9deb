//! Laws of the texts.

ghost use Rattle.std.specs.Prelude.{◌≡◌, ◌||◌, List, map};
ghost use Rattle.std.specs.List.{list_any, flat_map};
ghost use Rattle.std.specs.List.Sorted.{IsStrictlySortedBy};
ghost use Rattle.opfs_base.specs.Places.{place_cmp};
ghost use Rattle.opfs_base.specs.Texts.{Text, same_text};
ghost use Rattle.opfs_shed.specs.Buckets.{text_cmp};
ghost use Rattle.opfs_tools.specs.Sights.{Sights};
ghost use Rattle.opfs_tools.specs.Units.{units_of};

/// A unit is listed just where it has a row or is persistent, and each row is listed once, in order. Units are listed in
/// the order of texts.
pub fn all_is_listed()
    ensures units { (rows : Sights) (persistent : List Text) (unit : Text) → list_any (λ u. same_text unit u.key) (units_of rows persistent)
        ≡ (list_any (λ e. same_text unit e.0.0) rows || list_any (same_text unit) persistent) }
    ensures rows { (rows : Sights) (persistent : List Text) → flat_map (λ u. u.rows) (units_of rows persistent) ≡ rows }
    ensures order { (rows : Sights) (persistent : List Text) → IsStrictlySortedBy place_cmp (map (λ e. e.0) rows) → IsStrictlySortedBy text_cmp persistent
        → IsStrictlySortedBy text_cmp (map (λ u. u.key) (units_of rows persistent)) }
{}
