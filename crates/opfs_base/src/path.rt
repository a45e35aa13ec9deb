//! Paths: lists of names.

ghost use Rattle.std.specs.Prelude.{◌≡◌, [], ◌∷◌, ◌++◌, IfOk};
ghost use Rattle.opfs_base.specs.Places.{rest_below};
ghost use Rattle.std.specs.Cmp.{partial_order_from_agreeing_total};
ghost use Rattle.std.specs.Cmp.Lexicographic.{slice_cmp, pointwise, lists_total, lists_ties, nat_list_cmp_total, texts_ties};
ghost use Rattle.std.specs.Cmp.Rules.{comparing};
ghost use Rattle.std.proofs.Common.{rules, refl};
ghost use Rattle.std.specs.Prelude.{nat_eq, Some};
ghost use Rattle.std.specs.Ordering.{nat_cmp};

use crate::name::Name;
use crate::places::rest_below;
use std::alloc::{AllocError, Global};
use std::cmp::Ordering;
use std::marker::Model;

/// The names from a bucket's root down, seen as the list of them. The root has the empty path.
#[derive(Drop)]
pub struct Path {
    names: Vec<Name>,
}

impl Model for Path {
    ghost use Rattle.std.specs.Prelude.{List, ℕ};

    ghost Value = { List (List ℕ) };

    ghost view = { λ path. path.names.items };
}

impl Path {
    /// The path of a root. Takes no memory.
    pub fn root(alloc: Global) -> Path
        ensures { result ≡ [] }
    {
        Path {
            names: Vec::new(alloc),
        }
    }

    /// The path of these names. Takes no memory.
    pub fn from_vec(names: Vec<Name>) -> Path
        ensures { result ≡ names.items }
    {
        Path { names }
    }

    /// The names as a vector again. Takes no memory.
    pub fn into_vec(self) -> Vec<Name>
        ensures { result.items ≡ self }
    {
        self.names
    }

    /// The path of a child.
    pub fn child(&self, alloc: Global, name: &Name) -> Result<Path, AllocError>
        ensures { IfOk result (λ path. path ≡ self.now ++ name.now ∷ []) }
    {
        let mut names = copy_of(alloc, self.names.as_slice(), 1)?;
        names.push(name.copy(alloc)?)?;
        Ok(Path { names })
    }

    /// The same path in new memory.
    pub fn copy(&self, alloc: Global) -> Result<Path, AllocError>
        ensures { IfOk result (λ path. path ≡ self.now) }
    {
        let names = copy_of(alloc, self.names.as_slice(), 0)?;
        Ok(Path { names })
    }

    /// The path that is left of this one below another, or None where it is not that one or below it.
    pub fn below(&self, alloc: Global, above: &Path) -> Result<Option<Path>, AllocError>
        ensures { IfOk result (λ rest. rest ≡ rest_below above.now self.now) }
    {
        match rest_below(above.names.as_slice(), self.names.as_slice()) {
            Some(rest) => {
                let names = copy_of(alloc, rest, 0)?;
                Ok(Some(Path { names }))
            }
            None => Ok(None),
        }
    }

    /// The names in order.
    pub fn names(&self) -> &[Name]
        ensures { result.now ≡ self.now }
    {
        self.names.as_slice()
    }
}

impl PartialEq for Path {
    ghost eq = { pointwise (pointwise nat_eq) };

    ghost laws = { Prim.search (comparing, rules) };

    fn eq(&self, other: &Path) -> bool {
        self.names.as_slice() == other.names.as_slice()
    }
}

impl Eq for Path {
    ghost laws = { Prim.search (comparing, rules) };
}

impl PartialOrd for Path {
    ghost partial_cmp = { λ x y. Some (slice_cmp (slice_cmp nat_cmp) x y) };

    ghost laws = { partial_order_from_agreeing_total (slice_cmp (slice_cmp nat_cmp)) (lists_total nat_list_cmp_total) (λ x y. refl) (lists_ties (slice_cmp nat_cmp) texts_ties) };

    fn partial_cmp(&self, other: &Path) -> Option<Ordering> {
        Some(self.cmp(other))
    }
}

impl Ord for Path {
    ghost cmp = { slice_cmp (slice_cmp nat_cmp) };

    ghost total = { lists_total nat_list_cmp_total };

    ghost matches_partial_cmp = { Prim.search (comparing, rules) };

    ghost matches_eq = { lists_ties (slice_cmp nat_cmp) texts_ties };

    fn cmp(&self, other: &Path) -> Ordering {
        self.names.as_slice().cmp(other.names.as_slice())
    }
}

// The names in new memory, with room for so many more.
fn copy_of(alloc: Global, names: &[Name], more: usize) -> Result<Vec<Name>, AllocError>
    ensures { IfOk result (λ copy. copy.items ≡ names.now) }
{
    let mut copy = Vec::with_capacity(alloc, names.len().saturating_add(more))?;
    for name in names {
        copy.push(name.copy(alloc)?)?;
    }
    Ok(copy)
}
