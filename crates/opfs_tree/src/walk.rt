//! A walk over the rows.

ghost use Rattle.std.specs.Prelude.{◌≡◌, Some, None, option_map, IsSome, IfSome};

use opfs_base::{Key, Path};
use std::marker::Model;

/// Where a walk stands: at a place, or before all. It borrows the place from the tree that it walks over.
#[derive(Drop)]
pub struct Walk<'a> {
    at: Option<(&'a Key, &'a Path)>,
}

impl<'a> Model for Walk<'a> {
    ghost use Rattle.std.specs.Prelude.{List, ℕ, Option, option_map};

    ghost Value = { Option (List ℕ × List (List ℕ)) };

    ghost view = { λ walk. option_map (λ p. (p.0.now, p.1.now)) walk.at };
}

impl<'a> Walk<'a> {
    /// A walk that stands before all rows. Takes no memory.
    pub fn make() -> Walk<'a>
        ensures { result ≡ None }
    {
        Walk { at: None }
    }

    /// The unit of the place where the walk stands.
    pub fn key(&self) -> &'a Key
        requires { IsSome self.now }
        ensures { IfSome self.now (λ place. result.now ≡ place.0) }
    {
        match self.at {
            Some((key, _)) => key,
            None => unreachable!(),
        }
    }

    /// The path of the place where the walk stands.
    pub fn path(&self) -> &'a Path
        requires { IsSome self.now }
        ensures { IfSome self.now (λ place. result.now ≡ place.1) }
    {
        match self.at {
            Some((_, path)) => path,
            None => unreachable!(),
        }
    }

    // Where the walk stands.
    pub(crate) fn place(&self) -> Option<(&'a Key, &'a Path)>
        ensures { option_map (λ p. (p.0.now, p.1.now)) result ≡ self.now }
    {
        self.at
    }

    // A walk that stands at a place.
    pub(crate) fn at(key: &'a Key, path: &'a Path) -> Walk<'a>
        ensures { result ≡ Some (key.now, path.now) }
    {
        Walk {
            at: Some((key, path)),
        }
    }
}
