//! What variables name.

ghost use Rattle.std.specs.Prelude.{◌≡◌, [], OnOk, OnErr};
ghost use Rattle.std.specs.Cmp.Lexicographic.{slice_cmp};
ghost use Rattle.std.specs.FinMap.Entries.{put, find};
ghost use Rattle.std.specs.Option.{option_copied};
ghost use Rattle.std.specs.Ordering.{nat_cmp};

use crate::runs::hand::Named;
use opfs_base::Text;
use std::alloc::{AllocError, Global};
use std::collections::BTreeMap;
use std::marker::Model;

/// What variables name, seen as the list of variables and what they name, in the order of the variables.
#[derive(Drop)]
pub struct Bindings {
    map: BTreeMap<Text, Named>,
}

impl Model for Bindings {
    ghost use Rattle.std.specs.Prelude.{List, ℕ};
    ghost use Rattle.opfs_script_run.specs.declared.runs.hand.Named.{Named};

    ghost Value = { List (List ℕ × Named) };

    ghost view = { λ bindings. bindings.map.entries };
}

impl Bindings {
    /// No variable names anything. Takes no memory.
    pub fn empty(alloc: Global) -> Bindings
        ensures { result ≡ [] }
    {
        Bindings {
            map: BTreeMap::new(alloc),
        }
    }

    /// What a variable names.
    pub fn named_by(&self, variable: &Text) -> Option<&Named>
        ensures { option_copied result ≡ find (slice_cmp nat_cmp) variable.now self.now }
    {
        self.map.get(variable)
    }

    /// Binds a variable anew. On want of memory the bindings are as they were.
    pub fn bind(&mut self, variable: Text, named: Named) -> Result<(), AllocError>
        ensures ok { OnOk result (self.new ≡ put (slice_cmp nat_cmp) variable named self.old) }
        ensures err { OnErr result (self.new ≡ self.old) }
    {
        self.map.insert(variable, named)?;
        Ok(())
    }
}
