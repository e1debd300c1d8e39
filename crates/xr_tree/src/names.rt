//! Names, kept so that one among many is found fast.
ghost use Rattle.std.specs.Prelude.{◌≡◌, ◌||◌, false, List, ℕ, OnOk};
ghost use Rattle.std.specs.Str.{bytes_eq};
ghost use Rattle.std.specs.BTreeSet.{contains_text};

use std::alloc::{AllocError, Global};
use std::collections::BTreeSet;
use xr_types::TextBytes;

/// Names, sorted, so that a long list of different ones is read in nearly linear time.
#[derive(Drop)]
pub(crate) struct NameSet {
    pub(crate) names: BTreeSet<String>,
}

impl NameSet {
    /// No names.
    pub(crate) fn new(alloc: Global) -> NameSet
        ensures { (name : List ℕ) → contains_text result.names name ≡ false }
    {
        NameSet {
            names: BTreeSet::new(alloc),
        }
    }

    /// Whether a name is among them.
    pub(crate) fn contains(&self, name: &TextBytes) -> bool
        ensures { result ≡ contains_text self.now.names name.now }
    {
        self.names.contains(name.as_str())
    }

    /// Adds a name.
    pub(crate) fn insert(&mut self, alloc: Global, name: &TextBytes) -> Result<(), AllocError>
        ensures { OnOk result ((other : List ℕ) → contains_text self.new.names other ≡ (bytes_eq name.now other || contains_text self.old.names other)) }
    {
        let name = String::from_str(alloc, name.as_str())?;
        self.names.insert(name)?;
        Ok(())
    }
}
