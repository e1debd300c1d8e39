//! The entries of a table, as they are read.
ghost use Rattle.std.specs.Prelude.{◌≡◌, List, ℕ, IfOk};
ghost use Rattle.std.specs.BTreeSet.{contains_text};
ghost use Rattle.xr_syntax.specs.Syntax.{NoEntry, Entry, has_entry, all_entries, tree_of};

use crate::names::NameSet;
use std::alloc::{AllocError, Global};
use xr_syntax::Expr;
use xr_types::TextBytes;

/// The entries of a table so far, and their keys.
#[derive(Drop)]
pub struct TableEntries {
    list: Vec<(TextBytes, Expr)>,
    keys: NameSet,
    ghost known: { (key : List ℕ) → contains_text keys.names key ≡ has_entry (all_entries list.items) key },
}

impl TableEntries {
    /// No entries.
    #[tactic(auto, using(xr_syntax::proofs::Trees::no_entries))]
    pub fn new(alloc: Global) -> TableEntries
        ensures { all_entries result.list.items ≡ NoEntry }
    {
        TableEntries {
            list: Vec::new(alloc),
            keys: NameSet::new(alloc),
        }
    }

    /// Whether a text is a key of the table.
    pub fn has_key(&self, key: &TextBytes) -> bool
        ensures { result ≡ has_entry (all_entries self.now.list.items) key.now }
    {
        self.keys.contains(key)
    }

    /// One entry more.
    #[tactic(auto, using(xr_syntax::proofs::Trees::all_entered))]
    pub fn push(self, alloc: Global, key: TextBytes, e: Expr) -> Result<TableEntries, AllocError>
        ensures { IfOk result (λ entries. all_entries entries.list.items ≡ Entry (all_entries self.list.items) key (tree_of e)) }
    {
        let TableEntries { mut list, mut keys } = self;
        keys.insert(alloc, &key)?;
        list.push((key, e))?;
        Ok(TableEntries { list, keys })
    }

    /// The entries alone.
    pub fn into_vec(self) -> Vec<(TextBytes, Expr)>
        ensures { result.items ≡ self.list.items }
    {
        self.list
    }
}
