//! The arguments of a call, as they are read.
ghost use Rattle.std.specs.Prelude.{◌≡◌, List, ℕ, IfOk};
ghost use Rattle.std.specs.BTreeSet.{contains_text};
ghost use Rattle.xr_syntax.specs.Syntax.{NoArg, Plain, Keyed, plain_only, uses, all_arguments, tree_of};

use crate::names::NameSet;
use std::alloc::{AllocError, Global};
use xr_syntax::{Argument, Expr};
use xr_types::Name;

/// The arguments of a call so far, and the keywords among them.
#[derive(Drop)]
pub struct Arguments {
    list: Vec<Argument>,
    keywords: NameSet,
    is_plain: bool,
    ghost known: { (name : List ℕ) → contains_text keywords.names name ≡ uses (all_arguments list.items) name },
    ghost plain: { is_plain ≡ plain_only (all_arguments list.items) },
}

impl Arguments {
    /// No arguments.
    #[tactic(auto, using(xr_syntax::proofs::Trees::no_arguments))]
    pub fn new(alloc: Global) -> Arguments
        ensures { all_arguments result.list.items ≡ NoArg }
    {
        Arguments {
            list: Vec::new(alloc),
            keywords: NameSet::new(alloc),
            is_plain: true,
        }
    }

    /// Whether no keyword is among them.
    pub fn plain_only(&self) -> bool
        ensures { result ≡ plain_only (all_arguments self.now.list.items) }
    {
        self.is_plain
    }

    /// Whether a keyword is among them.
    pub fn has_name(&self, name: &Name) -> bool
        ensures { result ≡ uses (all_arguments self.now.list.items) name.now }
    {
        self.keywords.contains(name)
    }

    /// One plain argument more.
    #[tactic(auto, using(xr_syntax::proofs::Trees::all_plain))]
    pub fn push_plain(self, e: Expr) -> Result<Arguments, AllocError>
        ensures { IfOk result (λ args. all_arguments args.list.items ≡ Plain (all_arguments self.list.items) (tree_of e)) }
    {
        let Arguments {
            mut list,
            keywords,
            is_plain,
        } = self;
        list.push((None, e))?;
        Ok(Arguments {
            list,
            keywords,
            is_plain,
        })
    }

    /// One keyword more.
    #[tactic(auto, using(xr_syntax::proofs::Trees::all_keyed))]
    pub fn push_named(self, alloc: Global, name: Name, e: Expr) -> Result<Arguments, AllocError>
        ensures { IfOk result (λ args. all_arguments args.list.items ≡ Keyed (all_arguments self.list.items) name (tree_of e)) }
    {
        let Arguments {
            mut list,
            mut keywords,
            is_plain: _,
        } = self;
        keywords.insert(alloc, &name)?;
        list.push((Some(name), e))?;
        Ok(Arguments {
            list,
            keywords,
            is_plain: false,
        })
    }

    /// The arguments alone.
    pub fn into_vec(self) -> Vec<Argument>
        ensures { result.items ≡ self.list.items }
    {
        self.list
    }
}
