//! What a call is given, and what it works in.
ghost use Rattle.std.specs.Prelude.{◌≡◌, List, OnOk, OnErr};
ghost use Rattle.xr_arrays.specs.declared.node.Node.{Node};
ghost use Rattle.xr_defs.specs.Meanings.{no_arguments, and_plain, and_keyed};
ghost use Rattle.xr_values.specs.Meaning.{meaning, given, IsValueIn, AreArgsIn};

use crate::value::Value;
use plan_core::Plan;
use std::alloc::{AllocError, Global};
use xr_types::TextBytes;

/// Plain arguments, and arguments by keyword, each in the order in which they are written.
#[derive(Drop)]
pub struct Args {
    pub plain: Vec<Value>,
    pub keyed: Vec<(TextBytes, Value)>,
}

#[tactic(auto, unfolding(crate::specs::Meaning::given))]
impl Args {
    /// No arguments.
    pub fn new(alloc: Global) -> Args
        ensures means { (nodes : List Node) → given nodes result ≡ no_arguments }
        ensures inside { (nodes : List Node) → AreArgsIn nodes result }
    {
        Args {
            plain: Vec::new(alloc),
            keyed: Vec::new(alloc),
        }
    }

    /// Adds a plain argument.
    pub fn push_plain(&mut self, value: Value) -> Result<(), AllocError>
        ensures ok { OnOk result ((nodes : List Node) → given nodes self.new ≡ and_plain (given nodes self.old) (meaning nodes value)) }
        ensures inside { OnOk result ((nodes : List Node) → AreArgsIn nodes self.old → IsValueIn nodes value → AreArgsIn nodes self.new) }
        ensures err { OnErr result ((nodes : List Node) → given nodes self.new ≡ given nodes self.old) }
        ensures err_inside { OnErr result ((nodes : List Node) → AreArgsIn nodes self.old → AreArgsIn nodes self.new) }
    {
        self.plain.push(value)?;
        Ok(())
    }

    /// Adds an argument by keyword.
    pub fn push_keyed(&mut self, name: TextBytes, value: Value) -> Result<(), AllocError>
        ensures ok { OnOk result ((nodes : List Node) → given nodes self.new ≡ and_keyed (given nodes self.old) name (meaning nodes value)) }
        ensures inside { OnOk result ((nodes : List Node) → AreArgsIn nodes self.old → IsValueIn nodes value → AreArgsIn nodes self.new) }
        ensures err { OnErr result ((nodes : List Node) → given nodes self.new ≡ given nodes self.old) }
        ensures err_inside { OnErr result ((nodes : List Node) → AreArgsIn nodes self.old → AreArgsIn nodes self.new) }
    {
        self.keyed.push((name, value))?;
        Ok(())
    }
}

/// The plan, whose nodes arrays and datasets stand for, and what computes the cells of a node.
#[derive(Drop)]
pub struct Cx<C> {
    pub plan: Plan,
    pub compute: C,
}
