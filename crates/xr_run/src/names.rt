//! The values of names.
ghost use Rattle.std.specs.Prelude.{◌≡◌, List, None, map, All, option_map, IfSome, OnOk, OnErr};
ghost use Rattle.xr_arrays.specs.declared.node.Node.{Node};
ghost use Rattle.xr_runs.specs.Runs.{put, put_each};
ghost use Rattle.xr_values.specs.Meaning.{meaning, IsValueIn};
ghost use Rattle.xr_run.specs.Named.{names_of, AreNamesIn};

use plan_core::Plan;
use std::alloc::{AllocError, Global};
use std::collections::BTreeMap;
use values_live::forget_unnamed;
use xr_types::TextBytes;
use xr_values::Value;

/// The value that each name stands for.
#[derive(Drop)]
pub(crate) struct NameMap {
    values: BTreeMap<String, Value>,
}

impl NameMap {
    /// No names.
    pub(crate) fn new(alloc: Global) -> NameMap
        ensures none { (nodes : List Node) → names_of nodes result ≡ λ name. None }
        ensures inside { (nodes : List Node) → AreNamesIn nodes result }
    {
        NameMap {
            values: BTreeMap::new(alloc),
        }
    }

    /// The value of a name.
    pub(crate) fn get(&self, name: &TextBytes) -> Option<&Value>
        ensures value { (nodes : List Node) → names_of nodes self.now name.now ≡ option_map (λ v. meaning nodes v.now) result }
        ensures inside { IfSome result (λ v. (nodes : List Node) → AreNamesIn nodes self.now → IsValueIn nodes v.now) }
    {
        self.values.get(name.as_str())
    }

    /// Lets a name stand for a value.
    pub(crate) fn set(
        &mut self,
        alloc: Global,
        name: &TextBytes,
        value: Value,
    ) -> Result<(), AllocError>
        ensures ok { OnOk result ((nodes : List Node) → names_of nodes self.new ≡ put (names_of nodes self.old) name.now (meaning nodes value)) }
        ensures inside { OnOk result ((nodes : List Node) → AreNamesIn nodes self.old → IsValueIn nodes value → AreNamesIn nodes self.new) }
        ensures err { OnErr result ((nodes : List Node) → names_of nodes self.new ≡ names_of nodes self.old) }
        ensures err_inside { OnErr result ((nodes : List Node) → AreNamesIn nodes self.old → AreNamesIn nodes self.new) }
    {
        let key = String::from_str(alloc, name.as_str())?;
        match self.values.insert(key, value) {
            Ok(_) => Ok(()),
            Err(_) => Err(AllocError),
        }
    }

    /// Lets the plan give up the cells that no name reaches, where this pays. Where memory runs out, the plan stays as it is.
    pub(crate) fn forget_others(&self, alloc: Global, plan: &mut Plan)
        requires { AreNamesIn plan.old self.now }
        ensures same { names_of plan.new self.now ≡ names_of plan.old self.now }
        ensures inside { AreNamesIn plan.new self.now }
    {
        forget_unnamed(alloc, plan, &self.values);
    }

    /// Lets each name stand for the value at its place, one after another.
    pub(crate) fn set_each(
        &mut self,
        alloc: Global,
        names: &[TextBytes],
        values: &[Value],
    ) -> Result<(), AllocError>
        ensures ok { (nodes : List Node) → OnOk result (names_of nodes self.new ≡ put_each (names_of nodes self.old) names.now (map (meaning nodes) values.now)) }
        ensures inside { (nodes : List Node) → AreNamesIn nodes self.old → All (IsValueIn nodes) values.now → AreNamesIn nodes self.new }
    {
        let mut rest = values;
        for name in names {
            match rest {
                [] => return Ok(()),
                [value, others @ ..] => {
                    self.set(alloc, name, value.copy(alloc)?)?;
                    rest = others;
                }
            }
        }
        Ok(())
    }
}
