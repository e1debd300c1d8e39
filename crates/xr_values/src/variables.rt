//! The data variables of a dataset, by their names and in their order.
ghost use Rattle.std.specs.Prelude.{◌≡◌, [], true, find, OnOk, OnErr, option_copied};
ghost use Rattle.std.specs.Str.{bytes_eq};
ghost use Rattle.xr_values.specs.declared.variable.Variable.{Variable as Var};
ghost use Rattle.xr_types.specs.Names.{are_distinct};
ghost use Rattle.xr_values.specs.Variables.{names_of, with_variable, with_variables};

use crate::variable::Variable;
use indexmap::IndexMap;
use std::alloc::{AllocError, Global};
use std::marker::Model;
use xr_types::{DeepCopy, TextBytes};

/// Data variables of different names, in their order.
#[derive(Drop)]
pub struct Variables {
    by_name: IndexMap<String, Variable>,
}

impl Model for Variables {
    ghost use Rattle.std.specs.Prelude.{List};
    ghost use Rattle.xr_values.specs.declared.variable.Variable.{Variable};
    ghost use Rattle.xr_values.specs.Variables.{in_order, AreNamed};

    ghost Value = { List Variable };

    ghost view = { λ s. in_order s.by_name.entries };

    ghost invariant = { λ s. AreNamed s.by_name.entries };
}

impl Variables {
    /// No variables.
    pub fn new(alloc: Global) -> Self
        ensures { result ≡ [] }
    {
        Variables {
            by_name: IndexMap::new(alloc),
        }
    }

    /// The variables in their order.
    pub fn as_slice(&self) -> &[Variable]
        ensures variables { result.now ≡ self.now }
        ensures distinct { are_distinct (names_of self.now) ≡ true }
    {
        self.by_name.values().as_slice()
    }

    /// The variable of a name.
    pub fn named(&self, name: &TextBytes) -> Option<&Variable>
        ensures { option_copied result ≡ find (λ (v : Var). bytes_eq v.name name.now) self.now }
    {
        self.by_name.get(name.as_str())
    }

    /// Puts a variable in the place of the one of its name, or at the end.
    pub fn put(&mut self, alloc: Global, variable: Variable) -> Result<(), AllocError>
        ensures ok { OnOk result (self.new ≡ with_variable self.old variable) }
        ensures err { OnErr result (self.new ≡ self.old) }
    {
        let key = String::from_str(alloc, variable.name.as_str())?;
        match self.by_name.insert(key, variable) {
            Ok(_) => Ok(()),
            Err(_) => Err(AllocError),
        }
    }
}

fn put_copies(
    alloc: Global,
    copies: &mut Variables,
    variables: &[Variable],
) -> Result<(), AllocError>
    ensures { OnOk result (copies.new ≡ with_variables copies.old variables.now) }
{
    for variable in variables {
        copies.put(alloc, variable.deep_copy(alloc)?)?;
    }
    Ok(())
}

impl DeepCopy for Variables {
    #[tactic(auto, using(crate::proofs::Named::put_behind))]
    fn deep_copy(&self, alloc: Global) -> Result<Variables, AllocError> {
        let mut copies = Variables::new(alloc);
        put_copies(alloc, &mut copies, self.as_slice())?;
        Ok(copies)
    }
}
