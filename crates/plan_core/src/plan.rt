//! A plan: nodes in order, each of which fits those before it.
ghost use Rattle.std.specs.Prelude.{◌≡◌, [], IfOk, OnErr};
ghost use Rattle.xr_arrays.specs.Nodes.{IsNode, values, Pushes, AllFit};

use std::alloc::Global;
use std::marker::Model;
use xr_arrays::Node;
use xr_types::{Items, NoMemory, NodeId};

/// Nodes, whose inputs are earlier nodes. A node's number is its place.
#[derive(Drop)]
pub struct Plan {
    nodes: Items<Node>,
}

impl Model for Plan {
    ghost use Rattle.std.specs.Prelude.{List, []};
    ghost use Rattle.xr_arrays.specs.Nodes.{AllFit};
    ghost use Rattle.xr_arrays.specs.declared.node.Node.{Node};

    ghost Value = { List Node };

    ghost view = { λ p. p.nodes };

    ghost invariant = { λ p. AllFit [] p.nodes };
}

impl Plan {
    /// The empty plan.
    pub fn new(alloc: Global) -> Plan
        ensures { result ≡ [] }
    {
        Plan {
            nodes: Items::new(alloc),
        }
    }

    /// Adds a node and answers its number. The earlier nodes and their values are kept.
    ///
    /// The node has to fit: its inputs are earlier nodes whose shapes and kinds serve it, and it has at most 2^50 cells.
    pub fn push(&mut self, node: Node) -> Result<NodeId, NoMemory>
        requires { IsNode (values self.old) node }
        ensures ok { IfOk result (λ place. Pushes self.old self.new node place) }
        ensures err { OnErr result (self.new ≡ self.old) }
    {
        let place = self.nodes.as_slice().len() as u64;
        self.nodes.push(node)?;
        Ok(place)
    }

    /// The nodes in order.
    pub fn nodes(&self) -> &[Node]
        ensures nodes { result.now ≡ self.now }
        ensures fit { AllFit [] self.now }
    {
        self.nodes.as_slice()
    }
}
