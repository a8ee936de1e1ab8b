ghost use Rattle.std.specs.Prelude.{◌≡◌, ℕ, ◌+◌, ◌<◌, ◌≤◌, IfOk, length, replicate, slice_index, slice_set};

use crate::outcome::{MOST_VALUE, Outcome};
use hpb_rules::{MOST_NODES, NodeId};
use std::alloc::{AllocError, Global};

/// The value of each node, and how many of them were formed since a pass began. Only `Outcome::form` gives one node a
/// value; otherwise the table is made, copied or cleared as a whole.
#[derive(Debug, Drop)]
pub(crate) struct Values {
    values: Vec<u64>,
    formed: u32,
}

impl Values {
    /// The value 0 for each node.
    pub(crate) fn new(alloc: Global) -> Result<Values, AllocError>
        ensures values { IfOk result (λ table. table.values.items ≡ replicate MOST_NODES 0) }
        ensures formed { IfOk result (λ table. table.formed ≡ 0) }
    {
        Ok(Values {
            values: vec![in alloc; 0; MOST_NODES]?,
            formed: 0,
        })
    }

    /// Makes the value of each node 0.
    pub(crate) fn clear(&mut self)
        ensures values { self.new.values.items ≡ replicate (length self.old.values.items) 0 }
        ensures formed { self.new.formed ≡ 0 }
    {
        self.values.fill(0);
        self.formed = 0;
    }

    /// Makes this table equal to another. Takes no memory.
    pub(crate) fn copy_from(&mut self, other: &Values)
        requires { length self.old.values.items ≡ length other.now.values.items }
        ensures values { self.new.values.items ≡ other.now.values.items }
        ensures formed { self.new.formed ≡ other.now.formed }
    {
        self.values.copy_from_slice(other.values.as_slice());
        self.formed = other.formed;
    }

    /// A copy of the table. Fails only if memory is refused.
    pub(crate) fn copy(&self, alloc: Global) -> Result<Values, AllocError>
        ensures values { IfOk result (λ table. table.values.items ≡ self.now.values.items) }
        ensures formed { IfOk result (λ table. table.formed ≡ self.now.formed) }
    {
        Ok(Values {
            values: self.values.to_vec(alloc)?,
            formed: self.formed,
        })
    }
}

impl Outcome {
    /// The value of a node, in whole dollars: the greater of its high bid and the sum of its children's values.
    pub fn value(&self, node: NodeId) -> u64
        ensures { result ≡ slice_index self.now.values node }
    {
        let index = node.place();
        self.values.values[index]
    }

    /// How many values were formed since the last pass began.
    pub fn formed(&self) -> u32
        ensures { result ≡ self.now.formed }
    {
        self.values.formed
    }

    /// Begins a pass: no value is formed yet.
    pub(crate) fn begin(&mut self)
        ensures { self.new ≡ record self.old { formed = 0 } }
    {
        self.values.formed = 0;
    }

    /// Gives a node its value, and counts it as formed.
    pub(crate) fn form(&mut self, node: NodeId, value: u64)
        requires most { value ≤ MOST_VALUE }
        requires few { self.old.formed < MOST_NODES }
        ensures values { self.new.values ≡ slice_set self.old.values node value }
        ensures formed { self.new.formed ≡ self.old.formed + 1 }
        ensures inside { self.new.inside ≡ self.old.inside }
        ensures parents { self.new.parents ≡ self.old.parents }
        ensures revenue { self.new.revenue ≡ self.old.revenue }
    {
        let index = node.place();
        self.values.values[index] = value;
        self.values.formed += 1;
    }
}
