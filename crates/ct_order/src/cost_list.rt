//! The costs of one point.
ghost use Rattle.std.specs.Prelude.{◌≡◌, ◌≤◌, length};
ghost use Rattle.ct_vectors.specs.declared.limits.TheConstants.{COST_ROW_LIMIT};

use ct_vectors::limits::COST_ROW_LIMIT;
use std::marker::Model;

/// The costs of a point by one to eight rows, in the order of the rows. Clauses see the list of them.
///
/// It has room for eight in itself, 136 bytes.
#[derive(Clone, Copy, Debug, PartialEq, Eq)]
pub struct CostList {
    costs: [i128; COST_ROW_LIMIT],
    count: usize,
}

impl Model for CostList {
    ghost use Rattle.std.specs.Prelude.{◌≡◌, ◌≤◌, ℤ, List, length, take};
    ghost use Rattle.ct_vectors.specs.declared.limits.TheConstants.{COST_ROW_LIMIT};
    ghost use Rattle.std.proofs.Common.{sym};
    ghost use Rattle.std.proofs.lemmas.List.{length-take-le};
    ghost use Rattle.ct_order.specs.Costs.{padded};

    ghost Value = { List ℤ };

    ghost view = { λ c. take c.count c.costs };

    // What is kept behind the list is 0.
    ghost invariant = { λ c. (1 ≤ c.count) × (c.count ≤ COST_ROW_LIMIT) × (c.costs ≡ padded (take c.count c.costs)) × (c.count ≤ length c.costs) };

    ghost inverse = { λ l. record { costs = padded l; count = length l } };

    ghost inverse_ok = { λ c h i. record { costs = sym h.2 i; count = length-take-le c.count c.costs h.3 i } };
}

impl CostList {
    /// The list of these costs.
    pub fn new(costs: &[i128]) -> CostList
        requires some { 1 ≤ length costs.now }
        requires limit { length costs.now ≤ COST_ROW_LIMIT }
        ensures { result ≡ costs.now }
    {
        let mut kept = [0i128; COST_ROW_LIMIT];
        kept[..costs.len()].copy_from_slice(costs);
        CostList {
            costs: kept,
            count: costs.len(),
        }
    }

    /// The costs in order.
    pub fn as_slice(&self) -> &[i128]
        ensures costs { result.now ≡ self.now }
        ensures some { 1 ≤ length result.now }
        ensures limit { length result.now ≤ COST_ROW_LIMIT }
    {
        &self.costs[..self.count]
    }
}
