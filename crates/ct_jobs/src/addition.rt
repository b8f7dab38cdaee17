//! Pairs that are to be added.
ghost use Rattle.std.specs.Prelude.{◌≡◌, ◌≤◌, ◌<◌, ◌-◌, ◌++◌, [], length, map, IfOk, OnOk};
ghost use Rattle.ct_jobs.specs.GradedJobs.{with_grade, graded_pairs_from, row_from};
ghost use Rattle.ct_jobs.specs.Kept.{pair_of};
ghost use Rattle.ct_jobs.specs.Supports.{supports_between};

use crate::graded::GradedPair;
use crate::supports::Supports;
use ct_instance::Instance;
use ct_walk::Moves;
use std::alloc::{AllocError, Global};
use std::marker::Model;

/// Pairs that buckets are to take in, with their grades. Each takes 16 bytes.
#[derive(Debug, Drop)]
pub struct Addition {
    pairs: Vec<GradedPair>,
}

impl Model for Addition {
    ghost use Rattle.std.specs.Prelude.{List, map};
    ghost use Rattle.ct_jobs.specs.declared.graded.GradedJob.{GradedJob};
    ghost use Rattle.ct_jobs.specs.Kept.{pair_of};

    ghost Value = { List GradedJob };

    ghost view = { λ a. map pair_of a.pairs.items };
}

impl Addition {
    /// No pairs.
    pub fn none(alloc: Global) -> Addition
        ensures { result ≡ [] }
    {
        Addition {
            pairs: Vec::new(alloc),
        }
    }

    // The pairs of the moves whose greater number is at least `from`. Where no move has such a number, it looks at none.
    pub(crate) fn prepare(
        alloc: Global,
        inst: &Instance,
        moves: &Moves,
        from: u32,
    ) -> Result<Addition, AllocError>
        requires { moves.now.instance ≡ inst.now }
        ensures { IfOk result (λ a. a ≡ graded_pairs_from inst.now moves.now.moves from) }
    {
        let count = moves.len();
        if from > count {
            return Ok(Addition::none(alloc));
        }
        let supports = Supports::of_new_moves(alloc, inst, moves, from.saturating_sub(1))?;
        let mut pairs = Vec::new(alloc);
        for i in 0..count {
            add_row(inst, moves, from, &supports, i + 1, &mut pairs)?;
        }
        Ok(Addition { pairs })
    }

    // The pairs, in the order in which they came.
    pub(crate) fn as_slice(&self) -> &[GradedPair]
        ensures { map pair_of result.now ≡ self.now }
    {
        self.pairs.as_slice()
    }

    // The pairs with their memory.
    pub(crate) fn into_pairs(self) -> Vec<GradedPair>
        ensures { map pair_of result.items ≡ self }
    {
        let Addition { pairs } = self;
        pairs
    }
}

// Appends the pairs of the move i with the moves after it, from `from` on; these are the supports of the heads from there
// on. The grade of a pair is that of the earlier head and of what the later head has beyond it.
fn add_row(
    inst: &Instance,
    moves: &Moves,
    from: u32,
    supports: &Supports,
    i: u32,
    pairs: &mut Vec<GradedPair>,
) -> Result<(), AllocError>
    requires instance { moves.now.instance ≡ inst.now }
    requires supports { supports.now ≡ supports_between inst.now moves.now.moves (from - 1) (length moves.now.moves) }
    requires some { 1 ≤ i }
    requires in_list { i ≤ length moves.now.moves }
    ensures { OnOk result (map pair_of pairs.new.items ≡ map pair_of pairs.old.items ++ map (with_grade inst.now moves.now.moves) (row_from from i (length moves.now.moves))) }
{
    // For its facts alone: these are moves of the instance, within the limits.
    let _instance = moves.instance();
    let own = inst.grade(moves.get(i).head());
    let known = from.saturating_sub(1);
    for k in i.max(known)..moves.len() {
        let grade = supports.pair_grade(moves, known, i, k, own);
        pairs.push(GradedPair {
            grade,
            first: i,
            second: k + 1,
        })?;
    }
    Ok(())
}
