//! The supports of heads: the coordinates that aren't 0, of which there are few.
ghost use Rattle.std.specs.Prelude.{◌≡◌, ◌+◌, ◌≤◌, ◌<◌, ◌^◌, ◌++◌, ◌∷◌, [], length, All, slice_index_or, IfOk, OnOk, sum_by};
ghost use Rattle.ct_instance.specs.Instance.{grade_of};
ghost use Rattle.ct_instance.specs.Jobs.{the_move, job_grade_of};
ghost use Rattle.ct_jobs.specs.Supports.{excess_over, support, supports_between};

use ct_instance::{Instance, Job};
use ct_walk::Moves;
use std::alloc::{AllocError, Global};
use std::marker::Model;

// A coordinate that isn't 0.
#[derive(Clone, Copy, Debug)]
pub struct Part {
    // Its place in the head, from 0.
    pub place: usize,
    // The coordinate.
    pub value: u64,
    // What 1 at this place adds to the grade: the sum of its column, and 1 for an artificial.
    pub weight: u64,
}

// Where the parts of one head lie among those of all heads.
#[derive(Clone, Copy, Debug)]
pub struct Span {
    // The first of them.
    pub start: usize,
    // Past the last of them.
    pub end: usize,
}

/// The supports of a list of heads: 24 bytes for each coordinate that isn't 0, and 16 a head.
#[derive(Debug, Drop)]
pub struct Supports {
    parts: Vec<Part>,
    spans: Vec<Span>,
}

impl Model for Supports {
    ghost use Rattle.std.specs.Prelude.{List, map, length, All};
    ghost use Rattle.ct_jobs.specs.declared.supports.Part.{Part};
    ghost use Rattle.ct_jobs.specs.Supports.{in_span, IsSpan};

    ghost Value = { List (List Part) };

    ghost view = { λ s. map (in_span s.parts.items) s.spans.items };

    ghost invariant = { λ s. All (IsSpan (length s.parts.items)) s.spans.items };
}

impl Supports {
    /// The supports of the heads of the moves after the first `known`.
    pub fn of_new_moves(
        alloc: Global,
        inst: &Instance,
        moves: &Moves,
        known: u32,
    ) -> Result<Supports, AllocError>
        requires instance { moves.now.instance ≡ inst.now }
        requires within { known ≤ length moves.now.moves }
        ensures { IfOk result (λ s. s ≡ supports_between inst.now moves.now.moves known (length moves.now.moves)) }
    {
        let mut supports = Supports {
            parts: Vec::new(alloc),
            spans: Vec::new(alloc),
        };
        for k in known..moves.len() {
            supports.push(inst.sums(), moves.get(k + 1).head().as_slice())?;
        }
        Ok(supports)
    }

    // Adds the support of a head.
    fn push(&mut self, sums: &[u64], head: &[u64]) -> Result<(), AllocError>
        ensures { OnOk result (self.new ≡ self.old ++ support sums.now head.now ∷ []) }
    {
        let start = self.parts.len();
        push_support(&mut self.parts, sums, head)?;
        let end = self.parts.len();
        self.spans.push(Span { start, end })?;
        Ok(())
    }

    /// The grade of the pair of the move i, whose head has the grade `own`, and of the first move after `before` others,
    /// among the moves after the first `known`: `own`, and what the later head has beyond the earlier one. It is linear in
    /// the later head's coordinates that aren't 0.
    pub fn pair_grade(&self, moves: &Moves, known: u32, i: u32, before: u32, own: u64) -> u64
        requires supports { self.now ≡ supports_between moves.now.instance moves.now.moves known (length moves.now.moves) }
        requires some { 1 ≤ i }
        requires earlier { i ≤ before }
        requires new { known ≤ before }
        requires in_list { before < length moves.now.moves }
        requires own { own ≡ grade_of moves.now.instance.columns (the_move moves.now.moves i).head }
        ensures { result ≡ job_grade_of moves.now.instance moves.now.moves (Job.Pair i (before + 1)) }
    {
        // For its facts alone: these are moves of the instance, within the limits.
        let _instance = moves.instance();
        let later = self.get((before - known) as usize);
        grade_with(own, later, moves.get(i).head().as_slice())
    }

    // The support of the head with this index, from 0.
    fn get(&self, index: usize) -> &[Part]
        requires { index < length self.now }
        ensures { result.now ≡ slice_index_or self.now index [] }
    {
        let span = self.spans[index];
        &self.parts[span.start..span.end]
    }
}

// Appends the support of a head. A refusal takes none away.
fn push_support(parts: &mut Vec<Part>, sums: &[u64], head: &[u64]) -> Result<(), AllocError>
    ensures more { OnOk result (parts.new.items ≡ parts.old.items ++ support sums.now head.now) }
    ensures kept { length parts.old.items ≤ length parts.new.items }
{
    for place in 0..head.len() {
        let value = head[place];
        if value > 0 {
            let weight = sums.get(place).copied().unwrap_or(1);
            parts.push(Part {
                place,
                value,
                weight,
            })?;
        }
    }
    Ok(())
}

// A grade, and what these parts have beyond a point.
fn grade_with(own: u64, parts: &[Part], p: &[u64]) -> u64
    requires places { All (λ t. t.place < length p.now) parts.now }
    requires fits { own + sum_by (excess_over p.now) parts.now < 2 ^ 64 }
    ensures { result ≡ own + sum_by (excess_over p.now) parts.now }
{
    let mut grade = own;
    for part in parts {
        grade += part.weight * part.value.saturating_sub(p[part.place]);
    }
    grade
}
