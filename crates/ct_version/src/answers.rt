//! What a version answers.
use ct_order::CostList;
use ct_point::Point;
use ct_walk::Walk;

/// The answer to a right-hand side.
#[derive(Debug, Drop)]
pub enum Answer {
    /// The least solution, n numbers, with its cost by each row of costs.
    Optimum { point: Point, costs: CostList },
    /// There is no solution: each point of the fiber has at least this artificial total.
    Infeasible { short: u64 },
}

/// An answer with the walk that found it.
#[derive(Debug, Drop)]
pub struct Answered {
    /// The answer.
    pub answer: Answer,
    /// The walk from the right-hand side in artificials to the least point.
    pub walk: Walk,
}

/// An answer without its point.
#[derive(Clone, Copy, Debug, PartialEq, Eq)]
pub enum AnswerKind {
    /// The cost of the least solution by each row of costs.
    Optimum { costs: CostList },
    /// There is no solution: each point of the fiber has at least this artificial total.
    Infeasible { short: u64 },
}
