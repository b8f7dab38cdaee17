//! The points that a job leaves.
use ct_point::Point;

/// Two different points of one degree: where the walks of a job's ends come to.
#[derive(Debug, Drop)]
pub struct Ends {
    /// Where the walk of the first end comes to.
    pub first: Point,
    /// Where the walk of the second end comes to.
    pub second: Point,
}
