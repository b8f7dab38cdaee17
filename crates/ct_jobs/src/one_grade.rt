//! The pairs of one grade.
/// The pairs of one grade, of which there is one at least: 8 bytes each.
#[derive(Debug, Drop)]
pub struct OneGrade {
    /// The first pair.
    pub first: (u32, u32),
    /// The others.
    pub rest: Vec<(u32, u32)>,
}
