//! Why two points make no move.
/// Why two points make no move.
#[derive(Clone, Copy, Debug, PartialEq, Eq)]
pub enum MoveFault {
    /// The grade of the head is above the limit.
    Grade,
    /// The degrees of head and tail differ.
    Degree,
    /// The tail isn't below the head in the refined order.
    Order,
}
