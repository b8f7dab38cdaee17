//! What has a head.
ghost use Rattle.std.specs.Prelude.{◌≡◌, List, ℕ, IfOk};

use ct_point::Point;
use std::alloc::{AllocError, Global};

/// A value with a head, a point that divides others or doesn't. It can be copied.
pub trait HasHead: Drop {
    ghost head_of: { Self → List ℕ };

    /// The head.
    fn head(&self) -> &Point
        ensures { result.now ≡ head_of self.now };

    /// An equal value.
    fn copy(&self, alloc: Global) -> Result<Self, AllocError>
        ensures { IfOk result (λ v. v ≡ self.now) };
}

impl HasHead for Point {
    ghost head_of = { λ p. p };

    fn head(&self) -> &Point {
        self
    }

    fn copy(&self, alloc: Global) -> Result<Point, AllocError> {
        Point::copy(self, alloc)
    }
}
