//! Values that have a number and belong to a name.
ghost use Rattle.std.specs.Prelude.{◌≡◌, ℕ, IfOk};

use std::alloc::AllocError;

/// A value with a number, which belongs to one name.
pub trait Numbered: Sized {
    type Name;

    ghost number_of: { Self → ℕ };

    ghost name_of: { Self → Self.Name };

    fn number(&self) -> u64
        ensures { result ≡ number_of self.now };

    /// An equal value, for instance one more owner of what both point to. A refusal counts as want of memory.
    fn share(&self) -> Result<Self, AllocError>
        ensures { IfOk result (λ v. v ≡ self.now) };
}
