//! Values that count something for each pass.
ghost use Rattle.std.specs.Prelude.{◌≡◌, ◌^◌, ◌<◌, ℕ, List, length, slice_index};

/// A value with a list of counts, one for each pass of its lock. It belongs to one name, and shows some numbers.
pub trait Counted: Sized {
    type Name;

    ghost name_of: { Self → Self.Name };

    ghost counts_of: { Self → List ℕ };

    ghost shows: { Self → List ℕ };

    fn count(&self, number: u32) -> u64
        requires known { number < length (counts_of self.now) }
        requires fits { slice_index (counts_of self.now) number < 2 ^ 64 }
        ensures { result ≡ slice_index (counts_of self.now) number };
}
