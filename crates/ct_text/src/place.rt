//! Places in a text.

ghost use Rattle.std.specs.Prelude.{◌≡◌, ◌+◌, ◌<◌, ◌^◌};
ghost use Rattle.ct_text.specs.Place.{past};

/// A line and a column of a text, both from 1; a column counts bytes.
#[derive(Clone, Copy, Debug, PartialEq, Eq)]
pub struct Place {
    pub line: u64,
    pub column: u64,
}

impl Place {
    /// The place after a byte that stands here.
    pub fn past(self, byte: u8) -> Place
        requires lines { self.line + 1 < 2 ^ 64 }
        requires columns { self.column + 1 < 2 ^ 64 }
        ensures { result ≡ past self byte }
    {
        if byte == b'\n' {
            Place {
                line: self.line + 1,
                column: 1,
            }
        } else {
            Place {
                line: self.line,
                column: self.column + 1,
            }
        }
    }
}
