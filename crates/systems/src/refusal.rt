// The refusals, each with its number and its condition (document 01, 'What the caller hears').
ghost use Rattle.std.specs.Prelude.{◌≡◌};
ghost use Rattle.systems.specs.Refusals.{refusal};

use std::error::Error;
use std::fmt;

#[derive(Clone, Copy, Debug, PartialEq, Eq)]
pub enum Refusal {
    // System not 1 to 4.
    System = 1,
    // Width not 1 to 7680.
    Width = 2,
    // Height not 1 to 4320.
    Height = 3,
    // Lights not 3·width.
    Lights = 4,
    // Lent output too short.
    Output = 5,
    // Request 2026-03: code or word outside video data, or nominal where a call asks for it.
    Code = 6,
    // Signal below 0, above 1, or not a number.
    Signal = 7,
    // Block ends too early.
    BlockEnd = 8,
    // Count 0, above 7680, or unlike the Y' count.
    Count = 9,
    // Block's row number above 4319.
    RowNumber = 10,
    // Bytes after the Cr section.
    BytesAfter = 11,
    // Open while open.
    AlreadyOpen = 21,
    // Row or close while not open.
    NotOpen = 22,
    // Row when all rows are accepted.
    AllRows = 23,
    // Close with rows missing.
    RowsMissing = 24,
    // Request 2026-01: a buffer's length 0, no multiple of 1080, or unlike the other's.
    Length = 31,
    // Request 2026-09: target system equal to the block's, or of the other Recommendation.
    Target = 32,
    // Request 2026-09: word of the result in the timing codes.
    Timing = 33,
    // Request 2026-10: block's row number not the next one.
    Turn = 34,
    // Request 2026-10: block's system or count unlike the first one's.
    Unlike = 35,
    // Request 2026-10: block before opening or when complete.
    NotReading = 36,
}

impl Refusal {
    pub fn number(self) -> u32
        ensures { result ≡ refusal self }
    {
        self as u32
    }
}

impl fmt::Display for Refusal {
    fn fmt<W: fmt::Write>(&self, f: &mut fmt::Formatter<W>) -> fmt::Result {
        write!(f, "refused {}", self.number())
    }
}

impl Error for Refusal {}
