// The four systems of document 01, 'Four systems', with their constants, the weights of 'Triples' and the refusals of
// 'What the caller hears'. Each constant is written once, here.
#![tactic(auto)]

mod refusal;

ghost use Rattle.std.specs.Prelude.{◌≡◌, pos};
ghost use Rattle.systems.specs.Systems.{number, matrix, bits, scale, transfer, middle, nominal, nominal_difference, video_data, within, all_within, kr, kg, kb, Names};
ghost use Rattle.systems.specs.Inner.{bits_of};

pub use refusal::Refusal;

// A Recommendation's matrix.
#[derive(Clone, Copy, PartialEq, Eq)]
pub enum Matrix {
    Bt709,
    Bt2020,
}

// A bit depth.
#[derive(Clone, Copy, PartialEq, Eq)]
pub enum Depth {
    Bits8 = 8,
    Bits10 = 10,
    Bits12 = 12,
}

// A Recommendation at a bit depth, with its number.
#[derive(Clone, Copy, PartialEq, Eq)]
pub enum System {
    Bt709Bits8 = 1,
    Bt709Bits10 = 2,
    Bt2020Bits10 = 3,
    Bt2020Bits12 = 4,
}

// α and β of the transfer function, in ten-thousandths.
#[derive(Clone, Copy)]
pub struct Transfer {
    pub alpha: u32,
    pub beta: u32,
}

// The codes from low to high, both included.
#[derive(Clone, Copy, PartialEq, Eq)]
pub struct Range {
    pub low: u16,
    pub high: u16,
}

// R', G' and B' codes of a sample.
#[repr(C)]
#[derive(Clone, Copy, PartialEq, Eq)]
pub struct Codes {
    pub r: u16,
    pub g: u16,
    pub b: u16,
}

// The shares of R', G' and B' in Y', in ten-thousandths.
#[derive(Clone, Copy)]
pub struct Weights {
    pub kr: i64,
    pub kg: i64,
    pub kb: i64,
}

// A row's most samples, and a picture's most rows.
pub const MOST_SAMPLES: u16 = 7680;

pub const MOST_ROWS: u16 = 4320;

// Rows by matrix: Bt709, Bt2020.
const WEIGHTS: [[i64; 3]; 2] = [[2126, 7152, 722], [2627, 6780, 593]];

impl Transfer {
    // Both Recommendations to 10 bits.
    pub const TO_10_BITS: Transfer = Transfer {
        alpha: 10990,
        beta: 180,
    };
    // BT.2020 at 12 bits.
    pub const AT_12_BITS: Transfer = Transfer {
        alpha: 10993,
        beta: 181,
    };
}

impl Range {
    // The ends of the ranges at 8 bits; a system's are these times its scale.
    pub const BLACK: u16 = 16;

    pub const WHITE: u16 = 235;

    pub const DIFFERENCE_PEAK: u16 = 240;

    pub const MIDDLE: u16 = 128;

    pub const LAST_TIMING: u16 = 255;

    pub fn holds(self, code: u16) -> bool
        ensures { result ≡ within self code }
    {
        self.low <= code && code <= self.high
    }
}

impl Codes {
    pub fn all_in(self, range: Range) -> bool
        ensures { result ≡ all_within range self }
    {
        range.holds(self.r) & range.holds(self.g) & range.holds(self.b)
    }
}

impl Matrix {
    pub fn weights(self) -> Weights
        ensures { (result.kr ≡ pos (kr self)) × (result.kg ≡ pos (kg self)) × (result.kb ≡ pos (kb self)) }
    {
        let w = WEIGHTS;
        match self {
            Matrix::Bt709 => Weights {
                kr: w[0][0],
                kg: w[0][1],
                kb: w[0][2],
            },
            Matrix::Bt2020 => Weights {
                kr: w[1][0],
                kg: w[1][1],
                kb: w[1][2],
            },
        }
    }
}

impl Depth {
    pub fn bits(self) -> u32
        ensures { result ≡ bits_of self }
    {
        self as u32
    }
}

// The system that a number names.
impl TryFrom<u32> for System {
    type Error = Refusal;

    ghost try_from_gives = { Names };

    fn try_from(number: u32) -> Result<System, Refusal> {
        match number {
            1 => Ok(System::Bt709Bits8),
            2 => Ok(System::Bt709Bits10),
            3 => Ok(System::Bt2020Bits10),
            4 => Ok(System::Bt2020Bits12),
            _ => Err(Refusal::System),
        }
    }
}

impl System {
    pub fn number(self) -> u32
        ensures { result ≡ number self }
    {
        self as u32
    }

    pub fn matrix(self) -> Matrix
        ensures { result ≡ matrix self }
    {
        match self {
            System::Bt709Bits8 => Matrix::Bt709,
            System::Bt709Bits10 => Matrix::Bt709,
            System::Bt2020Bits10 => Matrix::Bt2020,
            System::Bt2020Bits12 => Matrix::Bt2020,
        }
    }

    // Systems of one depth have one table of boundary lights.
    pub fn depth(self) -> Depth
        ensures { bits_of result ≡ bits self }
    {
        match self {
            System::Bt709Bits8 => Depth::Bits8,
            System::Bt709Bits10 => Depth::Bits10,
            System::Bt2020Bits10 => Depth::Bits10,
            System::Bt2020Bits12 => Depth::Bits12,
        }
    }

    // Codes to one 8-bit code.
    pub fn scale(self) -> u16
        ensures { result ≡ scale self }
    {
        1 << (self.depth().bits() - 8)
    }

    pub fn transfer(self) -> Transfer
        ensures { result ≡ transfer self }
    {
        match self {
            System::Bt709Bits8 => Transfer::TO_10_BITS,
            System::Bt709Bits10 => Transfer::TO_10_BITS,
            System::Bt2020Bits10 => Transfer::TO_10_BITS,
            System::Bt2020Bits12 => Transfer::AT_12_BITS,
        }
    }

    // The code of a colour difference of zero.
    pub fn middle(self) -> u16
        ensures { result ≡ middle self }
    {
        Range::MIDDLE * self.scale()
    }

    // Nominal R', G', B' and Y'.
    pub fn nominal(self) -> Range
        ensures { result ≡ nominal self }
    {
        let s = self.scale();
        Range {
            low: Range::BLACK * s,
            high: Range::WHITE * s,
        }
    }

    // Nominal Cb and Cr.
    pub fn nominal_difference(self) -> Range
        ensures { result ≡ nominal_difference self }
    {
        let s = self.scale();
        Range {
            low: Range::BLACK * s,
            high: Range::DIFFERENCE_PEAK * s,
        }
    }

    // The codes that are no timing codes.
    pub fn video_data(self) -> Range
        ensures { result ≡ video_data self }
    {
        let s = self.scale();
        Range {
            low: s,
            high: Range::LAST_TIMING * s - 1,
        }
    }
}
