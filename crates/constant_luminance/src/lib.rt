// Constant luminance (request 2026-11): Y'c, C'bc and C'rc of a triple of light, and R' and B' of such words, in the systems 5 and 6.
#![tactic(auto)]

ghost use Rattle.std.specs.Prelude.{◌≡◌, ◌*◌, ◌^◌, ◌≤◌, ◌<◌, pos, nat_abs, ◌+ℤ◌, ◌*ℤ◌};
ghost use Rattle.exact.specs.Signed.{rounded};
ghost use Rattle.systems.specs.Refusals.{outcome};
ghost use Rattle.curve.specs.Curve.{code};
ghost use Rattle.matrix.specs.Inner.{TwelveBitWords};
ghost use Rattle.constant_luminance.specs.ConstantLuminance.{base, Names, luminance, blue, red, divisor, difference, luma_of, words_at, words_of_lights, primary, codes_at, codes_of_words};
ghost use Rattle.constant_luminance.specs.Inner.{Sized};

use luminance::{Thresholds, code_by};
use luminance_10::Bits10;
use luminance_12::Bits12;
use matrix::{Clips, Words};
use systems::{Matrix, Range, Refusal, System};

// BT.2020 with constant luminance at a bit depth, with its number.
#[derive(Clone, Copy, PartialEq, Eq)]
pub enum ConstantSystem {
    Bits10 = 5,
    Bits12 = 6,
}

// Linear light of a sample, 0 to 65535 each. A type of its own beside Codes, so that no light passes for a code.
#[repr(C)]
#[derive(Clone, Copy)]
pub struct Lights {
    pub r: u16,
    pub g: u16,
    pub b: u16,
}

// R' and B' codes of a sample.
#[repr(C)]
#[derive(Clone, Copy, PartialEq, Eq)]
pub struct RedBlue {
    pub r: u16,
    pub b: u16,
}

// R' and B' of a sample's words, and their clips.
#[derive(Clone, Copy, PartialEq, Eq)]
pub struct Clipped {
    pub codes: RedBlue,
    pub clips: Clips,
}

// What a colour difference is divided by, in ten-thousandths, where it is not above zero and where it is.
#[derive(Clone, Copy)]
struct Divisors {
    low: u32,
    high: u32,
}

// The unit of weights and divisors.
const ONE: u32 = 10000;

// q = 219/224: codes from black to white, and words from one end of a colour difference to the other, at 8 bits.
const STEPS: u32 = (Range::WHITE - Range::BLACK) as u32;

const DIFFERENCE_STEPS: u32 = (Range::DIFFERENCE_PEAK - Range::BLACK) as u32;

// The words of a triple of light; refused with 1.
pub fn words_of_lights(system: u32, lights: Lights) -> Result<Words, Refusal>
    ensures { outcome result ≡ words_of_lights system lights }
{
    let y = ConstantSystem::try_from(system)?;
    Ok(words_of(y, lights))
}

// R' and B' of a word triple; refused with 1, then 6.
pub fn codes_of_words(system: u32, words: Words) -> Result<Clipped, Refusal>
    ensures { outcome result ≡ codes_of_words system words }
{
    let y = ConstantSystem::try_from(system)?.base();
    if !words.all_in(y.video_data()) {
        return Err(Refusal::Code);
    }
    Ok(codes_in(y, words))
}

// The system of constant luminance that a number names.
impl TryFrom<u32> for ConstantSystem {
    type Error = Refusal;

    ghost try_from_gives = { Names };

    fn try_from(number: u32) -> Result<ConstantSystem, Refusal> {
        match number {
            5 => Ok(ConstantSystem::Bits10),
            6 => Ok(ConstantSystem::Bits12),
            _ => Err(Refusal::System),
        }
    }
}

impl ConstantSystem {
    // The system that this one takes its depth, α and β of.
    pub fn base(self) -> System
        ensures { result ≡ base self }
    {
        match self {
            ConstantSystem::Bits10 => System::Bt2020Bits10,
            ConstantSystem::Bits12 => System::Bt2020Bits12,
        }
    }
}

impl Divisors {
    // Of B' - Y'c.
    const BLUE: Divisors = Divisors {
        low: 19404,
        high: 15820,
    };
    // Of R' - Y'c.
    const RED: Divisors = Divisors {
        low: 17182,
        high: 9938,
    };

    // The divisor of the difference a - b.
    fn of(self, a: u16, b: u16) -> u32
        ensures { result ≡ divisor self a b }
    {
        if a <= b {
            return self.low;
        }
        self.high
    }
}

// A system has its boundaries, and nothing else of its own.
fn words_of(y: ConstantSystem, lights: Lights) -> Words
    ensures { result ≡ words_at (base y) lights }
{
    match y {
        ConstantSystem::Bits10 => words_in::<Bits10>(y, lights),
        ConstantSystem::Bits12 => words_in::<Bits12>(y, lights),
    }
}

// The words of one triple.
#[tactic(auto, using(crate::proofs::Sizes::sized))]
fn words_in<T: Thresholds>(y: ConstantSystem, lights: Lights) -> Words
    requires { base y ≡ T.system }
    ensures { result ≡ words_at (base y) lights }
{
    let base = y.base();
    let middle = base.middle();
    let luma = luma_in::<T>(base, lights);
    let red = component_in::<T>(base, lights.r);
    let blue = component_in::<T>(base, lights.b);
    Words {
        y: luma,
        cb: colour_difference(Divisors::BLUE, middle, blue, luma) as u16,
        cr: colour_difference(Divisors::RED, middle, red, luma) as u16,
    }
}

// Y'c: the code of the exact sum.
fn luma_in<T: Thresholds>(y: System, lights: Lights) -> u16
    requires { y ≡ T.system }
    ensures { result ≡ luma_of y lights }
{
    code_by::<T>(y, luminance(lights))
}

// R' or B': a light's own code is that of its luminance alone.
#[tactic(auto, using(luminance::proofs::Luminances::of_light))]
fn component_in<T: Thresholds>(y: System, light: u16) -> u16
    requires { y ≡ T.system }
    ensures { result ≡ code y light }
{
    code_by::<T>(y, ONE * u32::from(light))
}

// The luminance of a triple of light: the exact sum, which nothing rounds.
fn luminance(lights: Lights) -> u32
    ensures { result ≡ luminance lights }
{
    let w = Matrix::Bt2020.weights();
    share(w.kr, lights.r) + share(w.kg, lights.g) + share(w.kb, lights.b)
}

// A weight's share of a light.
fn share(weight: i64, light: u16) -> u32
    requires { (weight ≡ pos (nat_abs weight)) × (nat_abs weight ≤ 10000) }
    ensures { result ≡ nat_abs weight * light }
{
    weight as u32 * u32::from(light)
}

// INT((code - luma)·10000·224/(219·divisor) + m), C'bc or C'rc.
fn colour_difference(divisors: Divisors, middle: u16, code: u16, luma: u16) -> i64
    requires { Sized divisors × (middle < 2 ^ 12) × (code < 2 ^ 12) × (luma < 2 ^ 12) }
    ensures { result ≡ rounded (difference divisors middle code luma) }
{
    let bottom = i64::from(STEPS * divisors.of(code, luma));
    let above = matrix::signed(code, luma);
    let unit = i64::from(ONE * DIFFERENCE_STEPS);
    exact::rounded(products(above, unit, i64::from(middle), bottom), bottom)
}

// R' and B' of one triple, clipped to video data.
#[tactic(auto, unfolding(crate::specs::ConstantLuminance::codes_at))]
fn codes_in(y: System, words: Words) -> Clipped
    requires { TwelveBitWords words }
    ensures { result ≡ codes_at y words }
{
    let video = y.video_data();
    let middle = y.middle();
    let r = primary(Divisors::RED, middle, words.y, words.cr);
    let b = primary(Divisors::BLUE, middle, words.y, words.cb);
    let codes = RedBlue {
        r: matrix::clip(video, r),
        b: matrix::clip(video, b),
    };
    Clipped {
        codes,
        clips: matrix::beyond(video, r).plus(matrix::beyond(video, b)),
    }
}

// INT(Y'c + q·(word - m)·divisor/10000), R' or B' before it is clipped.
fn primary(divisors: Divisors, middle: u16, luma: u16, word: u16) -> i64
    requires { Sized divisors × (middle < 2 ^ 12) × (luma < 2 ^ 12) × (word < 2 ^ 12) }
    ensures { result ≡ rounded (primary divisors middle luma word) }
{
    let step = i64::from(STEPS * divisors.of(word, middle));
    let above = matrix::signed(word, middle);
    let bottom = i64::from(DIFFERENCE_STEPS * ONE);
    exact::rounded(products(bottom, i64::from(luma), above, step), bottom)
}

// a·x + b·y.
fn products(a: i64, x: i64, b: i64, y: i64) -> i64
    requires { (nat_abs a ≤ 2 ^ 24) × (nat_abs x ≤ 2 ^ 24) × (nat_abs b ≤ 2 ^ 24) × (nat_abs y ≤ 2 ^ 24) }
    ensures { result ≡ a *ℤ x +ℤ b *ℤ y }
{
    a * x + b * y
}
