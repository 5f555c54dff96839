// Codes to words and back (document 01, 'Triples', and requests 2026-03, 2026-04 and 2026-07).
#![tactic(auto)]

ghost use Rattle.std.specs.Prelude.{◌≡◌, ◌+◌, ◌*◌, ◌^◌, ◌≤◌, ◌<◌, [], ◌∷◌, pos, nat_abs, ◌-ℤ◌, ◌<ℤ◌};
ghost use Rattle.exact.specs.Signed.{rounded};
ghost use Rattle.systems.specs.Systems.{matrix, scale, video_data};
ghost use Rattle.systems.specs.Refusals.{outcome};
ghost use Rattle.matrix.specs.Triples.{encoded_at, worded, words_at, limited, codes_at, words_of_codes, codes_of_words, nominal_words, words_within, ◌plus◌, outside, clipped, rules, ruled, beyond};
ghost use Rattle.matrix.specs.Inner.{narrow, NominalCodes, TwelveBitCodes, TwelveBitWords, WordSized, Small, dotted, encoding_rows, colour_difference, decoding_rows, decoding_column, unclipped_at, fixed, from_fixed};

use systems::{Codes, Matrix, Range, Refusal, System};

// Y', Cb and Cr words of a sample.
#[repr(C)]
#[derive(Clone, Copy, PartialEq, Eq)]
pub struct Words {
    pub y: u16,
    pub cb: u16,
    pub cr: u16,
}

// The codes of a sample as wide as a register, so that none has to be widened.
#[derive(Clone, Copy)]
pub struct WideCodes {
    pub r: usize,
    pub g: usize,
    pub b: usize,
}

// The ranges that a sample's words are in.
#[derive(Clone, Copy)]
pub struct WordRanges {
    pub luma: Range,
    pub difference: Range,
}

// The rules that words are held to: the guard alone, or trim and then the guard.
#[derive(Clone, Copy)]
pub enum Encoding {
    Plain,
    Trim,
}

// Y', Cb and Cr of a sample's codes before the rules: some are below 0 or above the greatest word, so they are no `Words`.
#[derive(Clone, Copy)]
pub struct Unlimited {
    pub y: i64,
    pub cb: i64,
    pub cr: i64,
}

// The word that the rules leave of a number, and whether one of them moved it.
#[derive(Clone, Copy)]
pub struct Ruled {
    pub word: u16,
    pub moved: bool,
}

// The words that the rules leave, and how many of them were moved.
#[derive(Clone, Copy, PartialEq, Eq)]
pub struct Limited {
    pub words: Words,
    pub moved: u32,
}

// R, G and B of a sample's words before they are clipped: some are below 0 or above the greatest code, so they are no `Codes`.
#[derive(Clone, Copy)]
pub struct Unclipped {
    pub r: i64,
    pub g: i64,
    pub b: i64,
}

// How many components were brought up to the lower end of a range, and how many down to its upper end.
#[repr(C)]
#[derive(Clone, Copy, PartialEq, Eq)]
pub struct Clips {
    pub low: u16,
    pub high: u16,
}

// The codes of a sample's words, and their clips.
#[derive(Clone, Copy, PartialEq, Eq)]
pub struct Clipped {
    pub codes: Codes,
    pub clips: Clips,
}

// The weights' unit.
const ONE: i64 = 10000;

// q = 219/224: codes from black to white, and words from one end of a colour difference to the other, at 8 bits.
const STEPS: i64 = (Range::WHITE - Range::BLACK) as i64;

const DIFFERENCE_STEPS: i64 = (Range::DIFFERENCE_PEAK - Range::BLACK) as i64;

// Words and codes are summed in fixed point: UNIT is one of them, and a shift by the fraction bits rounds it down, also below 0.
const FRACTION_BITS: u32 = 49;

const UNIT: i64 = 1 << FRACTION_BITS;

// UNIT is their product.
const HIGH_PART: u64 = 1 << 25;

const LOW_PART: u64 = 1 << 24;

// A fixed-point entry is short of its fraction by less than 1, so that a sum is short by less than what it is multiplied by:
// 2^26 for a colour difference, and 2^12 each for cb and cr.
const DIFFERENCE_ERROR: i64 = 1 << 26;

const PRIMARY_ERROR: i64 = 1 << 13;

// The words of a code triple; refused with 1, then 6.
pub fn words_of_codes(system: u32, encoding: Encoding, codes: Codes) -> Result<Limited, Refusal>
    ensures { outcome result ≡ words_of_codes system encoding codes }
{
    let y = System::try_from(system)?;
    if !codes.all_in(y.video_data()) {
        return Err(Refusal::Code);
    }
    Ok(limited_in(y, encoding, unlimited_in(y, WideCodes::from(codes))))
}

// The codes of a word triple; refused with 1, then 6.
pub fn codes_of_words(system: u32, words: Words) -> Result<Clipped, Refusal>
    ensures { outcome result ≡ codes_of_words system words }
{
    let y = System::try_from(system)?;
    let video = y.video_data();
    if !words.all_in(video) {
        return Err(Refusal::Code);
    }
    Ok(codes_in(y, video, words))
}

impl From<Codes> for WideCodes {
    ghost from_gives = { λ codes wide. narrow wide ≡ codes };

    fn from(codes: Codes) -> WideCodes {
        WideCodes {
            r: usize::from(codes.r),
            g: usize::from(codes.g),
            b: usize::from(codes.b),
        }
    }
}

impl WordRanges {
    // Nominal Y', Cb and Cr.
    fn nominal(y: System) -> WordRanges
        ensures { result ≡ nominal_words y }
    {
        WordRanges {
            luma: y.nominal(),
            difference: y.nominal_difference(),
        }
    }
}

impl Words {
    pub fn all_in(self, range: Range) -> bool
        ensures { result ≡ words_within range self }
    {
        range.holds(self.y) & range.holds(self.cb) & range.holds(self.cr)
    }
}

impl Clips {
    pub const NONE: Clips = Clips { low: 0, high: 0 };

    pub fn plus(self, other: Clips) -> Clips
        requires { (self.low + other.low < 2 ^ 16) × (self.high + other.high < 2 ^ 16) }
        ensures { result ≡ self plus other }
    {
        Clips {
            low: self.low + other.low,
            high: self.high + other.high,
        }
    }
}

impl Encoding {
    // Trim is tried first if it is chosen, then the guard. Only one of them acts.
    fn ruled(self, video: Range, nominal: Range, v: i64) -> Ruled
        ensures { result ≡ ruled (rules self video nominal) v }
    {
        match self {
            Encoding::Trim if outside(nominal, v) => held_to(nominal, v),
            _ => held_to(video, v),
        }
    }
}

// What one rule leaves of a number.
fn held_to(range: Range, v: i64) -> Ruled
    ensures { result ≡ ruled (range ∷ []) v }
{
    Ruled {
        word: clip(range, v),
        moved: outside(range, v),
    }
}

// Y', Cb and Cr held to the rules.
#[tactic(auto, unfolding(crate::specs::Triples::limited))]
fn limited_in(y: System, encoding: Encoding, v: Unlimited) -> Limited
    ensures { result ≡ limited encoding (video_data y) (nominal_words y) v }
{
    let video = y.video_data();
    let n = WordRanges::nominal(y);
    let luma = encoding.ruled(video, n.luma, v.y);
    let blue = encoding.ruled(video, n.difference, v.cb);
    let red = encoding.ruled(video, n.difference, v.cr);
    Limited {
        words: Words {
            y: luma.word,
            cb: blue.word,
            cr: red.word,
        },
        moved: luma.moved as u32 + blue.moved as u32 + red.moved as u32,
    }
}

// The words of one triple of nominal codes, which no rule moves.
#[tactic(auto, unfolding(crate::specs::Triples::words_at))]
pub fn words_in(y: System, c: WideCodes) -> Words
    requires { NominalCodes (scale y) (narrow c) }
    ensures { result ≡ words_at (matrix y) (scale y) (narrow c) }
{
    to_words(unlimited_in(y, c))
}

// Y', Cb and Cr as words.
fn to_words(v: Unlimited) -> Words
    requires { WordSized v }
    ensures { result ≡ worded v }
{
    Words {
        y: v.y as u16,
        cb: v.cb as u16,
        cr: v.cr as u16,
    }
}

// Y', Cb and Cr of one triple: an arm for each matrix makes its entries constants.
fn unlimited_in(y: System, c: WideCodes) -> Unlimited
    requires { TwelveBitCodes (narrow c) }
    ensures { result ≡ encoded_at (matrix y) (scale y) (narrow c) }
{
    match y.matrix() {
        Matrix::Bt709 => unlimited_by(Matrix::Bt709, y, c),
        Matrix::Bt2020 => unlimited_by(Matrix::Bt2020, y, c),
    }
}

// Y', Cb and Cr by the rows of a matrix.
fn unlimited_by(x: Matrix, y: System, c: WideCodes) -> Unlimited
    requires { TwelveBitCodes (narrow c) }
    ensures { result ≡ encoded_at x (scale y) (narrow c) }
{
    let w = x.weights();
    let m = encoding_rows(x);
    let middle = y.middle();
    let t = [c.r as i64, c.g as i64, c.b as i64];
    Unlimited {
        y: exact::int_of(dot(m[0], t) as u32, ONE as u32) as i64,
        cb: colour_difference(dot(m[1], t), w.kb, middle),
        cr: colour_difference(dot(m[2], t), w.kr, middle),
    }
}

// 10000 times Y', Y' - B and Y' - R of (R, G, B).
#[tactic(auto, using(crate::proofs::Weights::row_of), unfolding(crate::specs::Inner::encoding_rows))]
fn encoding_rows(x: Matrix) -> [[i64; 3]; 3]
    ensures { result ≡ encoding_rows x }
{
    let w = x.weights();
    [
        [w.kr, w.kg, w.kb],
        [w.kr, w.kg, w.kb - ONE],
        [w.kr - ONE, w.kg, w.kb],
    ]
}

// INT(m - above·224/(219·2·(10000 - weight))) of 10000 times what Y' is above a colour, and the colour's weight.
fn colour_difference(above: i64, weight: i64, middle: u16) -> i64
    requires { (pos 0 <ℤ weight) × (500 ≤ nat_abs weight) × (nat_abs weight ≤ 3000) × (middle ≤ 2048) × (nat_abs above ≤ 2 ^ 26) }
    ensures { result ≡ rounded (colour_difference above (nat_abs weight) middle) }
{
    let step = fixed(DIFFERENCE_STEPS, STEPS * 2 * (ONE - weight));
    let sum = middle as i64 * UNIT + (UNIT / 2 + DIFFERENCE_ERROR) - above * step;
    sum >> FRACTION_BITS
}

// The codes of one triple, clipped to a range. That the words have 12 bits is asked here and below: as a type it would stand beside
// `Words`, which is the C interface's, and change what `unclipped_by` takes.
fn codes_in(y: System, n: Range, w: Words) -> Clipped
    requires { TwelveBitWords w }
    ensures { result ≡ codes_at (matrix y) (scale y) n w }
{
    let v = unclipped_in(y, w);
    let codes = Codes {
        r: clip(n, v.r),
        g: clip(n, v.g),
        b: clip(n, v.b),
    };
    Clipped {
        codes,
        clips: beyond(n, v.r).plus(beyond(n, v.g)).plus(beyond(n, v.b)),
    }
}

// R, G and B of one triple: an arm for each matrix makes its entries constants.
fn unclipped_in(y: System, w: Words) -> Unclipped
    requires { TwelveBitWords w }
    ensures { result ≡ unclipped_at (matrix y) (scale y) w }
{
    match y.matrix() {
        Matrix::Bt709 => unclipped_by(Matrix::Bt709, y, w),
        Matrix::Bt2020 => unclipped_by(Matrix::Bt2020, y, w),
    }
}

// R, G and B by the rows of a matrix.
pub fn unclipped_by(x: Matrix, y: System, w: Words) -> Unclipped
    requires { TwelveBitWords w }
    ensures { result ≡ unclipped_at x (scale y) w }
{
    let m = decoding_rows(x);
    let t = decoding_column(y, w);
    Unclipped {
        r: primary(m[0], t),
        g: primary(m[1], t),
        b: primary(m[2], t),
    }
}

// What a decoding row multiplies: (Y', cb, cr).
fn decoding_column(y: System, w: Words) -> [i64; 3]
    ensures { result ≡ decoding_column (scale y) w }
{
    let middle = y.middle();
    [w.y as i64, signed(w.cb, middle), signed(w.cr, middle)]
}

// The signed difference C - m of a Cb or Cr word.
pub fn signed(word: u16, middle: u16) -> i64
    ensures { result ≡ pos word -ℤ pos middle }
{
    word as i64 - middle as i64
}

// By (Y', cb, cr) they give Y' + q·cr·2(1 - kr), Y' - q·cb·2kb(1 - kb)/kg - q·cr·2kr(1 - kr)/kg and Y' + q·cb·2(1 - kb), the weights
// here as fractions and each entry in fixed point.
fn decoding_rows(x: Matrix) -> [[i64; 3]; 3]
    ensures { result ≡ decoding_rows x }
{
    let w = x.weights();
    let y = DIFFERENCE_STEPS * ONE;
    let cr = STEPS * 2 * (ONE - w.kr);
    let cb = STEPS * 2 * (ONE - w.kb);
    let green_cb = fixed(cb * w.kb, y * w.kg);
    let green_cr = fixed(cr * w.kr, y * w.kg);
    [
        [UNIT, 0, fixed(cr, y)],
        [UNIT, -green_cb, -green_cr],
        [UNIT, fixed(cb, y), 0],
    ]
}

// INT(row·triple / UNIT) for R, G or B; what is added beside the half makes up for what the entries are short.
fn primary(row: [i64; 3], triple: [i64; 3]) -> i64
    requires { Small row triple }
    ensures { result ≡ from_fixed (dotted row triple) }
{
    let code = dot(row, triple) + (UNIT / 2 + PRIMARY_ERROR);
    code >> FRACTION_BITS
}

// A row of a matrix by a triple. A sum over an iterator is no plainer for three products.
fn dot(row: [i64; 3], triple: [i64; 3]) -> i64
    requires { Small row triple }
    ensures { result ≡ dotted row triple }
{
    row[0] * triple[0] + row[1] * triple[1] + row[2] * triple[2]
}

// The fraction top/bottom in fixed point, rounded down. Divided twice, each time with some of the bits, since no u64 holds top by UNIT.
fn fixed(top: i64, bottom: i64) -> i64
    requires { (pos 0 <ℤ top) × (pos 0 <ℤ bottom) × (nat_abs bottom ≤ 2 ^ 34) × (nat_abs top ≤ 2 * nat_abs bottom) }
    ensures { result ≡ pos (fixed (nat_abs top) (nat_abs bottom)) }
{
    let t = top as u64 * HIGH_PART;
    let b = bottom as u64;
    (t / b * LOW_PART + t % b * LOW_PART / b) as i64
}

// Whether a number is beyond the range.
fn outside(n: Range, v: i64) -> bool
    ensures { result ≡ outside n v }
{
    (v < n.low as i64) | ((n.high as i64) < v)
}

// The nearer end of the range where a number is beyond it. `clamp` asks for low ≤ high, and this promises each range.
pub fn clip(n: Range, v: i64) -> u16
    ensures { result ≡ clipped n v }
{
    if v < n.low as i64 {
        return n.low;
    }
    if (n.high as i64) < v {
        return n.high;
    }
    v as u16
}

// The clip of a component that is beyond the range.
pub fn beyond(n: Range, v: i64) -> Clips
    ensures { (result ≡ beyond n v) × (result.low ≤ 1) × (result.high ≤ 1) }
{
    Clips {
        low: (v < n.low as i64) as u16,
        high: ((n.high as i64) < v) as u16,
    }
}
