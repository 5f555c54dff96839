// The row block, and reading it (document 01, 'Row block', and requests 2026-03 and 2026-07).
#![tactic(auto)]

mod layout;

ghost use Rattle.std.specs.Prelude.{◌≡◌, ◌++◌, ◌+◌, ◌*◌, ◌^◌, ◌<◌, ◌≤◌, leb, nat_abs, length, take, drop, set};
ghost use Rattle.std.proofs.lemmas.List.Edits.{sets};
ghost use Rattle.systems.specs.Systems.{scale, within};
ghost use Rattle.systems.specs.Refusals.{outcome};
ghost use Rattle.matrix.specs.Triples.{clipped, beyond};
ghost use Rattle.block.specs.Block.{size};
ghost use Rattle.block.specs.Read.{field_at, section_at, sections, walk, sample_at, within_to, judge, rgb, codes_to, row_of, header, header_of, slice_after};
ghost use Rattle.block.specs.Inner.{in_range, Decodable, biased, unbiased, BiasFits, biased_triple, biased_row, triples_to, Clippable, clipped_all, beyond_all, put};

pub use layout::{
    LUMA_COUNT, ROW_NUMBER, SYSTEM, cb_count, cb_word, cr_count, cr_word, luma_word, size,
};
use matrix::{Clips, Unclipped, Words, unclipped_by};
use systems::{MOST_ROWS, MOST_SAMPLES, Matrix, Range, Refusal, System};

// What a block that can be read says of its row.
#[derive(Clone, Copy)]
pub struct Judged {
    pub system: System,
    pub row: u16,
    pub samples: u16,
}

// The same of a block that was read, and the clips of its codes. Its fields stand here once more, since the claims on pictures and
// readers name them.
#[derive(Clone, Copy)]
pub struct Header {
    pub system: System,
    pub row: u16,
    pub samples: u16,
    pub clips: Clips,
}

// Rows are numbered from 0.
const LAST_ROW: u16 = MOST_ROWS - 1;

// Added to a component while it waits in the lent slice to be clipped, so that a u16 holds it also below 0.
const BIAS: u16 = 1 << 14;

// Reads a block's codes into the front of a slice. Refused: in the walk 8, 1, 10, then 8, 9, 8 at each section; then 11, 6, 5.
#[tactic(auto, using(crate::proofs::Reading::judge_refused, crate::proofs::Reading::decodable_by_test, crate::proofs::Reading::slice_stays), unfolding(crate::specs::Read::header_of))]
pub fn read_block(bytes: &[u8], codes: &mut [u16]) -> Result<Header, Refusal>
    ensures result_value { outcome result ≡ header_of bytes.now (length codes.old) }
    ensures codes_after { codes.new ≡ slice_after bytes.now codes.old }
{
    let judged = judge(bytes)?;
    if !judged.fits(codes.len()) {
        return Err(Refusal::Output);
    }
    Ok(decode(judged, bytes, codes))
}

// Judges a block by its bytes alone. Refused as in reading, but for 5.
#[tactic(auto, using(crate::proofs::Walking::walk_accepted), unfolding(crate::specs::Read::judge))]
pub fn judge(bytes: &[u8]) -> Result<Judged, Refusal>
    ensures { outcome result ≡ judge bytes.now }
{
    let judged = walk(bytes)?;
    if !all_in(judged.system.video_data(), bytes, judged.samples) {
        return Err(Refusal::Code);
    }
    Ok(judged)
}

impl Judged {
    // Whether so many places hold the codes.
    pub fn fits(self, room: usize) -> bool
        ensures { result ≡ leb (3 * self.samples) room }
    {
        3 * usize::from(self.samples) <= room
    }
}

// Walks a block from the front: system, row number and sections. Refused: 8, 1, 10, then 8, 9, 8 at each section, then 11.
#[tactic(auto, unfolding(crate::specs::Read::walk))]
pub fn walk(bytes: &[u8]) -> Result<Judged, Refusal>
    ensures { outcome result ≡ walk bytes.now }
{
    if bytes.len() < LUMA_COUNT {
        return Err(Refusal::BlockEnd);
    }
    let system = System::try_from(u32::from(bytes[SYSTEM]))?;
    let row = field_at(bytes, ROW_NUMBER);
    if LAST_ROW < row {
        return Err(Refusal::RowNumber);
    }
    let samples = sections(bytes)?;
    Ok(Judged {
        system,
        row,
        samples,
    })
}

// The count of the three sections.
#[tactic(auto, using(crate::proofs::Walking::section_said), unfolding(crate::specs::Read::sections))]
fn sections(bytes: &[u8]) -> Result<u16, Refusal>
    ensures { outcome result ≡ sections bytes.now }
{
    let any = Range {
        low: 1,
        high: MOST_SAMPLES,
    };
    let count = section_at(bytes, LUMA_COUNT, any)?;
    let same = Range {
        low: count,
        high: count,
    };
    let samples = usize::from(count);
    section_at(bytes, cb_count(samples), same)?;
    section_at(bytes, cr_count(samples), same)?;
    if bytes.len() != size(samples) {
        return Err(Refusal::BytesAfter);
    }
    Ok(count)
}

// The count of the section at a place, which the range must hold: a range of one count where it is known. A closure would be no plainer:
// it would state the same two ends.
fn section_at(bytes: &[u8], at: usize, counts: Range) -> Result<u16, Refusal>
    requires { at ≤ 7 + 4 * 65535 }
    ensures { outcome result ≡ section_at bytes.now at (within counts) }
{
    if bytes.len() < at + 2 {
        return Err(Refusal::BlockEnd);
    }
    let count = field_at(bytes, at);
    if !counts.holds(count) {
        return Err(Refusal::Count);
    }
    if bytes.len() < at + 2 + 2 * usize::from(count) {
        return Err(Refusal::BlockEnd);
    }
    Ok(count)
}

// The field at a place, low byte first.
pub fn field_at(bytes: &[u8], at: usize) -> u16
    requires { at + 1 < length bytes.now }
    ensures { result ≡ field_at bytes.now at }
{
    u16::from_le_bytes([bytes[at], bytes[at + 1]])
}

// Stores a field of two bytes, low byte first.
pub fn put_field(at: usize, field: u16, out: &mut [u8])
    requires { at + 1 < length out.old }
    ensures { out.new ≡ put at field out.old }
{
    let [low, high] = field.to_le_bytes();
    out[at] = low;
    out[at + 1] = high;
}

pub fn put_byte(at: usize, byte: u8, out: &mut [u8])
    requires { at < length out.old }
    ensures { out.new ≡ set out.old at byte }
{
    out[at] = byte;
}

// Whether the words of all three sections are in a range. That the bytes hold the samples is asked here and below: a struct that lends
// such bytes would change what `walk` gives and this takes.
#[tactic(auto, using(crate::proofs::Ranges::within_by_sections))]
pub fn all_in(range: Range, bytes: &[u8], samples: u16) -> bool
    requires { (size samples ≤ length bytes.now) × (samples ≤ 7680) }
    ensures { result ≡ within_to range (sample_at bytes.now samples) samples }
{
    let count = usize::from(samples);
    let luma = in_range(bytes, luma_word(0), count, range);
    let cb = in_range(bytes, cb_word(count, 0), count, range);
    let cr = in_range(bytes, cr_word(count, 0), count, range);
    luma & cb & cr
}

// Whether the words from a place on are in a range. Those outside are counted and no word ends the loop, so that several are tested
// at a time.
#[tactic(auto, using(crate::proofs::Ranges::range_more), unfolding(crate::specs::Inner::in_range))]
fn in_range(bytes: &[u8], at: usize, count: usize, range: Range) -> bool
    requires { (at + 2 * count ≤ length bytes.now) × (at ≤ 65536) × (count ≤ 7680) }
    ensures { result ≡ in_range range bytes.now at count }
{
    let mut bad: u16 = 0;
    for i in 0..count {
        let word = field_at(bytes, at + 2 * i);
        bad += u16::from((word < range.low) | (range.high < word));
    }
    bad == 0
}

// Decodes the samples of a judged block into the front of a slice.
#[tactic(auto, using(crate::proofs::Clipping::clipped_row, systems::proofs::Scales::scale_range))]
fn decode(judged: Judged, bytes: &[u8], codes: &mut [u16]) -> Header
    requires { Decodable bytes.now judged.samples (length codes.old) }
    ensures value { result ≡ header judged bytes.now }
    ensures codes_after { codes.new ≡ codes_to (row_of judged.system bytes.now judged.samples) judged.samples ++ drop (3 * judged.samples) codes.old }
{
    let Judged {
        system,
        row,
        samples,
    } = judged;
    let count = usize::from(samples);
    put_unclipped(system.matrix(), system, bytes, codes, count);
    let clips = clip_all(system.video_data(), codes, 3 * count);
    Header {
        system,
        row,
        samples,
        clips,
    }
}

// The samples' R, G and B before they are clipped. By the index: after `chunks_mut` a proof knows nothing of what was written.
fn put_unclipped(matrix: Matrix, system: System, bytes: &[u8], codes: &mut [u16], samples: usize)
    requires { Decodable bytes.now samples (length codes.old) }
    ensures { codes.new ≡ triples_to (biased_row matrix (scale system) (sample_at bytes.now samples)) samples ++ drop (3 * samples) codes.old }
{
    for i in 0..samples {
        let words = words_at(bytes, samples, i);
        put_triple(codes, i, unclipped_by(matrix, system, words));
    }
}

// The words of sample i.
fn words_at(bytes: &[u8], samples: usize, i: usize) -> Words
    requires { (size samples ≤ length bytes.now) × (samples ≤ 7680) × (i < samples) }
    ensures { result ≡ sample_at bytes.now samples i }
{
    Words {
        y: field_at(bytes, luma_word(i)),
        cb: field_at(bytes, cb_word(samples, i)),
        cr: field_at(bytes, cr_word(samples, i)),
    }
}

// R, G and B of sample i.
fn put_triple(codes: &mut [u16], i: usize, v: Unclipped)
    requires { (3 * i + 3 ≤ length codes.old) × (i ≤ 7680) × BiasFits v }
    ensures { codes.new ≡ sets codes.old (3 * i) (rgb (biased_triple v)) }
{
    codes[3 * i] = biased(v.r);
    codes[3 * i + 1] = biased(v.g);
    codes[3 * i + 2] = biased(v.b);
}

fn biased(v: i64) -> u16
    requires { nat_abs v ≤ 2 ^ 14 }
    ensures { result ≡ biased v }
{
    (v + i64::from(BIAS)) as u16
}

// Clips the first components of a slice, which are biased, and counts those clipped low and high. A loop of its own, so that several
// are clipped at a time, and by the index: after `iter_mut` a proof knows nothing of what was written.
fn clip_all(range: Range, codes: &mut [u16], count: usize) -> Clips
    requires { Clippable range × (count ≤ length codes.old) × (count ≤ 3 * 7680) }
    ensures value { result ≡ beyond_all range (take count codes.old) }
    ensures codes_after { codes.new ≡ clipped_all range (take count codes.old) ++ drop count codes.old }
{
    let mut clips = Clips::NONE;
    for i in 0..count {
        let v = codes[i];
        clips = clips.plus(beyond(range, v));
        codes[i] = clip(range, v);
    }
    clips
}

// The nearer end of the range where a biased component is beyond it. By `clamp` each step of the loop would be longer. That the
// range can be biased is asked of three functions here: a type of such ranges would stand beside `Range` for them alone.
fn clip(range: Range, v: u16) -> u16
    requires { Clippable range }
    ensures { result ≡ clipped range (unbiased v) }
{
    v.max(range.low + BIAS).min(range.high + BIAS) - BIAS
}

// The clip of a biased component that is beyond the range. Both tests are made, so that a loop can take several components at a time.
fn beyond(range: Range, v: u16) -> Clips
    requires { Clippable range }
    ensures { (result ≡ beyond range (unbiased v)) × (result.low ≤ 1) × (result.high ≤ 1) }
{
    Clips {
        low: u16::from(v < range.low + BIAS),
        high: u16::from(range.high + BIAS < v),
    }
}
