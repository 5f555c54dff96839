// The row block of a row of lights (document 01, 'Picture'), made in one pass: each light is looked up once.
#![tactic(auto)]

ghost use Rattle.std.specs.Prelude.{◌≡◌, ◌++◌, ◌+◌, ◌*◌, ◌<◌, ◌≤◌, length, drop};
ghost use Rattle.systems.specs.Systems.{number, bits};
ghost use Rattle.matrix.specs.Inner.{narrow};
ghost use Rattle.block.specs.Block.{size};
ghost use Rattle.row.specs.Row.{sample_codes, sample_words, row_block};
ghost use Rattle.row.specs.Inner.{RowFits, headed, worded, stored};

use block::{
    LUMA_COUNT, ROW_NUMBER, SYSTEM, cb_count, cb_word, cr_count, cr_word, luma_word, put_byte,
    put_field,
};
use curve::{Thresholds, code_by};
use matrix::{WideCodes, Words, words_in};
use systems::{Depth, System};
use thresholds_8::Bits8;
use thresholds_10::Bits10;
use thresholds_12::Bits12;

// One row block to the front of `out`; later bytes stay.
#[tactic(auto, using(crate::proofs::Written::row_written))]
pub fn write_row(y: System, row: u16, width: u16, lights: &[u16], out: &mut [u8])
    requires { (length lights.now ≡ 3 * width) × (size width ≤ length out.old) }
    ensures { out.new ≡ row_block y row width lights.now ++ drop (size width) out.old }
{
    put_head(y, row, width, out);
    match y.depth() {
        Depth::Bits8 => put_samples::<Bits8>(y, width, lights, out),
        Depth::Bits10 => put_samples::<Bits10>(y, width, lights, out),
        Depth::Bits12 => put_samples::<Bits12>(y, width, lights, out),
    }
}

// Every sample of the row.
#[tactic(auto, unfolding(crate::specs::Inner::stored))]
fn put_samples<T: Thresholds>(y: System, width: u16, lights: &[u16], out: &mut [u8])
    requires { (bits y ≡ T.bits) × RowFits width lights.now out.old }
    ensures { out.new ≡ stored (sample_words y lights.now) width out.old width }
{
    let n = width as usize;
    for i in 0..n {
        put_sample::<T>(y, n, i, lights, out);
    }
}

// The words of sample i.
#[tactic(auto, using(crate::proofs::Samples::lights_nominal), unfolding(crate::specs::Row::sample_words))]
fn put_sample<T: Thresholds>(y: System, width: usize, i: usize, lights: &[u16], out: &mut [u8])
    requires { (bits y ≡ T.bits) × (i < width) × (width < 65536) × RowFits width lights.now out.old }
    ensures { out.new ≡ worded width i (sample_words y lights.now i) out.old }
{
    let c = sample_codes::<T>(y, i, lights);
    put_words(width, i, words_in(y, c), out);
}

// The codes of sample i's three lights.
fn sample_codes<T: Thresholds>(y: System, i: usize, lights: &[u16]) -> WideCodes
    requires { (bits y ≡ T.bits) × (3 * i + 2 < length lights.now) × (i < 65536) }
    ensures { narrow result ≡ sample_codes y lights.now i }
{
    let r = code_by::<T>(y, lights[3 * i]);
    let g = code_by::<T>(y, lights[3 * i + 1]);
    let b = code_by::<T>(y, lights[3 * i + 2]);
    WideCodes { r, g, b }
}

// The system, the row number and the three counts.
#[tactic(auto, unfolding(crate::specs::Inner::headed))]
fn put_head(y: System, row: u16, width: u16, out: &mut [u8])
    requires { size width ≤ length out.old }
    ensures { out.new ≡ headed (number y) row width out.old }
{
    let n = width as usize;
    put_byte(SYSTEM, y.number() as u8, out);
    put_field(ROW_NUMBER, row, out);
    put_field(LUMA_COUNT, width, out);
    put_field(cb_count(n), width, out);
    put_field(cr_count(n), width, out);
}

// The words of sample i, one in each section.
#[tactic(auto, unfolding(crate::specs::Inner::worded))]
fn put_words(width: usize, i: usize, words: Words, out: &mut [u8])
    requires { (i < width) × (width < 65536) × (size width ≤ length out.old) }
    ensures { out.new ≡ worded width i words out.old }
{
    put_field(luma_word(i), words.y, out);
    put_field(cb_word(width, i), words.cb, out);
    put_field(cr_word(width, i), words.cr, out);
}
