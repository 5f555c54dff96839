// A block at the other depth of its Recommendation (request 2026-09): 8 and 10 bits of BT.709, 10 and 12 bits of BT.2020.
#![tactic(auto)]

ghost use Rattle.std.specs.Prelude.{◌≡◌, ◌+◌, ◌*◌, ◌<◌, ◌≤◌, length, cond};
ghost use Rattle.systems.specs.Refusals.{refusal, outcome};
ghost use Rattle.block.specs.Block.{size, fields, section};
ghost use Rattle.block.specs.Read.{words_ok};
ghost use Rattle.block.specs.Inner.{Decodable};
ghost use Rattle.depth.specs.Depth.{other_depth, judge_for, block_in, changing, over, buffer_after, heard};
ghost use Rattle.depth.specs.Inner.{way_to, word_by, passing, words_by, Movable, over_at};

use block::{
    Judged, LUMA_COUNT, ROW_NUMBER, SYSTEM, all_in, cb_count, cr_count, field_at, put_byte,
    put_field, size, walk,
};
use systems::{Range, Refusal, System};

// To the greater depth, or to the lesser.
#[derive(Clone, Copy)]
enum Way {
    Up,
    Down,
}

// The block in the target's depth to the front of `out`; later bytes stay. Refused: 1; then as in reading, up to 6; then 32, 33, 5.
#[tactic(auto, unfolding(crate::specs::Depth::changing))]
pub fn change_depth(target: u32, bytes: &[u8], out: &mut [u8]) -> Result<(), Refusal>
    ensures result_value { outcome result ≡ heard (changing target bytes.now (length out.old)) }
    ensures out_after { out.new ≡ buffer_after target bytes.now out.old }
{
    let to = System::try_from(target)?;
    let b = judge_for(to, bytes)?;
    if out.len() < size(usize::from(b.samples)) {
        return Err(Refusal::Output);
    }
    write(to, b, bytes, out);
    Ok(())
}

// Judges a block for a target. Its words are gone through once where it is accepted: those that pass are video data.
#[tactic(auto, using(crate::proofs::Passing::walked_long), unfolding(crate::specs::Depth::judge_for, block::specs::Read::judge))]
fn judge_for(to: System, bytes: &[u8]) -> Result<Judged, Refusal>
    ensures { outcome result ≡ judge_for to bytes.now }
{
    let b = walk(bytes)?;
    let from = b.system;
    if !other_depth(from, to) {
        return Err(refused_with(b, bytes, Refusal::Target));
    }
    if !all_in(way_to(from, to).passing(from), bytes, b.samples) {
        return Err(refused_with(b, bytes, Refusal::Timing));
    }
    Ok(b)
}

// What a block that was walked is refused with: 6 where a word is outside video data, else another number.
fn refused_with(b: Judged, bytes: &[u8], otherwise: Refusal) -> Refusal
    requires { (size b.samples ≤ length bytes.now) × (b.samples ≤ 7680) }
    ensures { refusal result ≡ cond (words_ok b bytes.now) (refusal otherwise) 6 }
{
    if all_in(b.system.video_data(), bytes, b.samples) {
        otherwise
    } else {
        Refusal::Code
    }
}

fn other_depth(from: System, to: System) -> bool
    ensures { result ≡ other_depth from to }
{
    from != to && from.matrix() == to.matrix()
}

fn way_to(from: System, to: System) -> Way
    ensures { result ≡ way_to from to }
{
    if from.depth().bits() < to.depth().bits() {
        Way::Up
    } else {
        Way::Down
    }
}

impl Way {
    // The words of a system that give none of the timing codes.
    fn passing(self, from: System) -> Range
        ensures { result ≡ passing self from }
    {
        let all = from.video_data();
        match self {
            Way::Up => all,
            // Halves go up, so that the two greatest words would become 255s.
            Way::Down => Range {
                low: all.low,
                high: all.high - 2,
            },
        }
    }

    #[tactic(auto, using(crate::proofs::Words::quarter))]
    fn word(self, w: u16) -> u16
        requires { w < 4096 }
        ensures { result ≡ word_by self w }
    {
        match self {
            Way::Up => 4 * w,
            Way::Down => (w + 2) / 4,
        }
    }
}

// The block from front to back. Its fields stand where those of the given one do.
fn write(to: System, b: Judged, bytes: &[u8], out: &mut [u8])
    requires { Decodable bytes.now b.samples (3 * b.samples) × (size b.samples ≤ length out.old) }
    ensures { out.new ≡ over (block_in to b bytes.now) out.old }
{
    let n = usize::from(b.samples);
    let from = b.system;
    let way = way_to(from, to);
    put_byte(SYSTEM, to.number() as u8, out);
    put_field(ROW_NUMBER, b.row, out);
    put_section(way, bytes, LUMA_COUNT, b.samples, out);
    put_section(way, bytes, cb_count(n), b.samples, out);
    put_section(way, bytes, cr_count(n), b.samples, out);
}

// The section at a place: its count, and its words.
fn put_section(way: Way, bytes: &[u8], at: usize, samples: u16, out: &mut [u8])
    requires { Movable bytes.now (at + 2) samples (length out.old) }
    ensures { out.new ≡ over_at at (section (words_by way bytes.now (at + 2) samples)) out.old }
{
    put_field(at, samples, out);
    put_words(way, bytes, at + 2, usize::from(samples), out);
}

// Words from a place on go to the same place of `out`, several at a time.
fn put_words(way: Way, bytes: &[u8], at: usize, count: usize, out: &mut [u8])
    requires { Movable bytes.now at count (length out.old) }
    ensures { out.new ≡ over_at at (fields (words_by way bytes.now at count)) out.old }
{
    for i in 0..count {
        let place = at + 2 * i;
        put_field(place, way.word(field_at(bytes, place)), out);
    }
}
