// Clipping low and high over the 64 latest rows read (request 2026-08). proofs/Claims.antt says what holds of every list of reads.
#![tactic(auto)]

ghost use Rattle.std.specs.Prelude.{◌≡◌, true, ◌+◌, ◌≤◌, ◌<◌, min, length, set, sum, take};
ghost use Rattle.systems.specs.Refusals.{outcome};
ghost use Rattle.block.specs.Read.{header_of, slice_after};
ghost use Rattle.meter.specs.Meter.{empty, in_turn, whole, kept, entered, metering, figures};

use block::{Header, read_block};
use matrix::Clips;
use systems::Refusal;

// The rows that a meter holds at most.
const MOST_HELD: u32 = 64;

// A count of each of them, at the row's place.
type Counts = [u16; MOST_HELD as usize];

// The counts of the latest rows and their sums, where the counts of the next row go, and how many rows there are. The sums are kept,
// so that a read costs the same however many rows came before. In this order of the fields a meter is copied without a call of memcpy.
// The C interface has the fields one by one, and may hand in anything: that they agree is tested by `is_whole`, and no invariant.
#[repr(C)]
#[derive(Clone, Copy)]
pub struct Meter {
    lows: Counts,
    low: u32,
    highs: Counts,
    high: u32,
    place: u32,
    rows: u32,
}

// The sums over the rows that a meter holds, and how many rows these are.
#[repr(C)]
#[derive(Clone, Copy, PartialEq, Eq)]
pub struct Figures {
    pub rows: u32,
    pub low: u32,
    pub high: u32,
}

// What reading the block gives, and the meter after it.
#[derive(Clone, Copy)]
pub struct MeteredRead {
    pub read: Result<Header, Refusal>,
    pub meter: Meter,
}

impl Meter {
    pub fn new() -> Meter
        ensures { result ≡ empty }
    {
        Meter {
            lows: [0; MOST_HELD as usize],
            low: 0,
            highs: [0; MOST_HELD as usize],
            high: 0,
            place: 0,
            rows: 0,
        }
    }

    // Reads a block as read_block does, with its refusals, and enters the row where it is accepted.
    pub fn read(self, bytes: &[u8], codes: &mut [u16]) -> MeteredRead
        ensures read_value { outcome result.read ≡ header_of bytes.now (length codes.old) }
        ensures codes_after { codes.new ≡ slice_after bytes.now codes.old }
        ensures meter_value { result.meter ≡ metering self (header_of bytes.now (length codes.old)) }
    {
        let read = read_block(bytes, codes);
        let meter = match read {
            Ok(header) => self.with_row(header.clips),
            Err(_) => self,
        };
        MeteredRead { read, meter }
    }

    // The meter after a reading that was accepted with these clips. Whoever has read a block by itself enters its row so.
    #[tactic(auto, using(crate::proofs::Turns::kept_whole))]
    pub fn with_row(self, clips: Clips) -> Meter
        ensures { result ≡ entered (kept self) clips }
    {
        self.kept().entered(clips)
    }

    pub fn figures(self) -> Figures
        ensures { result ≡ figures self }
    {
        let kept = self.kept();
        Figures {
            rows: kept.rows,
            low: kept.low,
            high: kept.high,
        }
    }

    // The meter itself where its parts agree, else one that holds no row: a caller in C may have kept anything.
    fn kept(self) -> Meter
        ensures { result ≡ kept self }
    {
        if self.is_whole() {
            return self;
        }
        Meter {
            low: 0,
            high: 0,
            place: 0,
            rows: 0,
            ..self
        }
    }

    #[tactic(auto, using(crate::proofs::Turns::in_turn_lem, crate::proofs::Turns::at_most_64), unfolding(crate::specs::Meter::whole))]
    fn is_whole(self) -> bool
        ensures { result ≡ whole self }
    {
        if !in_turn(self.place, self.rows) {
            return false;
        }
        let rows = self.rows as usize;
        (self.low == total(&self.lows[..rows])) & (self.high == total(&self.highs[..rows]))
    }

    // One row more; where there are 64, the oldest goes.
    #[tactic(auto, using(crate::proofs::Turns::place_below, crate::proofs::Turns::rows_most, crate::proofs::Turns::whole_turn, crate::proofs::Turns::whole_low, crate::proofs::Turns::whole_high))]
    fn entered(self, clips: Clips) -> Meter
        requires { whole self ≡ true }
        ensures { result ≡ entered self clips }
    {
        Meter {
            lows: replaced(self.lows, self.place, clips.low),
            low: moving_sum(self.low, self.lows, self.place, self.rows, clips.low),
            highs: replaced(self.highs, self.place, clips.high),
            high: moving_sum(self.high, self.highs, self.place, self.rows, clips.high),
            place: (self.place + 1) % MOST_HELD,
            rows: MOST_HELD.min(self.rows + 1),
        }
    }
}

// Whether so many rows and the place of the next one go together.
fn in_turn(place: u32, rows: u32) -> bool
    ensures { result ≡ in_turn place rows }
{
    (place < MOST_HELD) & ((rows == place) | (rows == MOST_HELD))
}

// The sum of counts.
fn total(counts: &[u16]) -> u32
    requires { length counts.now ≤ 64 }
    ensures { result ≡ sum counts.now }
{
    counts.iter().map(|count| u32::from(*count)).sum()
}

fn replaced(counts: Counts, place: u32, count: u16) -> Counts
    requires { place < 64 }
    ensures { result ≡ set counts place count }
{
    let mut next = counts;
    next[place as usize] = count;
    next
}

// The sum over the rows after one more: its count enters, and that of the row that goes leaves.
#[tactic(auto, using(crate::proofs::Turns::sum_grows, crate::proofs::Turns::sum_moves))]
fn moving_sum(before: u32, counts: Counts, place: u32, rows: u32, count: u16) -> u32
    requires is_sum { before ≡ sum (take rows counts) }
    requires in_turn { in_turn place rows ≡ true }
    ensures { result ≡ sum (take (min 64 (rows + 1)) (set counts place count)) }
{
    let longer = before + u32::from(count);
    if rows < MOST_HELD {
        return longer;
    }
    longer - u32::from(counts[place as usize])
}
