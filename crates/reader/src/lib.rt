// A picture read from its blocks (request 2026-10): in order, of one system and one width. proofs/Claims.antt says what holds of
// every list of these calls, and of a picture that was written and is read here.
#![tactic(auto)]

ghost use Rattle.std.specs.Prelude.{◌≡◌, ◌≤◌, length};
ghost use Rattle.exact.specs.Outcome.{accepted, refused};
ghost use Rattle.systems.specs.Refusals.{refusal, outcome};
ghost use Rattle.block.specs.Read.{walk, header_of};
ghost use Rattle.reader.specs.declared.Phase.TheVariants.{Unopened};
ghost use Rattle.reader.specs.Reader.{at, after, in_turn, opening, taking, slice_after, known, proper, resumed};
ghost use Rattle.reader.specs.Inner.{before_turn, turn_of};

use block::{Header, Judged, all_in, read_block, walk};
use picture::is_size;
use systems::{MOST_ROWS, MOST_SAMPLES, Refusal, System};

// The system and width of a picture's rows.
#[derive(Clone, Copy, PartialEq, Eq)]
pub struct Format {
    pub system: System,
    pub width: u16,
}

// What a reader was opened with, the number of the next row, and the format, from the first accepted one on.
#[derive(Clone, Copy)]
pub struct Progress {
    pub height: u16,
    pub next: u16,
    pub format: Option<Format>,
}

#[derive(Clone, Copy)]
pub enum Phase {
    Unopened,
    Reading(Progress),
    Complete,
}

#[derive(Clone, Copy)]
pub struct Reader {
    phase: Phase,
}

// What reading the block gives, and the reader after it.
#[derive(Clone, Copy)]
pub struct Taken {
    pub header: Header,
    pub reader: Reader,
}

impl Reader {
    pub fn new() -> Reader
        ensures { result ≡ at Unopened }
    {
        Reader {
            phase: Phase::Unopened,
        }
    }

    // The reader at a phase that a caller kept; one that no call makes is taken as not opened.
    pub fn resume(phase: Phase) -> Reader
        ensures { result ≡ at (resumed phase) }
    {
        match phase {
            Phase::Reading(p) if !p.is_proper() => Reader::new(),
            _ => Reader { phase },
        }
    }

    pub fn phase(self) -> Phase
        ensures { result ≡ self.phase }
    {
        self.phase
    }

    // Starts anew at row 0, in any phase. Refused: 3.
    pub fn open(self, height: u32) -> Result<Reader, Refusal>
        ensures { outcome result ≡ opening self height }
    {
        if !is_size(height, MOST_ROWS) {
            return Err(Refusal::Height);
        }
        Ok(Reader {
            phase: Phase::Reading(Progress {
                height: height as u16,
                next: 0,
                format: None,
            }),
        })
    }

    // Reads a block as read_block does, where it is the next row. Refused: 36; then as in reading, with 5; then 34, 35.
    #[tactic(auto, using(crate::proofs::Turns::row_read, crate::proofs::Turns::next_row, crate::proofs::Turns::no_turn))]
    pub fn read(self, bytes: &[u8], codes: &mut [u16]) -> Result<Taken, Refusal>
        ensures result_value { outcome result ≡ taking self bytes.now (length codes.old) }
        ensures codes_after { codes.new ≡ slice_after self bytes.now codes.old }
    {
        let reader = self.turn(bytes, codes.len())?;
        let header = read_block(bytes, codes)?;
        Ok(Taken { header, reader })
    }

    // The reader after a block, if reading accepts it into so many places. Whoever reads the block by itself asks this before. Refused
    // is what read refuses; only the words and the room of the next row are not tested yet.
    #[tactic(auto, using(block::proofs::Walking::walk_accepted), unfolding(crate::specs::Inner::turn_from))]
    pub fn turn(self, bytes: &[u8], room: usize) -> Result<Reader, Refusal>
        ensures { outcome result ≡ turn_of self bytes.now room }
    {
        let Phase::Reading(p) = self.phase else {
            return Err(Refusal::NotReading);
        };
        let b = walk(bytes)?;
        p.in_turn(b)
            .map_err(|turn| before_turn(b, bytes, room, turn))
    }
}

impl Progress {
    // Whether calls can make it.
    #[tactic(auto, unfolding(crate::specs::Reader::proper))]
    fn is_proper(self) -> bool
        ensures { result ≡ proper self }
    {
        is_size(u32::from(self.height), MOST_ROWS)
            && self.next < self.height
            && is_known(self.format, self.next)
    }

    // The reader after a row, where it is the next one and like the first.
    #[tactic(auto, unfolding(crate::specs::Reader::in_turn))]
    fn in_turn(self, b: Judged) -> Result<Reader, Refusal>
        requires { b.row ≤ 4319 }
        ensures { outcome result ≡ in_turn self b.system b.row b.samples }
    {
        if b.row != self.next {
            return Err(Refusal::Turn);
        }
        let format = Format {
            system: b.system,
            width: b.samples,
        };
        if self.format.is_some_and(|first| first != format) {
            return Err(Refusal::Unlike);
        }
        Ok(Reader {
            phase: self.after(format),
        })
    }

    // The phase after the next row.
    fn after(self, format: Format) -> Phase
        requires { self.next ≤ 4319 }
        ensures { result ≡ after self format.system format.width }
    {
        let next = self.next + 1;
        if next == self.height {
            return Phase::Complete;
        }
        Phase::Reading(Progress {
            next,
            format: Some(format),
            ..self
        })
    }
}

// The words and the room of a walked block are tested before its turn refuses it.
#[tactic(auto, using(block::proofs::Walking::walk_accepted), unfolding(block::specs::Read::header_of, block::specs::Read::judge))]
fn before_turn(b: Judged, bytes: &[u8], room: usize, turn: Refusal) -> Refusal
    requires { walk bytes.now ≡ accepted b }
    ensures { refused (refusal result) ≡ before_turn (header_of bytes.now room) (refusal turn) }
{
    if !all_in(b.system.video_data(), bytes, b.samples) {
        return Refusal::Code;
    }
    if b.fits(room) { turn } else { Refusal::Output }
}

// Whether so many rows leave the format so.
fn is_known(format: Option<Format>, next: u16) -> bool
    ensures { result ≡ known format next }
{
    match format {
        None => next == 0,
        Some(f) => 1 <= next && is_size(u32::from(f.width), MOST_SAMPLES),
    }
}
