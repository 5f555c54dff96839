// The lists of the file 'calls'.
ghost use Rattle.std.specs.Prelude.{◌≡◌, ◌≤◌, length};
ghost use Rattle.check_pictures.specs.Calls.{block_length, rows_of, expected, answered, met, begun, after_call, CallsCompared};

use crate::call::Call;
use crate::kind::Kind;
use crate::reading;
use check_answers::number_of;
use check_records::{Tally, begin_alike};
use picture::{Phase, Picture};

// The calls that a line counts: those of a kind in which this answer is due, a number of the data's, which our refusals' numbers are
// compared with.
#[derive(Clone, Copy)]
pub struct Counted {
    pub kind: Kind,
    pub answer: u32,
}

// What the calls so far left: the picture, the lent buffer, what that buffer has to hold, and the tally.
// An array and no Vec: a Vec would make each function above answer for memory.
#[derive(Drop)]
struct Play {
    picture: Picture,
    lent: [u8; 46100],
    due: [u8; 46100],
    tally: Tally,
}

// Makes the calls in order, each with the picture and the buffer as the call before left them. A call that is cut off differs.
pub fn compare(calls: &[u8], lights: &[u16], counted: Counted) -> Tally
    ensures { CallsCompared calls.now lights.now counted begun result }
{
    let mut play = Play {
        picture: Picture::new(),
        lent: [171; 46100],
        due: [171; 46100],
        tally: Tally::NONE,
    };
    let mut at = 0;
    // No `for`: each call is as long as its own numbers say.
    while let Some(call) = Call::at(calls, at) {
        let size = call.size();
        play.make(call, &calls[at + 30..at + size], lights, counted);
        at += size;
    }
    play.tally.ended(calls.len() - at)
}

impl Play {
    // One call more. The bytes behind its numbers are the block and the codes that are due. A refused picture stays.
    fn make(&mut self, call: Call, bytes: &[u8], lights: &[u16], counted: Counted)
        requires { block_length call ≤ length bytes.now }
        ensures { self.new ≡ after_call call bytes.now lights.now counted self.old }
    {
        let answer = call.made(self.picture, lights, &mut self.lent);
        let number = number_of(&answer);
        self.picture = answer.unwrap_or(self.picture);
        let (block, codes) = bytes.split_at(call.block_length());
        expect_block(block, &mut self.due);
        if !call.is_of(counted) {
            return;
        }
        let met = self.is_met(call, number, codes);
        self.tally = self.tally.with(met);
    }

    // Whether the answer, the picture after it, the buffer and the reading are the ones that are due.
    fn is_met(&self, call: Call, number: u32, codes: &[u8]) -> bool
        ensures { result ≡ met call number self.now.picture self.now.lent self.now.due codes.now }
    {
        is_answered(call, number, self.picture)
            & begin_alike(&self.lent, &self.due, call.room())
            & reading::is_met(call, &self.lent, codes)
    }
}

// Puts the block that is due to the front of what the buffer has to hold.
fn expect_block(block: &[u8], due: &mut [u8])
    ensures { due.new ≡ expected block.now due.old }
{
    if block.len() <= due.len() {
        due[..block.len()].copy_from_slice(block);
    }
}

// Whether the answer, and the rows accepted and the bytes of the picture after it are the book's.
fn is_answered(call: Call, number: u32, picture: Picture) -> bool
    ensures { result ≡ answered call number picture }
{
    (number == call.answer) & (rows_of(picture) == call.rows) & (picture.bytes() == call.bytes)
}

fn rows_of(picture: Picture) -> u16
    ensures { result ≡ rows_of picture.phase }
{
    match picture.phase() {
        Phase::Open(opened) => opened.rows,
        Phase::Fresh | Phase::Closed => 0,
    }
}
