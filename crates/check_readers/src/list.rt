// The lists of the file 'calls'.
ghost use Rattle.std.specs.Prelude.{◌≡◌};
ghost use Rattle.check_readers.specs.Calls.{after_call, CallsCompared};

use crate::call::{Call, SIZE};
use check_records::Tally;
use reader::Reader;

// The reader that the calls so far left, and their tally. A type and a loop of its own beside check_meters': another state and
// another call.
#[derive(Clone, Copy)]
struct Play {
    reader: Reader,
    tally: Tally,
}

// Makes the calls in order, each with the reader that the one before left, and compares those in which the answer of this number,
// one of the data's, is due. A call that is cut off differs.
pub fn compare(calls: &[u8], blocks: &[u8], number: u32) -> Tally
    ensures { CallsCompared calls.now blocks.now number result }
{
    let mut play = Play {
        reader: Reader::new(),
        tally: Tally::NONE,
    };
    for i in 0..calls.len() / SIZE {
        play = play.with(Call::at(calls, SIZE * i), blocks, number);
    }
    play.tally.ended(calls.len() % SIZE)
}

impl Play {
    // One call more. It counts where the answer in question is due.
    fn with(self, call: Call, blocks: &[u8], number: u32) -> Play
        ensures { result ≡ after_call call blocks.now number self }
    {
        let mut reader = self.reader;
        let met = call.made(&mut reader, blocks);
        let tally = if call.answer == number {
            self.tally.with(met)
        } else {
            self.tally
        };
        Play { reader, tally }
    }
}
