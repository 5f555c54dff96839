// The lists of the file 'reads'.
ghost use Rattle.std.specs.Prelude.{◌≡◌};
ghost use Rattle.check_meters.specs.Reads.{after_read, ReadsCompared};

use crate::read::{Read, SIZE};
use check_records::Tally;
use meter::Meter;

// The meter that the reads so far left, and their tally. A type and a loop of its own beside check_readers': another state and
// another call.
#[derive(Clone, Copy)]
struct Play {
    meter: Meter,
    tally: Tally,
}

// Makes the reads in order, each with the meter that the one before left, and compares those in which the answer of this number,
// one of the data's, is due. A read that is cut off differs.
pub fn compare(reads: &[u8], blocks: &[u8], number: u32) -> Tally
    ensures { ReadsCompared reads.now blocks.now number result }
{
    let mut play = Play {
        meter: Meter::new(),
        tally: Tally::NONE,
    };
    for i in 0..reads.len() / SIZE {
        play = play.with(Read::at(reads, SIZE * i), blocks, number);
    }
    play.tally.ended(reads.len() % SIZE)
}

impl Play {
    // One read more. It counts where the answer in question is due.
    fn with(self, read: Read, blocks: &[u8], number: u32) -> Play
        ensures { result ≡ after_read read blocks.now number self }
    {
        let mut meter = self.meter;
        let met = read.made(&mut meter, blocks);
        let tally = if read.answer == number {
            self.tally.with(met)
        } else {
            self.tally
        };
        Play { meter, tally }
    }
}
