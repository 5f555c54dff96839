// A read of the lists: what it is given, and what it has to give.
ghost use Rattle.std.specs.Prelude.{◌≡◌, ◌+◌, ◌≤◌, length};
ghost use Rattle.systems.specs.Refusals.{outcome};
ghost use Rattle.check_meters.specs.Reads.{read_at, met, made_into, made_of, made};

use block::Header;
use check_answers::{Due, Part, agrees};
use check_records::{u16_at, u32_at};
use meter::{Figures, Meter};
use systems::Refusal;

// The bytes of a record.
pub const SIZE: usize = 32;

// One record. The figures are those after the read. The answer is a number of the data's, which our refusals' numbers are
// compared with, and a refused read has a header beside it, as `agrees` takes them.
#[derive(Clone, Copy)]
pub struct Read {
    begins: bool,
    block: Part,
    pub answer: u32,
    due: Due,
    figures: Figures,
}

impl Read {
    pub fn at(reads: &[u8], at: usize) -> Read
        requires { at + 32 ≤ length reads.now }
        ensures { result ≡ read_at reads.now at }
    {
        Read {
            begins: u16_at(reads, at) == 1,
            block: Part {
                places: u16_at(reads, at + 2),
                start: u32_at(reads, at + 4),
                length: u16_at(reads, at + 8),
            },
            answer: u32::from(u16_at(reads, at + 10)),
            due: Due::at(reads, at + 12),
            figures: Figures {
                rows: u32::from(u16_at(reads, at + 22)),
                low: u32_at(reads, at + 24),
                high: u32_at(reads, at + 28),
            },
        }
    }

    // Makes the read with the meter that the read before left, and answers whether it gave what it has to give. One whose block is not
    // there differs, and leaves the meter.
    pub fn made(self, meter: &mut Meter, blocks: &[u8]) -> bool
        ensures met { result ≡ (made self meter.old blocks.now).met }
        ensures meter_after { meter.new ≡ (made self meter.old blocks.now).meter }
    {
        if self.begins {
            *meter = Meter::new();
        }
        let Some(block) = self.block.of(blocks) else {
            return false;
        };
        self.made_of(meter, block)
    }

    // Reads the block into two equal slices. They have room for any number of places, and no system has the code that they hold.
    fn made_of(self, meter: &mut Meter, block: &[u8]) -> bool
        ensures met { result ≡ (made_of self meter.old block.now).met }
        ensures meter_after { meter.new ≡ (made_of self meter.old block.now).meter }
    {
        // Arrays and no Vec: a Vec would make each function above answer for memory.
        let mut lent = [40000; 65536];
        let mut other = [40000; 65536];
        let places = self.block.places as usize;
        self.made_into(meter, block, &mut lent[..places], &mut other[..places])
    }

    // Reads the block with the meter, and without one into another slice, which has to be left alike.
    fn made_into(self, meter: &mut Meter, block: &[u8], lent: &mut [u16], other: &mut [u16]) -> bool
        requires { length lent.old ≡ length other.old }
        ensures met { result ≡ (made_into self meter.old block.now lent.old other.old).met }
        ensures meter_after { meter.new ≡ (made_into self meter.old block.now lent.old other.old).meter }
    {
        let metered = meter.read(block, lent);
        *meter = metered.meter;
        let _ = block::read_block(block, other);
        self.is_met(metered.read, metered.meter) & (*lent == *other)
    }

    // Whether the answer and the figures of the meter after it are the ones that are due.
    fn is_met(self, answer: Result<Header, Refusal>, after: Meter) -> bool
        ensures { result ≡ met self (outcome answer) after }
    {
        agrees(answer, self.answer, self.due) & (after.figures() == self.figures)
    }
}
