// A call of the lists: what it is given, and what it has to give.
ghost use Rattle.std.specs.Prelude.{◌≡◌, ◌+◌, ◌≤◌, length};
ghost use Rattle.systems.specs.Refusals.{outcome};
ghost use Rattle.check_readers.specs.Calls.{given_at, call_at, is_left, opened, answered, taken_as, slice_due, read_into, read_of, read, made};

use crate::left::Left;
use check_answers::{Due, Part, agrees, number_of};
use check_records::{u16_at, u32_at};
use reader::{Reader, Taken};
use systems::Refusal;

// The bytes of a record.
pub const SIZE: usize = 32;

// What a call is given: the height to open the reader with, or a block to read.
#[derive(Clone, Copy)]
pub enum Given {
    Height(u32),
    Block(Part),
}

// One record. The answer is a number of the data's, which our refusals' numbers are compared with, and a refused call has a
// header beside it, as `agrees` takes them. left is how the call leaves the reader.
#[derive(Clone, Copy)]
pub struct Call {
    begins: bool,
    given: Given,
    pub answer: u32,
    due: Due,
    left: Option<Left>,
}

impl Given {
    // The kind 0 is an opening, any other reads a block.
    fn at(calls: &[u8], at: usize) -> Given
        requires { at + 14 ≤ length calls.now }
        ensures { result ≡ given_at calls.now at }
    {
        match u16_at(calls, at) {
            0 => Given::Height(u32_at(calls, at + 2)),
            _ => Given::Block(Part {
                start: u32_at(calls, at + 6),
                length: u16_at(calls, at + 10),
                places: u16_at(calls, at + 12),
            }),
        }
    }
}

impl Call {
    pub fn at(calls: &[u8], at: usize) -> Call
        requires { at + 32 ≤ length calls.now }
        ensures { result ≡ call_at calls.now at }
    {
        Call {
            begins: u16_at(calls, at) == 1,
            given: Given::at(calls, at + 2),
            answer: u32::from(u16_at(calls, at + 16)),
            due: Due::at(calls, at + 18),
            left: Left::of(u16_at(calls, at + 28), u16_at(calls, at + 30)),
        }
    }

    // Makes the call with the reader that the call before left, and answers whether it gave what it has to give.
    pub fn made(self, reader: &mut Reader, blocks: &[u8]) -> bool
        ensures met { result ≡ (made self reader.old blocks.now).met }
        ensures reader_after { reader.new ≡ (made self reader.old blocks.now).reader }
    {
        if self.begins {
            *reader = Reader::new();
        }
        let answered = self.answered(reader, blocks);
        answered & self.is_left(*reader)
    }

    fn answered(self, reader: &mut Reader, blocks: &[u8]) -> bool
        ensures met { result ≡ (answered self reader.old blocks.now).met }
        ensures reader_after { reader.new ≡ (answered self reader.old blocks.now).reader }
    {
        match self.given {
            Given::Height(height) => self.opened(height, reader),
            Given::Block(block) => self.read(block, reader, blocks),
        }
    }

    // Judged by its refusal. A refused reader stays.
    fn opened(self, height: u32, reader: &mut Reader) -> bool
        ensures met { result ≡ (opened self height reader.old).met }
        ensures reader_after { reader.new ≡ (opened self height reader.old).reader }
    {
        let answer = reader.open(height);
        let number = number_of(&answer);
        *reader = answer.unwrap_or(*reader);
        number == self.answer
    }

    // Reads the block. A call whose block is not there differs, and leaves the reader.
    fn read(self, block: Part, reader: &mut Reader, blocks: &[u8]) -> bool
        ensures met { result ≡ (read self block reader.old blocks.now).met }
        ensures reader_after { reader.new ≡ (read self block reader.old blocks.now).reader }
    {
        let Some(bytes) = block.of(blocks) else {
            return false;
        };
        self.read_of(block.places, reader, bytes)
    }

    // Lends two equal slices. They have room for any number of places, and no system has the code that they hold.
    fn read_of(self, places: u16, reader: &mut Reader, bytes: &[u8]) -> bool
        ensures met { result ≡ (read_of self places reader.old bytes.now).met }
        ensures reader_after { reader.new ≡ (read_of self places reader.old bytes.now).reader }
    {
        // Arrays and no Vec: a Vec would make each function above answer for memory.
        let mut lent = [40000; 65536];
        let mut due = [40000; 65536];
        let places = places as usize;
        self.read_into(reader, bytes, &mut lent[..places], &mut due[..places])
    }

    // Reads the block with the reader into a slice, which has to be left as the other one is due to be.
    fn read_into(self, reader: &mut Reader, bytes: &[u8], lent: &mut [u16], due: &mut [u16]) -> bool
        ensures met { result ≡ (read_into self reader.old bytes.now lent.old due.old).met }
        ensures reader_after { reader.new ≡ (read_into self reader.old bytes.now lent.old due.old).reader }
    {
        let answer = reader.read(bytes, lent);
        self.read_due(bytes, due);
        let answered = self.taken(answer, reader);
        answered & (*lent == *due)
    }

    // Reads the block without a reader where it has to be accepted. After a refusal the slice has to be as it was.
    fn read_due(self, bytes: &[u8], due: &mut [u16])
        ensures { due.new ≡ slice_due self bytes.now due.old }
    {
        if self.answer == 0 {
            let _ = block::read_block(bytes, due);
        }
    }

    // Judged by its header, or by its refusal. A refused reader stays.
    fn taken(self, answer: Result<Taken, Refusal>, reader: &mut Reader) -> bool
        ensures met { result ≡ (taken_as self reader.old (outcome answer)).met }
        ensures reader_after { reader.new ≡ (taken_as self reader.old (outcome answer)).reader }
    {
        if let Ok(taken) = answer {
            *reader = taken.reader;
        }
        agrees(answer.map(|taken| taken.header), self.answer, self.due)
    }

    fn is_left(self, reader: Reader) -> bool
        ensures { result ≡ is_left self reader.phase }
    {
        self.left == Some(Left::from(reader.phase()))
    }
}
