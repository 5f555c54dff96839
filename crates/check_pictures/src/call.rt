// A call of the lists: what it is given, and what it has to answer.
ghost use Rattle.std.specs.Prelude.{◌≡◌, ◌+◌, ◌<◌, ◌≤◌, length, MatchOption};
ghost use Rattle.systems.specs.Refusals.{outcome};
ghost use Rattle.check_pictures.specs.Calls.{call_at, is_of, block_length, size_of, size_at, room, call_answer, buffer_of, same_header, read_as};

use crate::given::Given;
use crate::list::Counted;
use block::Header;
use check_records::{u16_at, u32_at};
use matrix::Clips;
use picture::Picture;
use systems::Refusal;

// What stands before a call's block. The answer is a number of the data's, which our refusals' numbers are compared with.
// 0 samples: no block is due, as the data say it.
#[derive(Clone, Copy)]
pub struct Call {
    given: Option<Given>,
    pub answer: u32,
    pub rows: u16,
    system: u32,
    pub samples: u16,
    pub bytes: u32,
    clips: Clips,
}

impl Call {
    // The call at a place, if it is there whole.
    pub fn at(calls: &[u8], at: usize) -> Option<Call>
        requires { at ≤ length calls.now }
        ensures { MatchOption result (length calls.now < at + size_at calls.now at) (λ call. (call ≡ call_at calls.now at) × (at + size_at calls.now at ≤ length calls.now)) }
    {
        if calls.len() - at < 30 {
            return None;
        }
        let call = Call::numbers(calls, at);
        if at + call.size() > calls.len() {
            return None;
        }
        Some(call)
    }

    fn numbers(calls: &[u8], at: usize) -> Call
        requires { at + 30 ≤ length calls.now }
        ensures { result ≡ call_at calls.now at }
    {
        Call {
            given: Given::at(calls, at),
            answer: u32::from(u16_at(calls, at + 2)),
            rows: u16_at(calls, at + 4),
            system: u32::from(u16_at(calls, at + 6)),
            samples: u16_at(calls, at + 8),
            bytes: u32_at(calls, at + 10),
            clips: Clips {
                low: u16_at(calls, at + 14),
                high: u16_at(calls, at + 16),
            },
        }
    }

    pub fn is_of(self, counted: Counted) -> bool
        ensures { result ≡ is_of self counted }
    {
        (self.given.map(Given::kind) == Some(counted.kind)) & (self.answer == counted.answer)
    }

    // The bytes of the block that is due, 0 where none is: written again, so that a wrong size shows.
    pub fn block_length(self) -> usize
        ensures { (result ≡ block_length self) × (result ≤ 393219) }
    {
        if self.samples == 0 {
            0
        } else {
            9 + 6 * (self.samples as usize)
        }
    }

    // The bytes of the call: its numbers, the block that is due, and the codes that are due.
    pub fn size(self) -> usize
        ensures { (result ≡ size_of self) × (result ≤ 1179669) }
    {
        30 + self.block_length() + 12 * (self.samples as usize)
    }

    // The length of the buffer that the call is lent.
    pub fn room(self) -> usize
        ensures { result ≡ room self }
    {
        match self.given {
            Some(Given::Row(part)) => part.room as usize,
            _ => 0,
        }
    }

    // Makes the call. A kind that the data do not name begins a list too.
    pub fn made(self, picture: Picture, lights: &[u16], lent: &mut [u8]) -> Result<Picture, Refusal>
        ensures result_value { outcome result ≡ call_answer self picture lights.now lent.old }
        ensures lent_after { lent.new ≡ buffer_of self picture lights.now lent.old }
    {
        match self.given {
            Some(
                Given::Open {
                    system,
                    width,
                    height,
                },
            ) => picture.open(system, width, height),
            Some(Given::Row(part)) => part.row(picture, lights, lent),
            Some(Given::Close) => picture.close(),
            Some(Given::New) | None => Ok(Picture::new()),
        }
    }

    // Whether reading answers with the row that this call was.
    pub fn is_read(self, answer: Result<Header, Refusal>) -> bool
        ensures { result ≡ read_as (outcome answer) self }
    {
        match answer {
            Ok(header) => self.is_row(header),
            Err(_) => false,
        }
    }

    // The row number is that of the last row accepted, and the data's count rows from 1, so this is no Due.
    fn is_row(self, header: Header) -> bool
        ensures { result ≡ same_header header self }
    {
        let found = (
            header.system.number(),
            u32::from(header.row) + 1,
            header.samples,
        );
        let due = (self.system, u32::from(self.rows), self.samples);
        (found == due) & (header.clips == self.clips)
    }
}
