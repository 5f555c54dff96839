// What a call of the lists is given.
ghost use Rattle.std.specs.Prelude.{◌≡◌, ◌+◌, ◌≤◌, length};
ghost use Rattle.systems.specs.Refusals.{outcome};
ghost use Rattle.check_pictures.specs.Calls.{given_at, kind_of, row_answer, row_buffer};

use crate::kind::Kind;
use check_records::{u16_at, u32_at};
use picture::Picture;
use systems::Refusal;

// A row's part of the lights, by the place of its first light and how many they are, and the length of the buffer that it is lent.
#[derive(Clone, Copy)]
pub struct Part {
    first: u32,
    count: u32,
    pub room: u32,
}

// A list begins with New, which makes a fresh picture.
#[derive(Clone, Copy)]
pub enum Given {
    New,
    Open {
        system: u32,
        width: u32,
        height: u32,
    },
    Row(Part),
    Close,
}

impl Given {
    // By the kind's number of the call at a place, none where it is no kind's.
    pub fn at(calls: &[u8], at: usize) -> Option<Given>
        requires { at + 30 ≤ length calls.now }
        ensures { result ≡ given_at calls.now at }
    {
        match u16_at(calls, at) {
            0 => Some(Given::New),
            1 => Some(Given::Open {
                system: u32_at(calls, at + 18),
                width: u32_at(calls, at + 22),
                height: u32_at(calls, at + 26),
            }),
            2 => Some(Given::Row(Part {
                first: u32_at(calls, at + 18),
                count: u32_at(calls, at + 22),
                room: u32_at(calls, at + 26),
            })),
            3 => Some(Given::Close),
            _ => None,
        }
    }

    pub fn kind(self) -> Kind
        ensures { result ≡ kind_of self }
    {
        match self {
            Given::New => Kind::New,
            Given::Open { .. } => Kind::Open,
            Given::Row(_) => Kind::Row,
            Given::Close => Kind::Close,
        }
    }
}

impl Part {
    // A row whose lights or buffer are not there is answered with 7, as no picture answers. No None: `CallsCompared` counts that 7.
    pub fn row(self, picture: Picture, lights: &[u16], lent: &mut [u8]) -> Result<Picture, Refusal>
        ensures result_value { outcome result ≡ row_answer self picture lights.now lent.old }
        ensures lent_after { lent.new ≡ row_buffer self picture lights.now lent.old }
    {
        let start = self.first as usize;
        let end = start + self.count as usize;
        let room = self.room as usize;
        if end > lights.len() || room > lent.len() {
            return Err(Refusal::Signal);
        }
        picture.row(&lights[start..end], &mut lent[..room])
    }
}
