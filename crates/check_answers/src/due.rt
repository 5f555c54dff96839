// What reading an accepted block has to give.
ghost use Rattle.std.specs.Prelude.{◌≡◌, ◌+◌, ◌≤◌, length};
ghost use Rattle.systems.specs.Refusals.{outcome};
ghost use Rattle.check_answers.specs.Answers.{due_at, seen, agrees};

use block::Header;
use check_records::u16_at;
use matrix::Clips;
use systems::Refusal;

// A header with its system's number: one of the data need not be a system's.
#[derive(Clone, Copy, PartialEq, Eq)]
pub struct Due {
    pub system: u32,
    pub row: u16,
    pub samples: u16,
    pub clips: Clips,
}

impl Due {
    // The numbers at a place, 2 bytes each.
    pub fn at(bytes: &[u8], at: usize) -> Due
        requires { at + 10 ≤ length bytes.now }
        ensures { result ≡ due_at bytes.now at }
    {
        Due {
            system: u32::from(u16_at(bytes, at)),
            row: u16_at(bytes, at + 2),
            samples: u16_at(bytes, at + 4),
            clips: Clips {
                low: u16_at(bytes, at + 6),
                high: u16_at(bytes, at + 8),
            },
        }
    }
}

impl From<Header> for Due {
    ghost from_gives = { λ header due. due ≡ seen header };

    fn from(header: Header) -> Due {
        Due {
            system: header.system.number(),
            row: header.row,
            samples: header.samples,
            clips: header.clips,
        }
    }
}

// Whether reading gives the answer of this number, and this header where it accepts. The number is one of the data's, which our
// refusals' numbers are compared with. It stands beside the header, since a refused case of the data has one too.
pub fn agrees(answer: Result<Header, Refusal>, number: u32, due: Due) -> bool
    ensures { result ≡ agrees (outcome answer) number due }
{
    match answer {
        Ok(header) => (number == 0) & (Due::from(header) == due),
        Err(refusal) => refusal.number() == number,
    }
}
