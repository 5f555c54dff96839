// The totals of the file 'totals'.
ghost use Rattle.std.specs.Prelude.{◌≡◌, ◌+◌, ◌≤◌, length};
ghost use Rattle.check_records.specs.Records.{tally_of};
ghost use Rattle.check_pictures.specs.Totals.{total_case, total_met, total_at};

use check_records::{Tally, due, u16_at, u32_at};
use systems::Refusal;

// One record: a width and a height, and the bytes that are due for such a picture, or the number of the refusal.
#[derive(Clone, Copy)]
struct Case {
    width: u32,
    height: u32,
    due: Result<u32, u32>,
}

// Compares the total of each record's width and height with it.
pub fn compare(records: &[u8]) -> Tally
    ensures { result ≡ tally_of 14 total_at records.now }
{
    check_records::compare(records.len(), 14, |at| Case::at(records, at).is_met())
}

impl Case {
    fn at(records: &[u8], at: usize) -> Case
        requires { at + 14 ≤ length records.now }
        ensures { result ≡ total_case records.now at }
    {
        Case {
            width: u32_at(records, at + 2),
            height: u32_at(records, at + 6),
            due: due(u32::from(u16_at(records, at)), u32_at(records, at + 10)),
        }
    }

    fn is_met(self) -> bool
        ensures { result ≡ total_met self }
    {
        picture::total_bytes(self.width, self.height).map_err(Refusal::number) == self.due
    }
}
