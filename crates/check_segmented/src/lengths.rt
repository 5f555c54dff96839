// Which lengths are accepted, against the file 'lengths'.
ghost use Rattle.std.specs.Prelude.{◌≡◌, ◌+◌, ◌≤◌, length};
ghost use Rattle.check_records.specs.Records.{tally_of};
ghost use Rattle.check_segmented.specs.Cases.{case_at, due_byte, lengths_met, lengths_at};

use crate::moving::{FILLED, ROOM, is_moved};
use check_records::{Tally, due, u32_at};
use segmented::Order;

// One record: the lengths of two buffers, and whether they are accepted, or the number of the refusal that is due: a
// number of the data's, which our refusals' numbers are compared with.
#[derive(Clone, Copy)]
struct Case {
    from: u32,
    to: u32,
    due: Result<(), u32>,
}

// Compares the answer for each record with it.
pub fn compare(records: &[u8], order: Order) -> Tally
    ensures { result ≡ tally_of 12 (lengths_at order) records.now }
{
    check_records::compare(records.len(), 12, |at| case_at(records, at).is_met(order))
}

fn case_at(records: &[u8], at: usize) -> Case
    requires { at + 12 ≤ length records.now }
    ensures { result ≡ case_at records.now at }
{
    Case {
        from: u32_at(records, at),
        to: u32_at(records, at + 4),
        due: due(u32_at(records, at + 8), ()),
    }
}

impl Case {
    // Rows of zeros are moved where the lengths are accepted.
    fn is_met(self, order: Order) -> bool
        ensures { result ≡ lengths_met order self }
    {
        // Arrays and no Vec: a Vec would make each function above answer for memory.
        let zeros = [0u8; ROOM];
        let due = [due_byte(self.due); ROOM];
        let from = self.from as usize;
        if from > zeros.len() {
            return false;
        }
        is_moved(order, self.due, &zeros[..from], &due, self.to as usize)
    }
}

fn due_byte(due: Result<(), u32>) -> u8
    ensures { result ≡ due_byte due }
{
    match due {
        Ok(()) => 0,
        Err(_) => FILLED,
    }
}
