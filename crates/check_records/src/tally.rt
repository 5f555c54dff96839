// The count of a check's comparisons.
ghost use Rattle.std.specs.Prelude.{ℕ, ◌+◌, ◌≡◌, ◌<◌, ◌≤◌, Bool};
ghost use Rattle.check_records.specs.Records.{tallied, ended, tally_by, TellsEach};

use std::{fmt, io};

#[derive(Clone, Copy)]
pub struct Tally {
    pub compared: u64,
    pub differ: u64,
}

impl Tally {
    pub const NONE: Tally = Tally {
        compared: 0,
        differ: 0,
    };

    // One comparison more. The greatest counts stay, so that none begins anew.
    #[tactic(auto, unfolding(crate::specs::Records::tallied))]
    pub fn with(self, same: bool) -> Tally
        ensures { result ≡ tallied self same }
    {
        let one_more = self.differ.saturating_add(1);
        let differ = if same { self.differ } else { one_more };
        Tally {
            compared: self.compared.saturating_add(1),
            differ,
        }
    }

    // The end of the data, of which so many bytes are left: a case that is cut off differs.
    #[tactic(auto, unfolding(crate::specs::Records::ended))]
    pub fn ended(self, left: usize) -> Tally
        ensures { result ≡ ended self left }
    {
        if left == 0 { self } else { self.with(false) }
    }

    // Writes a line such as 'spans 5479 compared, 0 differ'.
    pub fn print(self, rt: &impl Print, check: &str) -> io::Result<()> {
        println!(rt; "{check} {self}")
    }
}

impl fmt::Display for Tally {
    fn fmt<W: fmt::Write>(&self, f: &mut fmt::Formatter<W>) -> fmt::Result {
        write!(f, "{} compared, {} differ", self.compared, self.differ)
    }
}

// The tally of so many bytes of records of a size, by whether the one at a place is met.
// A place is given and no slice, since the definitions name the place.
#[tactic(auto, unfolding(crate::specs::Records::tally_to))]
pub fn compare<F: Fn(usize) -> bool>(bytes: usize, size: usize, is_met: F) -> Tally
    requires some { 0 < size }
    requires callable { (at : ℕ) → at + size ≤ bytes → F.pre is_met at }
    ensures { (same : ℕ → Bool) → TellsEach (F.post is_met) bytes size same → result ≡ tally_by bytes size same }
{
    let mut tally = Tally::NONE;
    for i in 0..bytes / size {
        tally = tally.with(is_met(size * i));
    }
    tally.ended(bytes % size)
}
