// Words to codes, against the files 'codes' and 'codes_refused'.
ghost use Rattle.std.specs.Prelude.{◌+◌, ◌≡◌, ◌≤◌, length};
ghost use Rattle.check_records.specs.Records.{tally_of};
ghost use Rattle.check_triples.specs.Cases.{codes_case, codes_due, codes_met, codes_at};

use check_records::{Tally, due, u16_at, u32_at};
use check_samples::{codes_at, words_at};
use matrix::{Clipped, Clips, Words};
use systems::Refusal;

// One record: words, and the codes and clips that are due for them in a system, or the number of the refusal.
#[derive(Clone, Copy)]
struct Case {
    system: u32,
    words: Words,
    due: Result<Clipped, u32>,
}

// Compares the answer for each record with it.
pub fn compare(records: &[u8]) -> Tally
    ensures { result ≡ tally_of 22 codes_at records.now }
{
    check_records::compare(records.len(), 22, |at| case_at(records, at).is_met())
}

fn case_at(records: &[u8], at: usize) -> Case
    requires { at + 22 ≤ length records.now }
    ensures { result ≡ codes_case records.now at }
{
    Case {
        system: u32_at(records, at),
        words: words_at(records, at + 6),
        due: due_at(records, at),
    }
}

fn due_at(records: &[u8], at: usize) -> Result<Clipped, u32>
    requires { at + 22 ≤ length records.now }
    ensures { result ≡ codes_due records.now at }
{
    let clips = Clips {
        low: u16_at(records, at + 18),
        high: u16_at(records, at + 20),
    };
    let clipped = Clipped {
        codes: codes_at(records, at + 12),
        clips,
    };
    due(u32::from(u16_at(records, at + 4)), clipped)
}

impl Case {
    fn is_met(self) -> bool
        ensures { result ≡ codes_met self }
    {
        matrix::codes_of_words(self.system, self.words).map_err(Refusal::number) == self.due
    }
}
