// Words to codes, against the files 'codes' and 'codes_refused'.
ghost use Rattle.std.specs.Prelude.{◌≡◌, ◌+◌, ◌≤◌, length};
ghost use Rattle.check_records.specs.Records.{tally_of};
ghost use Rattle.check_constants.specs.Cases.{codes_case, codes_met, codes_at};

use crate::fields;
use check_records::{Tally, due, u16_at, u32_at};
use check_samples::words_at;
use constant_luminance::Clipped;
use matrix::Words;
use systems::Refusal;

// One record: words, and R', B' and the clips that are due for them in a system, or the number of the refusal.
#[derive(Clone, Copy)]
struct Case {
    system: u32,
    words: Words,
    due: Result<Clipped, u32>,
}

// Compares the answer for each record with it.
pub fn compare(records: &[u8]) -> Tally
    ensures { result ≡ tally_of 20 codes_at records.now }
{
    check_records::compare(records.len(), 20, |at| case_at(records, at).is_met())
}

fn case_at(records: &[u8], at: usize) -> Case
    requires { at + 20 ≤ length records.now }
    ensures { result ≡ codes_case records.now at }
{
    let clipped = Clipped {
        codes: fields::codes(records, at + 12),
        clips: fields::clips(records, at + 16),
    };
    Case {
        system: u32_at(records, at),
        words: words_at(records, at + 6),
        due: due(u32::from(u16_at(records, at + 4)), clipped),
    }
}

impl Case {
    fn is_met(self) -> bool
        ensures { result ≡ codes_met self }
    {
        let answer = constant_luminance::codes_of_words(self.system, self.words);
        answer.map_err(Refusal::number) == self.due
    }
}
