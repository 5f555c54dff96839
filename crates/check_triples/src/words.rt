// Codes to words, against the files 'words', 'trimmed', 'formerly_trimmed' and 'words_refused'.
ghost use Rattle.std.specs.Prelude.{◌+◌, ◌≡◌, ◌≤◌, length};
ghost use Rattle.check_records.specs.Records.{tally_of};
ghost use Rattle.check_triples.specs.Cases.{words_case, words_due, words_met, words_at};

use check_records::{Tally, due, u16_at, u32_at};
use check_samples::{codes_at, words_at};
use matrix::{Encoding, Limited};
use systems::{Codes, Refusal};

// One record: codes, and the words and moved count that are due for them in a system, or the number of the refusal.
#[derive(Clone, Copy)]
struct Case {
    system: u32,
    codes: Codes,
    due: Result<Limited, u32>,
}

// Compares an encoding's answer for each record with it.
pub fn compare(encoding: Encoding, records: &[u8]) -> Tally
    ensures { result ≡ tally_of 20 (words_at encoding) records.now }
{
    check_records::compare(records.len(), 20, |at| {
        case_at(records, at).is_met(encoding)
    })
}

fn case_at(records: &[u8], at: usize) -> Case
    requires { at + 20 ≤ length records.now }
    ensures { result ≡ words_case records.now at }
{
    Case {
        system: u32_at(records, at),
        codes: codes_at(records, at + 6),
        due: due_at(records, at),
    }
}

fn due_at(records: &[u8], at: usize) -> Result<Limited, u32>
    requires { at + 20 ≤ length records.now }
    ensures { result ≡ words_due records.now at }
{
    let limited = Limited {
        words: words_at(records, at + 12),
        moved: u32::from(u16_at(records, at + 18)),
    };
    due(u32::from(u16_at(records, at + 4)), limited)
}

impl Case {
    fn is_met(self, encoding: Encoding) -> bool
        ensures { result ≡ words_met encoding self }
    {
        let answer = matrix::words_of_codes(self.system, encoding, self.codes);
        answer.map_err(Refusal::number) == self.due
    }
}
