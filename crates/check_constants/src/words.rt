// Lights to words, against the files 'words' and 'words_refused'.
ghost use Rattle.std.specs.Prelude.{◌≡◌, ◌+◌, ◌≤◌, length};
ghost use Rattle.check_records.specs.Records.{tally_of};
ghost use Rattle.check_constants.specs.Cases.{words_case, words_met, words_at};

use crate::fields;
use check_records::{Tally, due, u16_at, u32_at};
use check_samples::words_at;
use constant_luminance::Lights;
use matrix::Words;
use systems::Refusal;

// One record: lights, and the words that are due for them in a system, or the number of the refusal.
#[derive(Clone, Copy)]
struct Case {
    system: u32,
    lights: Lights,
    due: Result<Words, u32>,
}

// Compares the answer for each record with it.
pub fn compare(records: &[u8]) -> Tally
    ensures { result ≡ tally_of 18 words_at records.now }
{
    check_records::compare(records.len(), 18, |at| case_at(records, at).is_met())
}

fn case_at(records: &[u8], at: usize) -> Case
    requires { at + 18 ≤ length records.now }
    ensures { result ≡ words_case records.now at }
{
    Case {
        system: u32_at(records, at),
        lights: fields::lights(records, at + 6),
        due: due(
            u32::from(u16_at(records, at + 4)),
            words_at(records, at + 12),
        ),
    }
}

impl Case {
    fn is_met(self) -> bool
        ensures { result ≡ words_met self }
    {
        let answer = constant_luminance::words_of_lights(self.system, self.lights);
        answer.map_err(Refusal::number) == self.due
    }
}
