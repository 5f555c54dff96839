// Levels, against the files 'codes' and 'differences'.
ghost use Rattle.std.specs.Prelude.{ℕ, ◌+◌, ◌≡◌, ◌≤◌, pos, ◌-ℤ◌, length};
ghost use Rattle.exact.specs.Outcome.{Outcome};
ghost use Rattle.systems.specs.Refusals.{outcome};
ghost use Rattle.levels.specs.declared.Level.{Level as TheLevel};
ghost use Rattle.levels.specs.Levels.{level_of_code, level_of_difference};
ghost use Rattle.check_records.specs.Records.{tally_of};
ghost use Rattle.check_levels.specs.Cases.{Gives, level_case, level_due, agrees, level_at};

use check_records::{Tally, due, u16_at, u32_at};
use levels::Level;
use systems::Refusal;

// One record: a code, and the level that is due for it in a system, or the number of the refusal.
#[derive(Clone, Copy)]
struct Case {
    system: u32,
    code: u16,
    due: Result<Level, u32>,
}

// Compares the level of each record's code.
pub fn compare_codes(records: &[u8]) -> Tally
    ensures { result ≡ tally_of 12 (level_at level_of_code) records.now }
{
    compare(levels::level_of_code, records)
}

// Compares the level of each record's word.
pub fn compare_differences(records: &[u8]) -> Tally
    ensures { result ≡ tally_of 12 (level_at level_of_difference) records.now }
{
    compare(levels::level_of_difference, records)
}

// Compares a call's answer for each record with it.
fn compare<F: Fn(u32, u16) -> Result<Level, Refusal>>(level_of: F, records: &[u8]) -> Tally
    requires { F.IsAlwaysCallable level_of }
    ensures { (level : ℕ → ℕ → Outcome TheLevel) → Gives (F.post level_of) level → result ≡ tally_of 12 (level_at level) records.now }
{
    let is_met = |at: usize|
        requires { (at + 12 ≤ length records.now) × F.IsAlwaysCallable level_of }
    {
        let case = case_at(records, at);
        case.is_met(level_of(case.system, case.code))
    };
    check_records::compare(records.len(), 12, is_met)
}

fn case_at(records: &[u8], at: usize) -> Case
    requires { at + 12 ≤ length records.now }
    ensures { result ≡ level_case records.now at }
{
    Case {
        system: u32_at(records, at),
        code: u16_at(records, at + 4),
        due: due_at(records, at + 6),
    }
}

fn due_at(records: &[u8], at: usize) -> Result<Level, u32>
    requires { at + 6 ≤ length records.now }
    ensures { result ≡ level_due records.now at }
{
    let level = Level {
        millivolts: less_1000(u16_at(records, at + 2)),
        remainder: u32::from(u16_at(records, at + 4)),
    };
    due(u32::from(u16_at(records, at)), level)
}

// Records have 1000 more than the millivolts.
fn less_1000(x: u16) -> i32
    ensures { result ≡ pos x -ℤ pos 1000 }
{
    i32::from(x) - 1000
}

impl Case {
    fn is_met(self, answer: Result<Level, Refusal>) -> bool
        ensures { result ≡ agrees (outcome answer) self.due }
    {
        answer.map_err(Refusal::number) == self.due
    }
}
