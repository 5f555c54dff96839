// Signals to codes, against the file 'signals'.
ghost use Rattle.std.specs.Prelude.{◌+◌, ◌≡◌, ◌/◌, ◌%◌, ◌≤◌, length};
ghost use Rattle.check_records.specs.Records.{ended};
ghost use Rattle.check_values.specs.Vectors.{case_in, due_in, is_met, half_code, signal_tallied, signals_to};

use crate::{float, triple};
use check_records::{Tally, u16_at, u32_at};
use signals::Signals;
use systems::{Codes, Refusal};

// One record: a signal, and the code that is due for it in a system, or the refusal's number.
#[derive(Clone, Copy)]
struct Case {
    system: u32,
    signal: f32,
    due: Result<u16, u32>,
}

// A signal is refused with this.
const SIGNAL: u32 = 7;

// Compares the answers for each record with its signal as R', as G' and as B'.
// A loop of its own: each record counts as three comparisons, which by `compare` of check_records is one.
#[tactic(auto, unfolding(crate::specs::Vectors::signals_to))]
pub fn compare(records: &[u8]) -> Tally
    ensures { result ≡ ended (signals_to records.now (length records.now / 8)) (length records.now % 8) }
{
    let mut tally = Tally::NONE;
    for i in 0..records.len() / 8 {
        tally = case_at(records, 8 * i).compare(tally);
    }
    tally.ended(records.len() % 8)
}

fn case_at(records: &[u8], at: usize) -> Case
    requires { at + 8 ≤ length records.now }
    ensures { result ≡ case_in records.now at }
{
    Case {
        system: u32::from(u16_at(records, at)),
        signal: float::from_bits(u32_at(records, at + 4)),
        due: due_at(records, at + 2),
    }
}

// No code is 0: where the record has it, the signal is refused.
fn due_at(records: &[u8], at: usize) -> Result<u16, u32>
    requires { at + 2 ≤ length records.now }
    ensures { result ≡ due_in records.now at }
{
    match u16_at(records, at) {
        0 => Err(SIGNAL),
        code => Ok(code),
    }
}

impl Case {
    // The other two components are 0.5.
    #[tactic(auto, unfolding(crate::specs::Vectors::signal_tallied))]
    fn compare(self, tally: Tally) -> Tally
        ensures { result ≡ signal_tallied self tally }
    {
        let x = self.signal;
        let half = float::half();
        let h = code_of_half(self.system);
        let as_r = self.due.map(|code| triple::codes(code, h, h));
        let as_g = self.due.map(|code| triple::codes(h, code, h));
        let as_b = self.due.map(|code| triple::codes(h, h, code));
        tally
            .with(is_met(self.system, triple::signals(x, half, half), as_r))
            .with(is_met(self.system, triple::signals(half, x, half), as_g))
            .with(is_met(self.system, triple::signals(half, half, x), as_b))
    }
}

fn is_met(system: u32, signals: Signals, due: Result<Codes, u32>) -> bool
    ensures { result ≡ is_met system signals due }
{
    signals::codes_of_signals(system, signals).map_err(Refusal::number) == due
}

// 125.5·s, the half going up.
fn code_of_half(system: u32) -> u16
    ensures { result ≡ half_code system }
{
    match system {
        1 => 126,
        2 | 3 => 502,
        _ => 2008,
    }
}
