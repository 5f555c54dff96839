// What each call refuses for its system or its code, with the number (document 01, 'What the caller hears').
ghost use Rattle.std.specs.Prelude.{◌≡◌};
ghost use Rattle.systems.specs.Refusals.{outcome};
ghost use Rattle.check_values.specs.Vectors.{refused_with, code_refused, codes_refused, system_refused, refusals_tally};

use crate::{float, triple};
use check_records::Tally;
use systems::Refusal;

#[tactic(auto, unfolding(crate::specs::Vectors::codes_to))]
pub fn compare() -> Tally
    ensures { result ≡ refusals_tally }
{
    let mut codes = Tally::NONE;
    for system in 1..5 {
        codes = compare_codes(system, codes);
    }
    compare_system(u32::MAX, compare_system(5, compare_system(0, codes)))
}

// The codes next to the nominal range and the ends of all codes are refused with 6.
#[tactic(auto, unfolding(crate::specs::Vectors::codes_refused))]
fn compare_codes(system: u32, tally: Tally) -> Tally
    ensures { result ≡ codes_refused system tally }
{
    let below = compare_code(system, check_records::black(system) - 1, tally);
    let above = compare_code(system, check_records::white(system) + 1, below);
    compare_code(system, 65535, compare_code(system, 0, above))
}

#[tactic(auto, unfolding(crate::specs::Vectors::code_refused))]
fn compare_code(system: u32, code: u16, tally: Tally) -> Tally
    ensures { result ≡ code_refused system code tally }
{
    let good = check_records::black(system);
    tally
        .with(is_refused(light::span_of_code(system, code), 6))
        .with(is_refused(
            signals::signals_of_codes(system, triple::codes(code, good, good)),
            6,
        ))
        .with(is_refused(
            signals::signals_of_codes(system, triple::codes(good, code, good)),
            6,
        ))
        .with(is_refused(
            signals::signals_of_codes(system, triple::codes(good, good, code)),
            6,
        ))
}

// An unknown system is refused with 1, also where a code or a signal is wrong too.
#[tactic(auto, unfolding(crate::specs::Vectors::system_refused))]
fn compare_system(system: u32, tally: Tally) -> Tally
    ensures { result ≡ system_refused system tally }
{
    let half = float::half();
    let nan = float::not_a_number();
    tally
        .with(is_refused(light::code_of_light(system, 0), 1))
        .with(is_refused(light::span_of_code(system, 100), 1))
        .with(is_refused(light::span_of_code(system, 0), 1))
        .with(is_refused(
            signals::signals_of_codes(system, triple::codes(100, 100, 100)),
            1,
        ))
        .with(is_refused(signals::signals_of_codes(system, triple::codes(0, 0, 0)), 1))
        .with(is_refused(
            signals::codes_of_signals(system, triple::signals(half, half, half)),
            1,
        ))
        .with(is_refused(
            signals::codes_of_signals(system, triple::signals(nan, nan, nan)),
            1,
        ))
}

// Whether a call refuses with this number: the data's, which our refusals' numbers are compared with.
fn is_refused<T: Drop>(answer: Result<T, Refusal>, number: u32) -> bool
    ensures { result ≡ refused_with (outcome answer) number }
{
    answer.is_err_and(|refusal| refusal.number() == number)
}
