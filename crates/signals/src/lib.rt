// Float signals to codes and back (document 01, 'Float signals').
#![tactic(auto)]

ghost use Rattle.std.specs.Prelude.{◌≡◌, ◌*◌, ◌≤◌, T};
ghost use Rattle.systems.specs.Systems.{scale};
ghost use Rattle.systems.specs.Refusals.{outcome};
ghost use Rattle.signals.specs.Signals.{in_unit, all_in_unit, component, quantised_at, signal_codes, nearest, signals_at, code_signals};

use systems::{Codes, Refusal, System};

// A triple of signals E', each from 0 to 1. Signals, codes, words and lights are types of their own: one generic triple would let a
// light pass for a code.
#[repr(C)]
#[derive(Clone, Copy, PartialEq)]
pub struct Signals {
    pub r: f32,
    pub g: f32,
    pub b: f32,
}

// The code of each signal's exact value; refused with 1, then 7.
pub fn codes_of_signals(system: u32, signals: Signals) -> Result<Codes, Refusal>
    ensures { outcome result ≡ signal_codes system signals }
{
    let y = System::try_from(system)?;
    if !all_in_unit(signals) {
        return Err(Refusal::Signal);
    }
    Ok(codes_at(y, signals))
}

// The f32 nearest to each code's signal; refused with 1, then 6.
pub fn signals_of_codes(system: u32, codes: Codes) -> Result<Signals, Refusal>
    ensures { outcome result ≡ code_signals system codes }
{
    let y = System::try_from(system)?;
    if !codes.all_in(y.nominal()) {
        return Err(Refusal::Code);
    }
    Ok(signals_at(y, codes))
}

// Both tests hold of negative zero, and neither of a NaN.
fn in_unit(e: f32) -> bool
    ensures { result ≡ in_unit e }
{
    (e >= 0.0) & (e <= 1.0)
}

fn all_in_unit(signals: Signals) -> bool
    ensures { result ≡ all_in_unit signals }
{
    in_unit(signals.r) & in_unit(signals.g) & in_unit(signals.b)
}

// Whole half steps decide the code, and none is lost: the product of 24 binary digits by 13 is exact in binary64.
fn code_of(y: System, e: f32) -> u16
    requires { T (in_unit e) }
    ensures { result ≡ component (scale y) e }
{
    let nominal = y.nominal();
    let wide = e as f64;
    let scaled = (2 * (nominal.high - nominal.low)) as f64;
    let halves = std::num::truncating_f64_to_u64(wide * scaled);
    let steps = (halves + 1) / 2;
    nominal.low + steps as u16
}

fn codes_at(y: System, signals: Signals) -> Codes
    requires { T (in_unit signals.r) × T (in_unit signals.g) × T (in_unit signals.b) }
    ensures { result ≡ quantised_at (scale y) signals }
{
    Codes {
        r: code_of(y, signals.r),
        g: code_of(y, signals.g),
        b: code_of(y, signals.b),
    }
}

// Both operands are exact in binary32, so the quotient is rounded once.
fn signal_of(y: System, code: u16) -> f32
    requires { 16 * scale y ≤ code }
    ensures { result ≡ nearest (scale y) code }
{
    let nominal = y.nominal();
    let above_black = (code - nominal.low) as f32;
    let steps = (nominal.high - nominal.low) as f32;
    above_black / steps
}

fn signals_at(y: System, codes: Codes) -> Signals
    requires { (16 * scale y ≤ codes.r) × (16 * scale y ≤ codes.g) × (16 * scale y ≤ codes.b) }
    ensures { result ≡ signals_at (scale y) codes }
{
    Signals {
        r: signal_of(y, codes.r),
        g: signal_of(y, codes.g),
        b: signal_of(y, codes.b),
    }
}
