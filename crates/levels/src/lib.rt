// Codes as levels in millivolts, as a waveform bench reads them (request 2026-05).
#![tactic(auto)]

ghost use Rattle.std.specs.Prelude.{◌≡◌, ◌^◌, ◌<◌, pos, nat_abs, ◌<ℤ◌};
ghost use Rattle.systems.specs.Systems.{scale};
ghost use Rattle.systems.specs.Refusals.{outcome};
ghost use Rattle.levels.specs.Levels.{level_ratio, divided, level_by, level_of_code, level_of_difference};

use systems::{Range, Refusal, System};

// Whole millivolts, rounded down, and the remainder over 219s or 224s.
#[repr(C)]
#[derive(Clone, Copy, PartialEq, Eq)]
pub struct Level {
    pub millivolts: i32,
    pub remainder: u32,
}

// What levels are read by: the code of 0 mV, and the codes to 700 mV, at 8 bits.
#[derive(Clone, Copy)]
struct Gauge {
    zero: u16,
    steps: u16,
}

// From black to white, and from one end of a colour difference to the other.
const MILLIVOLTS: i64 = 700;

impl Gauge {
    // R', G', B' and Y'.
    const CODE: Gauge = Gauge {
        zero: Range::BLACK,
        steps: Range::WHITE - Range::BLACK,
    };
    // Cb and Cr.
    const DIFFERENCE: Gauge = Gauge {
        zero: Range::MIDDLE,
        steps: Range::DIFFERENCE_PEAK - Range::BLACK,
    };
}

// The level of an R', G', B' or Y' code; refused with 1, then 6.
pub fn level_of_code(system: u32, code: u16) -> Result<Level, Refusal>
    ensures { outcome result ≡ level_of_code system code }
{
    level_by(Gauge::CODE, system, code)
}

// The level of a Cb or Cr word; refused with 1, then 6.
pub fn level_of_difference(system: u32, word: u16) -> Result<Level, Refusal>
    ensures { outcome result ≡ level_of_difference system word }
{
    level_by(Gauge::DIFFERENCE, system, word)
}

// The level of a code by a gauge; refused with 1, then 6.
fn level_by(gauge: Gauge, system: u32, code: u16) -> Result<Level, Refusal>
    requires { 0 < gauge.steps }
    ensures { outcome result ≡ level_by gauge system code }
{
    let y = System::try_from(system)?;
    if !y.video_data().holds(code) {
        return Err(Refusal::Code);
    }
    Ok(level_in(y, gauge, code))
}

// The level of a code by a gauge at the scale of a system.
fn level_in(y: System, gauge: Gauge, code: u16) -> Level
    requires { 0 < gauge.steps }
    ensures { result ≡ divided (level_ratio gauge (scale y) code) }
{
    let s = y.scale() as u32;
    let zero = gauge.zero as u32 * s;
    let steps = gauge.steps as u32 * s;
    divided(MILLIVOLTS * (code as i64 - zero as i64), steps as i64)
}

// A ratio in whole millivolts, and what is left of it.
fn divided(top: i64, bottom: i64) -> Level
    requires { (nat_abs top < 2 ^ 31) × (pos 0 <ℤ bottom) × (nat_abs bottom < 2 ^ 31) }
    ensures { result ≡ divided record { top = top; bottom = nat_abs bottom } }
{
    let whole = exact::floor(top, bottom);
    Level {
        millivolts: whole as i32,
        remainder: (top - whole * bottom) as u32,
    }
}
