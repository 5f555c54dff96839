// The calls on lights (document 01, 'Light to code').
#![tactic(auto)]

ghost use Rattle.std.specs.Prelude.{◌≡◌, ◌∷◌, ◌+◌, ◌*◌, ◌≤◌, length, get_or};
ghost use Rattle.systems.specs.Systems.{bits, scale};
ghost use Rattle.systems.specs.Refusals.{outcome};
ghost use Rattle.curve.specs.Curve.{code};
ghost use Rattle.light.specs.Light.{code_of_light, span, span_of_code};

use curve::{Thresholds, code_by};
use systems::{Depth, Refusal, System};
use thresholds_8::Bits8;
use thresholds_10::Bits10;
use thresholds_12::Bits12;

// The lights from least to greatest, both included.
#[repr(C)]
#[derive(Clone, Copy, PartialEq, Eq)]
pub struct Span {
    pub least: u16,
    pub greatest: u16,
}

// The code of a light. Refused: 1.
#[tactic(auto, using(systems::proofs::Scales::scale_range, curve::proofs::Lights::code_high))]
pub fn code_of_light(system: u32, light: u16) -> Result<u16, Refusal>
    ensures { outcome result ≡ code_of_light system light }
{
    Ok(code_of(System::try_from(system)?, light) as u16)
}

// The lights that have a code. Refused: 1, then 6.
pub fn span_of_code(system: u32, code: u16) -> Result<Span, Refusal>
    ensures { outcome result ≡ span_of_code system code }
{
    let y = System::try_from(system)?;
    if !y.nominal().holds(code) {
        return Err(Refusal::Code);
    }
    Ok(span_of(y, code))
}

// A depth has its boundaries, and nothing else of its own.
fn code_of(y: System, light: u16) -> usize
    ensures { result ≡ code y light }
{
    match y.depth() {
        Depth::Bits8 => code_by::<Bits8>(y, light),
        Depth::Bits10 => code_by::<Bits10>(y, light),
        Depth::Bits12 => code_by::<Bits12>(y, light),
    }
}

fn span_of(y: System, d: u16) -> Span
    requires { (16 * scale y ≤ d) × (d ≤ 235 * scale y) }
    ensures { result ≡ span y d }
{
    match y.depth() {
        Depth::Bits8 => span_in::<Bits8>(y, d),
        Depth::Bits10 => span_in::<Bits10>(y, d),
        Depth::Bits12 => span_in::<Bits12>(y, d),
    }
}

// A span runs from the code's own boundary to the light before the next one.
fn span_in<T: Thresholds>(y: System, d: u16) -> Span
    requires { (bits y ≡ T.bits) × (16 * scale y ≤ d) × (d ≤ 235 * scale y) }
    ensures { result ≡ span y d }
{
    let boundaries = T::boundaries();
    let n = (d - y.nominal().low) as usize;
    Span {
        least: least_at(boundaries, n),
        greatest: greatest_at(boundaries, n),
    }
}

// The first code has no boundary and begins at light 0.
fn least_at(boundaries: &[u16], n: usize) -> u16
    requires { n ≤ length boundaries.now }
    ensures { result ≡ get_or (0 ∷ boundaries.now) n 0 }
{
    if n == 0 {
        return 0;
    }
    boundaries[n - 1]
}

// The last code ends at light 65535.
fn greatest_at(boundaries: &[u16], n: usize) -> u16
    requires { 1 ≤ get_or boundaries.now n 65536 }
    ensures { result + 1 ≡ get_or boundaries.now n 65536 }
{
    match boundaries.get(n) {
        Some(next) => next - 1,
        None => u16::MAX,
    }
}
