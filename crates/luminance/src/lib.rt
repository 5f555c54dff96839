// Luminance to code by a table of boundary luminances (request 2026-11): a weighted sum of lights, in ten-thousandths of one.
#![tactic(auto)]

ghost use Rattle.std.specs.Prelude.{◌≡◌, ◌≤◌, ◌<◌, ◌*◌, ℕ, leb, length};
ghost use mir.Val.{bool_byte};
ghost use Rattle.systems.specs.declared.System.{System};
ghost use Rattle.curve.specs.Inner.{Boundaries, Index};
ghost use Rattle.luminance.specs.Luminance.{full_luminance, luminance_code};
ghost use Rattle.luminance.specs.Inner.{ReadyFor, quantiser_of};

use systems::System;

// A system's boundary luminances: entry j of `boundaries` is the least luminance whose code is at least 16s + j + 1. For each run of
// BUCKET luminances, `index` leads to the first of two boundaries that can lie in it.
pub trait Thresholds {
    ghost system: { System };

    ghost BUCKET: { ℕ };

    const BUCKET: u32;

    fn boundaries() -> &'static [u32]
        ensures { Boundaries (quantiser_of system) result.now };

    fn index() -> &'static [u16]
        ensures some { 0 < BUCKET }
        ensures index { Index (quantiser_of system) BUCKET result.now };
}

// Thresholds whose index has an entry for each run of luminances and none beyond the last.
pub trait WholeIndex: Thresholds {
    fn whole_index() -> &'static [u16]
        ensures some { 0 < Self.BUCKET }
        ensures index { Index (quantiser_of Self.system) Self.BUCKET result.now }
        ensures whole { length result.now * Self.BUCKET ≡ 10000 * 65536 };
}

// The code of a luminance by boundaries and an index that are lent. The index leads by the bucket that it is in to the first of two
// boundaries that can lie below it. A body beside `curve::code_in`: one for both would need a trait for an entry's width, and a map
// over the table in each table's contract.
pub fn code_in<'a>(
    y: System,
    boundaries: &'a [u32],
    index: &'a [u16],
    bucket: u32,
    luminance: u32,
) -> u16
    requires { ReadyFor y bucket luminance boundaries.now index.now }
    ensures { result ≡ luminance_code y luminance }
{
    let n = index[(luminance / bucket) as usize];
    let at = n as usize;
    let black = y.nominal().low;
    black + n + passed(boundaries[at], luminance) + passed(boundaries[at + 1], luminance)
}

// The code of a luminance by its system's boundaries.
pub fn code_by<T: Thresholds>(y: System, luminance: u32) -> u16
    requires { (y ≡ T.system) × (luminance ≤ full_luminance) }
    ensures { result ≡ luminance_code y luminance }
{
    code_in(y, T::boundaries(), T::index(), T::BUCKET, luminance)
}

// 1 where the luminance is at the boundary or beyond it, else 0.
fn passed(boundary: u32, luminance: u32) -> u16
    ensures { (result ≡ bool_byte (leb boundary luminance)) × (result ≤ 1) }
{
    (boundary <= luminance) as u16
}
