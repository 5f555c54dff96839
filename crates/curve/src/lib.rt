// Light to code by a table of boundary lights (document 01, 'Light to code'): one lookup for all depths and all callers.
#![tactic(auto)]

ghost use Rattle.std.specs.Prelude.{◌≡◌, ◌≤◌, ◌*◌, ◌^◌, ℕ, leb, length};
ghost use Rattle.systems.specs.Systems.{bits};
ghost use mir.Val.{bool_byte};
ghost use Rattle.curve.specs.Curve.{code};
ghost use Rattle.curve.specs.Inner.{ReadyFor, BoundariesAt, IndexAt};

use systems::System;

// A bit depth's boundary lights: entry j of `boundaries` is the least light whose code is at least 16s + j + 1. For each run of
// 2^SHIFT lights, `index` leads to the first of two boundaries that can lie in it.
pub trait Thresholds {
    ghost bits: { ℕ };

    ghost SHIFT: { ℕ };

    // A light shifted right by this has its place in the index.
    const SHIFT: u32;

    fn boundaries() -> &'static [u16]
        ensures { BoundariesAt bits result.now };

    fn index() -> &'static [u16]
        ensures { IndexAt bits SHIFT result.now };
}

// Thresholds whose index has an entry for each run of lights and none beyond the last.
pub trait WholeIndex: Thresholds {
    fn whole_index() -> &'static [u16]
        ensures index { IndexAt Self.bits Self.SHIFT result.now }
        ensures whole { length result.now * 2 ^ Self.SHIFT ≡ 65536 };
}

// The code of a light by boundaries and an index that are lent. The index leads by the light's high bits to the first of two
// boundaries that can lie below it. Returned as wide as a register: a u16 would be cut here and widened again where the matrix
// takes it.
pub fn code_in<'a>(
    y: System,
    boundaries: &'a [u16],
    index: &'a [u16],
    shift: u32,
    light: u16,
) -> usize
    requires { ReadyFor y shift boundaries.now index.now }
    ensures { result ≡ code y light }
{
    let n = index[(light >> shift) as usize] as usize;
    let black = y.nominal().low as usize;
    black + n + passed(boundaries[n], light) + passed(boundaries[n + 1], light)
}

// The code of a light by its depth's boundaries.
pub fn code_by<T: Thresholds>(y: System, light: u16) -> usize
    requires { bits y ≡ T.bits }
    ensures { result ≡ code y light }
{
    code_in(y, T::boundaries(), T::index(), T::SHIFT, light)
}

// 1 where the light is at the boundary or beyond it, else 0.
fn passed(boundary: u16, light: u16) -> usize
    ensures { (result ≡ bool_byte (leb boundary light)) × (result ≤ 1) }
{
    (boundary <= light) as usize
}
