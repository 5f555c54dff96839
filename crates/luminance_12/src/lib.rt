// The boundary luminances at 12 bits: entry j is the least luminance whose code is at least 16s + j + 1 (request 2026-11). The
// curve's rule is proved of every entry here, once.
#![tactic(auto)]

mod table;

ghost use Rattle.systems.specs.declared.System.TheVariants.{Bt2020Bits12};

use luminance::{Thresholds, WholeIndex};

pub struct Bits12;

impl Thresholds for Bits12 {
    ghost system = { Bt2020Bits12 };

    ghost BUCKET = { 80000 };

    // 10000 times as many luminances as lights share an entry of the index, so that the entries are the same.
    const BUCKET: u32 = 10000 << <thresholds_12::Bits12 as curve::Thresholds>::SHIFT;

    fn boundaries() -> &'static [u32] {
        &table::BOUNDARIES
    }

    fn index() -> &'static [u16] {
        Self::whole_index()
    }
}

impl WholeIndex for Bits12 {
    fn whole_index() -> &'static [u16] {
        &thresholds_12::INDEX
    }
}
