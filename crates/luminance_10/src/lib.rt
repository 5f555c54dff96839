// The boundary luminances at 10 bits: entry j is the least luminance whose code is at least 16s + j + 1 (request 2026-11). The
// curve's rule is proved of every entry here, once.
#![tactic(auto)]

mod table;

ghost use Rattle.systems.specs.declared.System.TheVariants.{Bt2020Bits10};

use luminance::{Thresholds, WholeIndex};

pub struct Bits10;

impl Thresholds for Bits10 {
    ghost system = { Bt2020Bits10 };

    ghost BUCKET = { 320000 };

    // 10000 times as many luminances as lights share an entry of the index, so that the entries are the same.
    const BUCKET: u32 = 10000 << <thresholds_10::Bits10 as curve::Thresholds>::SHIFT;

    fn boundaries() -> &'static [u32] {
        &table::BOUNDARIES
    }

    fn index() -> &'static [u16] {
        Self::whole_index()
    }
}

impl WholeIndex for Bits10 {
    fn whole_index() -> &'static [u16] {
        &thresholds_10::INDEX
    }
}
