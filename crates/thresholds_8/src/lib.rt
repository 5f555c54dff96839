// The boundary lights at 8 bits: entry j is the least light whose code is at least 16s + j + 1 (document 01, 'Light to
// code'). The curve's rule is proved of every entry here, once.
#![tactic(auto)]

mod table;

use curve::{Thresholds, WholeIndex};

pub struct Bits8;

impl Thresholds for Bits8 {
    ghost bits = { 8 };

    ghost SHIFT = { 7 };

    const SHIFT: u32 = 7;

    fn boundaries() -> &'static [u16] {
        &table::BOUNDARIES
    }

    fn index() -> &'static [u16] {
        Self::whole_index()
    }
}

impl WholeIndex for Bits8 {
    fn whole_index() -> &'static [u16] {
        &table::INDEX
    }
}
