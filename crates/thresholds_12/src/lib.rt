// The boundary lights at 12 bits: entry j is the least light whose code is at least 16s + j + 1 (document 01, 'Light to
// code'). The curve's rule is proved of every entry here, once.
#![tactic(auto)]

mod table;

use curve::{Thresholds, WholeIndex};
pub use table::INDEX;

pub struct Bits12;

impl Thresholds for Bits12 {
    ghost bits = { 12 };

    ghost SHIFT = { 3 };

    const SHIFT: u32 = 3;

    fn boundaries() -> &'static [u16] {
        &table::BOUNDARIES
    }

    fn index() -> &'static [u16] {
        Self::whole_index()
    }
}

impl WholeIndex for Bits12 {
    fn whole_index() -> &'static [u16] {
        &table::INDEX
    }
}
