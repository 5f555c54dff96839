// What the programs that compare the conversion with data have in common: the files of data, counts of comparisons, and nominal
// ranges of their own.
#![tactic(auto)]

mod alike;
mod file;
mod range;
mod tally;

pub use alike::begin_alike;
pub use file::{due, read, read_into, u16_at, u32_at};
pub use range::{black, white};
pub use tally::{Tally, compare};
