// Compares moving rows between progressive and segmented-frame order with the data of an unrelated program,
// reference/make_segments.py, and writes for each file how many answers it compared and how many differ.
#![tactic(auto)]

mod lengths;
mod moving;
mod rows;

use arrayvec::ArrayVec;
use segmented::Order;
use std::io;

fn main(rt: HostRuntime) -> io::Result<()> {
    check_lengths(&rt)?;
    check_rows(&rt, "rows_1", "rows of 1 byte:")?;
    check_rows(&rt, "rows_2", "rows of 2 bytes:")?;
    check_rows(&rt, "rows_3", "rows of 3 bytes:")?;
    check_rows(&rt, "rows_5", "rows of 5 bytes:")
}

fn check_lengths(rt: &HostRuntime) -> io::Result<()> {
    let mut records = ArrayVec::<u8, 4096>::new();
    check_records::read_into(rt, "lengths", &mut records);
    lengths::compare(&records, Order::Segmented).print(rt, "lengths, to segmented:")?;
    lengths::compare(&records, Order::Progressive).print(rt, "lengths, to progressive:")
}

fn check_rows(rt: &HostRuntime, file: &str, check: &str) -> io::Result<()> {
    let mut rows = ArrayVec::<u8, 16384>::new();
    check_records::read_into(rt, file, &mut rows);
    rows::compare(&rows).print(rt, check)
}
