// Compares levels with the data of an unrelated program, reference/make_levels.py, and writes for each file how many answers it
// compared and how many differ.
#![tactic(auto)]

mod case;

use arrayvec::ArrayVec;
use std::io;

// A file of so many bytes or more is not read.
const MOST: usize = 131072;

fn main(rt: HostRuntime) -> io::Result<()> {
    check_codes(&rt)?;
    check_differences(&rt)
}

fn check_codes(rt: &HostRuntime) -> io::Result<()> {
    let mut codes = ArrayVec::<u8, MOST>::new();
    check_records::read_into(rt, "codes", &mut codes);
    case::compare_codes(&codes).print(rt, "codes")
}

fn check_differences(rt: &HostRuntime) -> io::Result<()> {
    let mut differences = ArrayVec::<u8, MOST>::new();
    check_records::read_into(rt, "differences", &mut differences);
    case::compare_differences(&differences).print(rt, "differences")
}
