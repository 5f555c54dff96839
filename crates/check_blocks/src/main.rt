// Compares reading of blocks with the data of an unrelated program, reference/make_blocks.py, and writes for each answer that is
// due how many cases it compared and how many differ.
#![tactic(auto)]

mod cases;
mod slice;

use arrayvec::ArrayVec;
use check_answers::print_answers;
use std::io;

// A file of so many bytes or more is not read.
const MOST: usize = 524288;

// The numbers of the answers that the cases have.
const ANSWERS: [u32; 8] = [0, 1, 5, 6, 8, 9, 10, 11];

fn main(rt: HostRuntime) -> io::Result<()> {
    check_cases(&rt)?;
    check_clipped(&rt)
}

fn check_cases(rt: &HostRuntime) -> io::Result<()> {
    let mut cases = ArrayVec::<u8, MOST>::new();
    check_records::read_into(rt, "cases", &mut cases);
    print_answers(rt, &ANSWERS, "", |number| {
        cases::compare(&cases, number)
    })
}

fn check_clipped(rt: &HostRuntime) -> io::Result<()> {
    let mut clipped = ArrayVec::<u8, MOST>::new();
    check_records::read_into(rt, "clipped", &mut clipped);
    cases::compare(&clipped, 0).print(rt, "accepted, clipped:")
}
