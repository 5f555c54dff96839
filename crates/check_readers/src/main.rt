// Makes lists of calls on a picture reader and compares the answers, the lent slice and the reader after each with the data of an
// unrelated program, reference/make_readers.py. Writes for each answer that is due how many calls it compared and how many differ.
#![tactic(auto)]

mod call;
mod left;
mod list;

use arrayvec::ArrayVec;
use check_answers::print_answers;
use std::io;

// The numbers of the answers that the data have.
const ANSWERS: [u32; 12] = [0, 1, 3, 5, 6, 8, 9, 10, 11, 34, 35, 36];

fn main(rt: HostRuntime) -> io::Result<()> {
    let mut blocks = ArrayVec::<u8, 262144>::new();
    check_records::read_into(&rt, "blocks", &mut blocks);
    let mut calls = ArrayVec::<u8, 131072>::new();
    check_records::read_into(&rt, "calls", &mut calls);
    print_answers(&rt, &ANSWERS, "", |number| {
        list::compare(&calls, &blocks, number)
    })
}
