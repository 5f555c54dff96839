// Makes lists of reads with a meter and compares the answers, the lent slice and the figures with the data of an unrelated program,
// reference/make_meters.py. Writes for each answer that is due how many reads it compared and how many differ.
#![tactic(auto)]

mod list;
mod read;

use arrayvec::ArrayVec;
use check_answers::print_answers;
use std::io;

// The numbers of the answers that the data have.
const ANSWERS: [u32; 8] = [0, 1, 5, 6, 8, 9, 10, 11];

fn main(rt: HostRuntime) -> io::Result<()> {
    let mut blocks = ArrayVec::<u8, 262144>::new();
    check_records::read_into(&rt, "blocks", &mut blocks);
    let mut reads = ArrayVec::<u8, 131072>::new();
    check_records::read_into(&rt, "reads", &mut reads);
    print_answers(&rt, &ANSWERS, "", |number| {
        list::compare(&reads, &blocks, number)
    })
}
