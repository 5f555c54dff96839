// Compares blocks at the other depth with the data of an unrelated program, reference/make_depths.py, and writes for each answer
// that is due how many cases it compared and how many differ.
#![tactic(auto)]

mod buffer;
mod cases;

use arrayvec::ArrayVec;
use check_answers::print_answers;
use std::io;

// The numbers of the answers that the files have.
const CASES: [u32; 10] = [0, 1, 5, 6, 8, 9, 10, 11, 32, 33];

const WORDS: [u32; 2] = [0, 33];

const WIDEST: [u32; 3] = [0, 5, 33];

fn main(rt: HostRuntime) -> io::Result<()> {
    check(&rt, "cases", &CASES, "")?;
    check(&rt, "words", &WORDS, ", every word")?;
    check(&rt, "widest", &WIDEST, ", widest")
}

// Compares the cases of a file. The lines name the answer that is due, and of what it is.
fn check(rt: &HostRuntime, path: &str, answers: &[u32], of: &str) -> io::Result<()> {
    let mut cases = ArrayVec::<u8, 524288>::new();
    check_records::read_into(rt, path, &mut cases);
    print_answers(rt, answers, of, |number| { cases::compare(&cases, number) })
}
