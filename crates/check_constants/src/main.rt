// Compares constant luminance with the data of an unrelated program, reference/make_constants.py, and writes for each file how many
// answers it compared and how many differ.
#![tactic(auto)]

mod codes;
mod fields;
mod words;

use arrayvec::ArrayVec;
use std::io;

// A file of so many bytes or more is not read.
const MOST: usize = 262144;

fn main(rt: HostRuntime) -> io::Result<()> {
    check_words(&rt, "words", "words")?;
    check_codes(&rt, "codes", "codes")?;
    check_words(&rt, "words_refused", "words refused")?;
    check_codes(&rt, "codes_refused", "codes refused")
}

// A function for each comparison: two lines, which a closure would not shorten.
fn check_words(rt: &HostRuntime, file: &str, check: &str) -> io::Result<()> {
    let mut records = ArrayVec::<u8, MOST>::new();
    check_records::read_into(rt, file, &mut records);
    words::compare(&records).print(rt, check)
}

fn check_codes(rt: &HostRuntime, file: &str, check: &str) -> io::Result<()> {
    let mut records = ArrayVec::<u8, MOST>::new();
    check_records::read_into(rt, file, &mut records);
    codes::compare(&records).print(rt, check)
}
