// Compares the conversion with rows that zimg made, which reference/zimg_rows.c describes. For each system it writes how many of
// zimg's words and codes differ from ours, how many by more than one, and in how many samples a component of ours was clipped.
#![tactic(auto)]

mod comparison;
mod nearness;
mod sample;

use arrayvec::ArrayVec;
use check_records::Tally;
use std::io;
use std::rt::Files;

// A file of so many bytes or more is not read.
const MOST: usize = 131072;

fn main(rt: HostRuntime) -> io::Result<()> {
    check(&rt, 1, "system1")?;
    check(&rt, 2, "system2")?;
    check(&rt, 3, "system3")?;
    check(&rt, 4, "system4")
}

fn check(rt: &(impl Files + Print), system: u32, name: &str) -> io::Result<()> {
    let mut records = ArrayVec::<u8, MOST>::new();
    check_records::read_into(rt, name, &mut records);
    let found = comparison::compare(system, &records);
    print(rt, system, found.words.same, "words")?;
    print(rt, system, found.words.near, "words within one")?;
    print(rt, system, found.codes.same, "codes")?;
    print(rt, system, found.codes.near, "codes within one")?;
    print(rt, system, found.clipped, "samples unclipped")
}

// Writes a line such as 'system 1 words 24000 compared, 3 differ'.
fn print(rt: &impl Print, system: u32, tally: Tally, check: &str) -> io::Result<()> {
    println!(rt; "system {system} {check} {tally}")
}
