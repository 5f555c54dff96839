// Compares words of codes and codes of words with the data of an unrelated program, reference/make_triples.py, and writes for each
// file how many answers it compared and how many differ.
#![tactic(auto)]

mod codes;
mod grid;
mod words;

use arrayvec::ArrayVec;
use matrix::Encoding;
use std::io;
use std::rt::Files;

// Files of so many bytes or more are not read: words, codes, and refusals.
const MOST_WORDS: usize = 262144;

const MOST_CODES: usize = 524288;

const MOST_REFUSALS: usize = 4096;

fn main(rt: HostRuntime) -> io::Result<()> {
    check_grid(&rt)?;
    check_words(&rt, Encoding::Plain, "words", "words")?;
    check_words(&rt, Encoding::Trim, "trimmed", "words trimmed")?;
    // The answers with the guard before trim: those with a colour word beyond video data differ.
    check_words(
        &rt,
        Encoding::Trim,
        "formerly_trimmed",
        "words formerly trimmed",
    )?;
    check_codes(&rt)?;
    check_refusals(&rt)
}

// Not inlined, as check_words is not: else their arrays would stand on the stack beside that of the codes.
#[inline(never)]
fn check_grid(rt: &(impl Files + Print)) -> io::Result<()> {
    let mut grid = ArrayVec::<u8, MOST_WORDS>::new();
    check_records::read_into(rt, "grid", &mut grid);
    grid::compare(&grid).print(rt, "grid")
}

#[inline(never)]
fn check_words(
    rt: &(impl Files + Print),
    encoding: Encoding,
    file: &str,
    check: &str,
) -> io::Result<()> {
    let mut words = ArrayVec::<u8, MOST_WORDS>::new();
    check_records::read_into(rt, file, &mut words);
    words::compare(encoding, &words).print(rt, check)
}

fn check_codes(rt: &(impl Files + Print)) -> io::Result<()> {
    let mut codes = ArrayVec::<u8, MOST_CODES>::new();
    check_records::read_into(rt, "codes", &mut codes);
    codes::compare(&codes).print(rt, "codes")
}

fn check_refusals(rt: &(impl Files + Print)) -> io::Result<()> {
    let mut words = ArrayVec::<u8, MOST_REFUSALS>::new();
    check_records::read_into(rt, "words_refused", &mut words);
    words::compare(Encoding::Plain, &words).print(rt, "words refused")?;
    words::compare(Encoding::Trim, &words).print(rt, "trimmed refused")?;
    let mut codes = ArrayVec::<u8, MOST_REFUSALS>::new();
    check_records::read_into(rt, "codes_refused", &mut codes);
    codes::compare(&codes).print(rt, "codes refused")
}
