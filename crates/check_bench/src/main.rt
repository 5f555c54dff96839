// The bench values of document 01, with those of request 2026-03 in their places, the two lamps of request 2026-04 and the words of
// request 2026-07, run through the public calls, a line each. proofs/Bench.antt has the starred ones as a theorem.
#![tactic(auto)]

use matrix::{Encoding, Words};
use signals::Signals;
use std::io;
use systems::Codes;

fn main(rt: HostRuntime) -> io::Result<()> {
    of_light(&rt, 1, 33)?;
    of_light(&rt, 1, 34)?;
    of_span(&rt, 1, 17)?;
    of_light(&rt, 1, 32768)?;
    of_light(&rt, 2, 32768)?;
    of_light(&rt, 4, 1186)?;
    of_light(&rt, 4, 1187)?;
    for system in 1..=4 {
        of_light(&rt, system, 0)?;
        of_light(&rt, system, 65535)?;
    }
    of_signal(&rt, 1, 0.5)?;
    of_signal(&rt, 2, 0.375)?;
    of_codes(&rt, 1, Encoding::Plain, [235, 16, 16])?;
    of_words(&rt, 1, [63, 102, 240])?;
    of_codes(&rt, 1, Encoding::Plain, [16, 16, 235])?;
    of_words(&rt, 1, [32, 240, 118])?;
    of_codes(&rt, 1, Encoding::Plain, [16, 235, 16])?;
    of_codes(&rt, 3, Encoding::Plain, [940, 64, 64])?;
    of_words(&rt, 1, [16, 240, 240])?;
    of_words(&rt, 1, [15, 128, 128])?;
    of_words(&rt, 1, [180, 1, 1])?;
    of_words(&rt, 1, [75, 254, 254])?;
    of_words(&rt, 1, [0, 128, 128])?;
    of_codes(&rt, 1, Encoding::Plain, [1, 1, 254])?;
    of_codes(&rt, 1, Encoding::Trim, [1, 1, 254])?;
    of_codes(&rt, 1, Encoding::Plain, [16, 16, 250])?;
    of_codes(&rt, 1, Encoding::Trim, [16, 16, 250])
}

fn of_light(rt: &impl Print, system: u32, light: u16) -> io::Result<()> {
    print!(rt; "system {system} light {light}: ")?;
    match light::code_of_light(system, light) {
        Ok(code) => println!(rt; "{code}"),
        Err(refusal) => println!(rt; "{refusal}"),
    }
}

fn of_span(rt: &impl Print, system: u32, code: u16) -> io::Result<()> {
    print!(rt; "system {system} span of {code}: ")?;
    match light::span_of_code(system, code) {
        Ok(span) => println!(rt; "{} to {}", span.least, span.greatest),
        Err(refusal) => println!(rt; "{refusal}"),
    }
}

// One signal in all three components.
fn of_signal(rt: &impl Print, system: u32, e: f32) -> io::Result<()> {
    print!(rt; "system {system} E' {e}: ")?;
    match signals::codes_of_signals(system, Signals { r: e, g: e, b: e }) {
        Ok(Codes { r, g, b }) => println!(rt; "{r} {g} {b}"),
        Err(refusal) => println!(rt; "{refusal}"),
    }
}

fn of_codes(rt: &impl Print, system: u32, encoding: Encoding, codes: [u16; 3]) -> io::Result<()> {
    let [r, g, b] = codes;
    let trimmed = match encoding {
        Encoding::Plain => "",
        Encoding::Trim => "trimmed ",
    };
    print!(rt; "system {system} {trimmed}codes {r} {g} {b}: ")?;
    match matrix::words_of_codes(system, encoding, Codes { r, g, b }) {
        Ok(limited) => {
            let Words { y, cb, cr } = limited.words;
            println!(rt; "{y} {cb} {cr} moved {}", limited.moved)
        }
        Err(refusal) => println!(rt; "{refusal}"),
    }
}

fn of_words(rt: &impl Print, system: u32, words: [u16; 3]) -> io::Result<()> {
    let [y, cb, cr] = words;
    print!(rt; "system {system} words {y} {cb} {cr}: ")?;
    match matrix::codes_of_words(system, Words { y, cb, cr }) {
        Ok(clipped) => {
            let Codes { r, g, b } = clipped.codes;
            println!(rt;
                "{r} {g} {b} low {} high {}",
                clipped.clips.low, clipped.clips.high
            )
        }
        Err(refusal) => println!(rt; "{refusal}"),
    }
}
