// Lists each input of data/, which reference/make_listings.py makes, as rowlist does, each under its file's name.
#![tactic(auto)]

use std::rt::Files;
use std::{fs, io};

const NAMES: [&str; 16] = [
    "grey", "clipped", "low", "high", "both", "system2", "system3", "wide", "empty", "system",
    "word", "end", "count", "row", "after", "long",
];

fn main(rt: HostRuntime) -> io::Result<()> {
    for name in NAMES {
        list(&rt, name)?;
    }
    Ok(())
}

// A file that does not open is named on standard error, and the others are still listed.
fn list(rt: &(impl Files + Print + Eprint), name: &str) -> io::Result<()> {
    println!(rt; "{name}:")?;
    match fs::open(rt, name) {
        Ok(mut file) => listing::list(&mut file, &mut io::writer(rt)),
        Err(e) => eprintln!(rt; "{name}: {e}"),
    }
}
