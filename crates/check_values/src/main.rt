// Compares the conversion with the data of an unrelated program, reference/make_values.py, and writes for each check how many
// answers it compared and how many differ.
#![tactic(auto)]

mod float;
mod lights;
mod place;
mod quantised;
mod refusals;
mod restored;
mod triple;

use arrayvec::ArrayVec;
use std::io;
use std::rt::Files;

// Files of so many bytes or more are not read: a record for each code, and signals.
const MOST_OF_CODES: usize = 65536;

const MOST_SIGNALS: usize = 524288;

fn main(rt: HostRuntime) -> io::Result<()> {
    check_spans(&rt)?;
    check_signals(&rt)?;
    check_restored(&rt)?;
    refusals::compare().print(&rt, "refusals")
}

fn check_spans(rt: &(impl Files + Print)) -> io::Result<()> {
    let mut spans = ArrayVec::<u8, MOST_OF_CODES>::new();
    check_records::read_into(rt, "spans", &mut spans);
    lights::compare_lights(&spans).print(rt, "lights")?;
    lights::compare_spans(&spans).print(rt, "spans")
}

fn check_signals(rt: &(impl Files + Print)) -> io::Result<()> {
    let mut signals = ArrayVec::<u8, MOST_SIGNALS>::new();
    check_records::read_into(rt, "signals", &mut signals);
    quantised::compare(&signals).print(rt, "signals")
}

fn check_restored(rt: &(impl Files + Print)) -> io::Result<()> {
    let mut restored = ArrayVec::<u8, MOST_OF_CODES>::new();
    check_records::read_into(rt, "restored", &mut restored);
    restored::compare(&restored).print(rt, "restored")
}
