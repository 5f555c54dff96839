// Plays lists of calls against a picture and compares its answers, the lent buffer and the blocks with the row book of an unrelated
// program, reference/make_pictures.py. Writes for each call and answer that is due how many it compared and how many differ.
#![tactic(auto)]

mod call;
mod given;
mod kind;
mod list;
mod reading;
mod total;

ghost use Rattle.std.specs.Prelude.{◌≡◌, ◌/◌, min, length};
ghost use Rattle.check_pictures.specs.Calls.{lights_to};

use arrayvec::ArrayVec;
use check_answers::Answer;
use check_records::u16_at;
use kind::Kind;
use list::Counted;
use std::io;

const MOST_LIGHTS: usize = 32768;

// The numbers of the answers that the data have of each kind of call; a list begins with one that is accepted.
const OPEN: [u32; 5] = [0, 21, 1, 2, 3];

const ROW: [u32; 5] = [0, 22, 23, 4, 5];

const CLOSE: [u32; 3] = [0, 22, 24];

fn main(rt: HostRuntime) -> io::Result<()> {
    let mut bytes = ArrayVec::<u8, 65536>::new();
    check_records::read_into(&rt, "lights", &mut bytes);
    let lights = decode(&bytes);
    let mut calls = ArrayVec::<u8, 655360>::new();
    check_records::read_into(&rt, "calls", &mut calls);
    let begun = Counted {
        kind: Kind::New,
        answer: 0,
    };
    list::compare(&calls, &lights, begun).print(&rt, "new:")?;
    compare(&rt, &calls, &lights, Kind::Open, &OPEN)?;
    compare(&rt, &calls, &lights, Kind::Row, &ROW)?;
    compare(&rt, &calls, &lights, Kind::Close, &CLOSE)?;
    let mut totals = ArrayVec::<u8, 16384>::new();
    check_records::read_into(&rt, "totals", &mut totals);
    total::compare(&totals).print(&rt, "totals:")
}

// The lights of the file 'lights', each of 2 bytes, of which each row is given a part.
#[tactic(auto, unfolding(crate::specs::Calls::lights_to))]
fn decode(bytes: &[u8]) -> ArrayVec<u16, MOST_LIGHTS>
    ensures { result.items ≡ lights_to bytes.now (min MOST_LIGHTS (length bytes.now / 2)) }
{
    let mut lights = ArrayVec::new();
    for i in 0..MOST_LIGHTS.min(bytes.len() / 2) {
        lights.push(u16_at(bytes, 2 * i));
    }
    lights
}

// Compares the calls of a kind, by the answer that is due.
fn compare(
    rt: &HostRuntime,
    calls: &[u8],
    lights: &[u16],
    kind: Kind,
    answers: &[u32],
) -> io::Result<()> {
    for number in answers {
        let answer = *number;
        let tally = list::compare(calls, lights, Counted { kind, answer });
        println!(rt; "{kind} {}: {tally}", Answer(answer))?;
    }
    Ok(())
}
