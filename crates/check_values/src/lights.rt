// Lights to codes and codes to spans, against the file 'spans'.
ghost use Rattle.std.specs.Prelude.{◌+◌, ◌≡◌, ◌/◌, ◌%◌, ◌≤◌, length};
ghost use Rattle.check_records.specs.Records.{tally_of, ended};
ghost use Rattle.check_values.specs.Vectors.{span_in, is_span, span_at, has_code, span_tallied, after, lights_to};

use crate::place::Place;
use check_records::{Tally, u16_at};
use light::Span;

// Compares the span of each code with its record.
// A loop of its own: it carries a place from record to record, which `compare` of check_records does not.
#[tactic(auto, unfolding(check_records::specs::Records::tally_to, crate::specs::Vectors::place_at))]
pub fn compare_spans(records: &[u8]) -> Tally
    ensures { result ≡ tally_of 4 span_at records.now }
{
    let mut tally = Tally::NONE;
    let mut place = Place::FIRST;
    for i in 0..records.len() / 4 {
        tally = tally.with(is_span(place, span_at(records, 4 * i)));
        place = place.next();
    }
    tally.ended(records.len() % 4)
}

// Compares the code of each light with the record whose span holds it. In each system the spans have to follow one another from
// light 0, so that each light is compared once.
// A loop of its own: it carries a place from record to record, which `compare` of check_records does not.
#[tactic(auto, unfolding(crate::specs::Vectors::lights_to, crate::specs::Vectors::first_at, crate::specs::Vectors::place_at))]
pub fn compare_lights(records: &[u8]) -> Tally
    ensures { result ≡ ended (lights_to records.now (length records.now / 4)) (length records.now % 4) }
{
    let mut tally = Tally::NONE;
    let mut place = Place::FIRST;
    let mut first = 0;
    for i in 0..records.len() / 4 {
        let span = span_at(records, 4 * i);
        tally = compare_span(place, first, span, tally);
        place = place.next();
        first = after(span, place);
    }
    tally.ended(records.len() % 4)
}

// Compares the lights from `first` to the span's greatest with the place's code. Where the span begins elsewhere, each differs.
#[tactic(auto, unfolding(crate::specs::Vectors::lights_tallied))]
fn compare_span(place: Place, first: u32, span: Span, tally: Tally) -> Tally
    ensures { result ≡ span_tallied place first span tally }
{
    let begins = u32::from(span.least) == first;
    let end = u32::from(span.greatest) + 1;
    let mut tally = tally;
    for light in first..end {
        tally = tally.with(begins & has_code(place, light as u16));
    }
    tally
}

// The light at which the span of the place after this span has to begin.
fn after(span: Span, next: Place) -> u32
    ensures { result ≡ after span next }
{
    if next.is_black() {
        0
    } else {
        u32::from(span.greatest) + 1
    }
}

fn span_at(records: &[u8], at: usize) -> Span
    requires { at + 4 ≤ length records.now }
    ensures { result ≡ span_in records.now at }
{
    Span {
        least: u16_at(records, at),
        greatest: u16_at(records, at + 2),
    }
}

fn is_span(place: Place, span: Span) -> bool
    ensures { result ≡ is_span place span }
{
    light::span_of_code(place.system, place.code) == Ok(span)
}

fn has_code(place: Place, light: u16) -> bool
    ensures { result ≡ has_code place light }
{
    light::code_of_light(place.system, light) == Ok(place.code)
}
