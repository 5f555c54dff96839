// Codes to signals, against the file 'restored'.
ghost use Rattle.std.specs.Prelude.{◌≡◌, ◌/◌, ◌%◌, length};
ghost use Rattle.check_records.specs.Records.{ended};
ghost use Rattle.check_values.specs.Vectors.{is_restored, code_tallied, restored_to};

use crate::float::has_bits;
use crate::place::Place;
use crate::triple;
use check_records::{Tally, u32_at};
use systems::Codes;

// The bits of 0 and 1.
const ZERO: u32 = 0;

const ONE: u32 = 0x3f80_0000;

// The bits that three signals have to have.
#[derive(Clone, Copy)]
struct Bits {
    r: u32,
    g: u32,
    b: u32,
}

// Compares the signals of each code with its record, with the code as R', as G' and as B'.
// A loop of its own: it carries a place from record to record, which `compare` of check_records does not.
#[tactic(auto, unfolding(crate::specs::Vectors::restored_to, crate::specs::Vectors::place_at))]
pub fn compare(records: &[u8]) -> Tally
    ensures { result ≡ ended (restored_to records.now (length records.now / 4)) (length records.now % 4) }
{
    let mut tally = Tally::NONE;
    let mut place = Place::FIRST;
    for i in 0..records.len() / 4 {
        tally = compare_code(place, u32_at(records, 4 * i), tally);
        place = place.next();
    }
    tally.ended(records.len() % 4)
}

// The other two components are black and white.
#[tactic(auto, unfolding(crate::specs::Vectors::code_tallied))]
fn compare_code(place: Place, bits: u32, tally: Tally) -> Tally
    ensures { result ≡ code_tallied place bits tally }
{
    let system = place.system;
    let code = place.code;
    let black = check_records::black(system);
    let white = check_records::white(system);
    let as_r = Bits {
        r: bits,
        g: ZERO,
        b: ONE,
    };
    let as_g = Bits {
        r: ONE,
        g: bits,
        b: ZERO,
    };
    let as_b = Bits {
        r: ZERO,
        g: ONE,
        b: bits,
    };
    tally
        .with(is_restored(system, triple::codes(code, black, white), as_r))
        .with(is_restored(system, triple::codes(white, code, black), as_g))
        .with(is_restored(system, triple::codes(black, white, code), as_b))
}

fn is_restored(system: u32, codes: Codes, bits: Bits) -> bool
    ensures { result ≡ is_restored system codes bits }
{
    match signals::signals_of_codes(system, codes) {
        Ok(found) => {
            has_bits(found.r, bits.r) && has_bits(found.g, bits.g) && has_bits(found.b, bits.b)
        }
        Err(_) => false,
    }
}
