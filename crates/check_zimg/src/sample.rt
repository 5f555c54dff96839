// The samples of a file: the R', G' and B' codes that zimg was given, and the record of what it made of them, Y', Cb, Cr, and R',
// G', B' of these words.
ghost use Rattle.std.specs.Prelude.{◌≡◌, ◌+◌, ◌*◌, ◌≤◌, length};
ghost use Rattle.check_zimg.specs.Samples.{level, grid_codes, sample_at};

use check_samples::{codes_at, words_at};
use matrix::Words;
use systems::Codes;

// A record's bytes.
pub const BYTES: usize = 12;

// Levels a side. check_triples has such a grid of 40 in system 1: steps of 219/39 and 219s/19 stay as the scripts have them.
const LEVELS: usize = 20;

#[derive(Clone, Copy)]
pub struct Sample {
    pub given: Codes,
    pub words: Words,
    pub codes: Codes,
}

// Sample i.
pub fn sample_at(system: u32, records: &[u8], i: usize) -> Sample
    requires { 12 * i + 12 ≤ length records.now }
    ensures { result ≡ sample_at system records.now i }
{
    Sample {
        given: grid_codes(system, i),
        words: words_at(records, BYTES * i),
        codes: codes_at(records, BYTES * i + 6),
    }
}

// The codes at a place of the grid, where B' changes fastest.
fn grid_codes(system: u32, place: usize) -> Codes
    ensures { result ≡ grid_codes system place }
{
    Codes {
        r: level(system, place / (LEVELS * LEVELS)),
        g: level(system, place / LEVELS),
        b: level(system, place),
    }
}

// The code of a level, which counts again from 0 after the last: 16s + 219s·i/19.
fn level(system: u32, i: usize) -> u16
    ensures { result ≡ level system i }
{
    let i = i % LEVELS;
    match system {
        1 => (16 + 219 * i / 19) as u16,
        2 | 3 => (64 + 876 * i / 19) as u16,
        _ => (256 + 3504 * i / 19) as u16,
    }
}
