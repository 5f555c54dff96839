// Words of the nominal codes on a grid of system 1, of which no rule moves one, against the file 'grid'.
ghost use Rattle.std.specs.Prelude.{◌+◌, ◌≡◌, ◌≤◌, length};
ghost use Rattle.matrix.specs.declared.Encoding.TheVariants.{Plain};
ghost use Rattle.matrix.specs.Triples.{words_of_codes};
ghost use Rattle.check_records.specs.Records.{tally_of};
ghost use Rattle.check_triples.specs.Cases.{level, grid_codes, grid_words, gives, grid_at};

use check_records::Tally;
use matrix::{Encoding, Words};
use systems::Codes;

// Levels a side. check_zimg has such a grid of 20 in each system: steps of 219/39 and 219s/19 stay as the scripts have them.
const LEVELS: usize = 40;

// Compares the words of each triple on the grid with its record.
pub fn compare(records: &[u8]) -> Tally
    ensures { result ≡ tally_of 3 grid_at records.now }
{
    check_records::compare(records.len(), 3, |at| {
        has_words(codes_at(at / 3), words_at(records, at))
    })
}

// The triple at a place of the grid, where B' changes fastest.
fn codes_at(place: usize) -> Codes
    ensures { result ≡ grid_codes place }
{
    Codes {
        r: level(place / (LEVELS * LEVELS)),
        g: level(place / LEVELS),
        b: level(place),
    }
}

// The code of a level, which counts again from 0 after the last.
fn level(i: usize) -> u16
    ensures { result ≡ level i }
{
    (16 + 219 * (i % LEVELS) / (LEVELS - 1)) as u16
}

fn words_at(records: &[u8], at: usize) -> Words
    requires { at + 3 ≤ length records.now }
    ensures { result ≡ grid_words records.now at }
{
    Words {
        y: u16::from(records[at]),
        cb: u16::from(records[at + 1]),
        cr: u16::from(records[at + 2]),
    }
}

fn has_words(codes: Codes, words: Words) -> bool
    ensures { result ≡ gives (words_of_codes 1 Plain codes) words }
{
    match matrix::words_of_codes(1, Encoding::Plain, codes) {
        Ok(found) => found.moved == 0 && found.words == words,
        Err(_) => false,
    }
}
