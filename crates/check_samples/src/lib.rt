// What the programs that compare words and codes with data have in common: the triples in their records.
#![tactic(auto)]

ghost use Rattle.std.specs.Prelude.{◌+◌, ◌≡◌, ◌≤◌, length};
ghost use Rattle.check_samples.specs.Samples.{words_in, codes_in};

use check_records::u16_at;
use matrix::Words;
use systems::Codes;

// Y', Cb and Cr from a place on.
pub fn words_at(records: &[u8], at: usize) -> Words
    requires { at + 6 ≤ length records.now }
    ensures { result ≡ words_in records.now at }
{
    Words {
        y: u16_at(records, at),
        cb: u16_at(records, at + 2),
        cr: u16_at(records, at + 4),
    }
}

// R', G' and B' from a place on.
pub fn codes_at(records: &[u8], at: usize) -> Codes
    requires { at + 6 ≤ length records.now }
    ensures { result ≡ codes_in records.now at }
{
    Codes {
        r: u16_at(records, at),
        g: u16_at(records, at + 2),
        b: u16_at(records, at + 4),
    }
}
