// The numbers of two bytes in the records, two or three at a time.
ghost use Rattle.std.specs.Prelude.{◌≡◌, ◌+◌, ◌≤◌, length};
ghost use Rattle.check_constants.specs.Cases.{lights_in, codes_in, clips_in};

use check_records::u16_at;
use constant_luminance::{Lights, RedBlue};
use matrix::Clips;

// R, G and B of light from a place on.
pub fn lights(records: &[u8], at: usize) -> Lights
    requires { at + 6 ≤ length records.now }
    ensures { result ≡ lights_in records.now at }
{
    Lights {
        r: u16_at(records, at),
        g: u16_at(records, at + 2),
        b: u16_at(records, at + 4),
    }
}

// R' and B' from a place on.
pub fn codes(records: &[u8], at: usize) -> RedBlue
    requires { at + 4 ≤ length records.now }
    ensures { result ≡ codes_in records.now at }
{
    RedBlue {
        r: u16_at(records, at),
        b: u16_at(records, at + 2),
    }
}

// The clips low and high from a place on.
pub fn clips(records: &[u8], at: usize) -> Clips
    requires { at + 4 ≤ length records.now }
    ensures { result ≡ clips_in records.now at }
{
    Clips {
        low: u16_at(records, at),
        high: u16_at(records, at + 2),
    }
}
