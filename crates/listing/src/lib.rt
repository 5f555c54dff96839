// The listing of a block that the program rowlist prints (document 01, 'Bench values', and request 2026-07).
#![tactic(auto)]

mod text;

ghost use Rattle.std.specs.Prelude.{◌≡◌, ◌++◌, ◌+◌, ◌*◌, ◌≤◌, length, take, IfSome, OnOk};
ghost use Rattle.std.specs.Io.KnownBytes.{Appends};
ghost use Rattle.arrayvec.specs.ArrayVec.{array_vec_len};
ghost use Rattle.systems.specs.Refusals.{refusal};
ghost use Rattle.listing.specs.Listing.{clips_end, header_line, lines_to, refused_line, listing};
ghost use Rattle.listing.specs.Inner.{triple_at};

use arrayvec::ArrayVec;
use block::Header;
use matrix::Clips;
use std::io;
use std::io::{Read, Write};
use systems::{Codes, Refusal};
use text::{ROOM, Text};

// One byte more than the longest block has.
const MOST: usize = 46090;

// Lists the block that the input holds. Its first 46090 bytes count.
pub fn list<R: Read, W: Write>(input: &mut R, output: &mut W) -> io::Result<()>
    ensures { OnOk result (IfSome (R.remaining input.old)
        (λ xs. Appends (W.contents output.old) (W.contents output.new) (listing (take 46090 xs)))) }
{
    let mut bytes = ArrayVec::<u8, MOST>::new();
    // Made before the reading: behind it the compiler would clear it twice.
    let mut text = Text::new();
    io::copy(&mut input.take(MOST as u64), &mut bytes)?;
    put_listing(bytes.as_slice(), &mut text);
    output.write_all(text.as_slice())
}

// Puts the listing of a block.
fn put_listing(bytes: &[u8], text: &mut Text)
    requires { array_vec_len text.old ≡ 0 }
    ensures { text.new.items ≡ text.old.items ++ listing bytes.now }
{
    let mut codes = [0u16; 23040];
    match block::read_block(bytes, &mut codes) {
        Ok(header) => put_row(header, &codes, text),
        Err(refusal) => put_refusal(refusal, text),
    }
}

#[tactic(auto, unfolding(crate::specs::Listing::refused_line))]
fn put_refusal(why: Refusal, text: &mut Text)
    requires { array_vec_len text.old + 84 ≤ ROOM }
    ensures { text.new.items ≡ text.old.items ++ refused_line (refusal why) }
{
    text::put_field(b"refused ", why.number(), text);
    text.push(b'\n');
}

// Puts the header, and a line for each sample.
fn put_row(header: Header, codes: &[u16], text: &mut Text)
    requires room { array_vec_len text.old + 84 + 18 * header.samples ≤ ROOM }
    requires codes { 3 * header.samples ≤ length codes.now }
    ensures { text.new.items ≡ text.old.items ++ (header_line header ++ lines_to (triple_at codes.now) header.samples) }
{
    put_header(header, text);
    put_lines(codes, usize::from(header.samples), text);
}

#[tactic(auto, unfolding(crate::specs::Listing::header_line))]
fn put_header(header: Header, text: &mut Text)
    requires { array_vec_len text.old + 84 ≤ ROOM }
    ensures items { text.new.items ≡ text.old.items ++ header_line header }
    ensures short { array_vec_len text.new ≤ array_vec_len text.old + 84 }
{
    let Header { row, samples, .. } = header;
    text::put_field(b"system ", header.system.number(), text);
    text::put_field(b" row ", u32::from(row), text);
    text::put_field(b" samples ", u32::from(samples), text);
    put_clips(header.clips, text);
}

// Puts the components clipped low and high, and ends the line.
#[tactic(auto, unfolding(crate::specs::Listing::clips_end))]
fn put_clips(clips: Clips, text: &mut Text)
    requires { array_vec_len text.old + 32 ≤ ROOM }
    ensures items { text.new.items ≡ text.old.items ++ clips_end clips }
    ensures short { array_vec_len text.new ≤ array_vec_len text.old + 32 }
{
    let Clips { low, high } = clips;
    text::put_field(b" low ", u32::from(low), text);
    text::put_field(b" high ", u32::from(high), text);
    text.push(b'\n');
}

// Puts R, G and B of each sample, a line each.
#[tactic(auto, unfolding(crate::specs::Listing::lines_to))]
fn put_lines(codes: &[u16], samples: usize, text: &mut Text)
    requires room { array_vec_len text.old + 18 * samples ≤ ROOM }
    requires codes { 3 * samples ≤ length codes.now }
    ensures { text.new.items ≡ text.old.items ++ lines_to (triple_at codes.now) samples }
{
    for i in 0..samples {
        text::put_line(triple_at(codes, i), text);
    }
}

// R, G and B of sample i.
fn triple_at(codes: &[u16], i: usize) -> Codes
    requires { 3 * i + 3 ≤ length codes.now }
    ensures { result ≡ triple_at codes.now i }
{
    Codes {
        r: codes[3 * i],
        g: codes[3 * i + 1],
        b: codes[3 * i + 2],
    }
}
