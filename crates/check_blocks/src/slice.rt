// A lent slice: what it holds before a call, and whether the call wrote to its front alone.
ghost use Rattle.std.specs.Prelude.{length, ◌≡◌};
ghost use Rattle.check_blocks.specs.Cases.{before, filled, due, are_due};

use check_records::u16_at;

// What stands at a place before the call. No system has such a code up to place 25535.
fn before(place: usize) -> u16
    ensures { result ≡ before place }
{
    (40000 + place % 25536) as u16
}

// Puts it to each place. check_depths has one of bytes: by a closure for what stands at a place one function would be longer.
pub fn fill(lent: &mut [u16])
    ensures { lent.new ≡ filled (length lent.old) }
{
    for (i, place) in lent.iter_mut().enumerate() {
        *place = before(i);
    }
}

// Whether the slice has these codes at its front, each 2 bytes, and beyond them what it held before.
pub fn begins_with(lent: &[u16], codes: &[u8]) -> bool
    ensures { result ≡ are_due lent.now codes.now }
{
    lent.iter()
        .enumerate()
        .all(|(i, code)| *code == due(codes, i))
}

// The code at a place, or past the codes what stood there before.
fn due(codes: &[u8], place: usize) -> u16
    ensures { result ≡ due codes.now place }
{
    if place < codes.len() / 2 {
        u16_at(codes, 2 * place)
    } else {
        before(place)
    }
}
