// What a lent buffer holds before a call.
ghost use Rattle.std.specs.Prelude.{◌≡◌, length};
ghost use Rattle.check_depths.specs.Cases.{before, filled};

// A byte of its own for each of 151 places, so that bytes which move show. No field of a block has such a high byte.
fn before(place: usize) -> u8
    ensures { result ≡ before place }
{
    (100 + place % 151) as u8
}

// Puts it to each place. check_blocks has one of codes: by a closure for what stands at a place one function would be longer.
pub fn fill(lent: &mut [u8])
    ensures { lent.new ≡ filled (length lent.old) }
{
    for (i, place) in lent.iter_mut().enumerate() {
        *place = before(i);
    }
}
