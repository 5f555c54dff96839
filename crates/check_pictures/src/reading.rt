// Reading the block of an accepted row.
ghost use Rattle.std.specs.Prelude.{◌≡◌};
ghost use Rattle.check_pictures.specs.Calls.{near, is_due, are_due, read_into, read_met};

use crate::call::Call;
use check_records::u16_at;

// Reads the block at the front of the buffer, where one is due, into a slice with no place to spare.
// An array and no Vec: a Vec would make each function above answer for memory.
pub fn is_met(call: Call, lent: &[u8], due: &[u8]) -> bool
    ensures { result ≡ read_met call lent.now due.now }
{
    let length = call.block_length();
    if length == 0 {
        return true;
    }
    if length > lent.len() {
        return false;
    }
    let mut codes = [0; 23040];
    let places = 3 * (call.samples as usize);
    if places > codes.len() {
        return false;
    }
    reads(call, &lent[..length], &mut codes[..places], due)
}

// Whether the block reads as this call's row, with the codes that are due.
fn reads(call: Call, block: &[u8], codes: &mut [u16], due: &[u8]) -> bool
    ensures { result ≡ read_into call block.now codes.old due.now }
{
    let answer = block::read_block(block, codes);
    call.is_read(answer) & are_due(codes, due)
}

fn are_due(codes: &[u16], due: &[u8]) -> bool
    ensures { result ≡ are_due codes.now due.now }
{
    codes
        .iter()
        .enumerate()
        .all(|(i, code)| is_due(*code, due, i))
}

// Whether a code is the one that is due at its place, and within one of its light's. A place has the light's code, then that one.
fn is_due(code: u16, due: &[u8], place: usize) -> bool
    ensures { result ≡ is_due code due.now place }
{
    if place >= due.len() / 4 {
        return false;
    }
    (code == u16_at(due, 4 * place + 2)) & is_near(code, u16_at(due, 4 * place))
}

fn is_near(code: u16, other: u16) -> bool
    ensures { result ≡ near code other }
{
    code.abs_diff(other) <= 1
}
