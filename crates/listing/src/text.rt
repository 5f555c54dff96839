// Text that is made whole before it is written, piece after piece. Each function appends its piece, for which the caller has left room.
ghost use Rattle.std.specs.Prelude.{◌≡◌, ◌+◌, ◌≤◌, ◌<◌, [], ◌∷◌, ◌++◌, length};
ghost use Rattle.arrayvec.specs.ArrayVec.{array_vec_len};
ghost use Rattle.listing.specs.Listing.{glyph, decimal, line};

use arrayvec::ArrayVec;
use systems::Codes;

// Room for any listing: a header takes 84 bytes at most, and each line of 7680 samples 18.
pub const ROOM: usize = 138324;

pub type Text = ArrayVec<u8, ROOM>;

// Puts a word and a number, which takes 10 digits at most.
#[tactic(auto, using(crate::proofs::Digits::word_digits))]
pub fn put_field(word: &[u8], number: u32, text: &mut Text)
    requires { array_vec_len text.old + length word.now + 10 ≤ ROOM }
    ensures items { text.new.items ≡ text.old.items ++ word.now ++ decimal number }
    ensures short { array_vec_len text.new ≤ array_vec_len text.old + length word.now + 10 }
{
    text.try_extend_from_slice(word).unwrap();
    put_decimal(number, text);
}

// Puts a line of R, G and B.
#[tactic(auto, unfolding(crate::specs::Listing::line))]
pub fn put_line(codes: Codes, text: &mut Text)
    requires { array_vec_len text.old + 18 ≤ ROOM }
    ensures items { text.new.items ≡ text.old.items ++ line codes }
    ensures short { array_vec_len text.new ≤ array_vec_len text.old + 18 }
{
    let Codes { r, g, b } = codes;
    put_code(r, b' ', text);
    put_code(g, b' ', text);
    put_code(b, b'\n', text);
}

// Puts a code and the byte after it.
#[tactic(auto, using(crate::proofs::Digits::code_digits))]
fn put_code(code: u16, end: u8, text: &mut Text)
    requires { array_vec_len text.old + 6 ≤ ROOM }
    ensures items { text.new.items ≡ text.old.items ++ decimal code ++ end ∷ [] }
    ensures short { array_vec_len text.new ≤ array_vec_len text.old + 6 }
{
    put_decimal(u32::from(code), text);
    text.push(end);
}

// Puts a number in decimal: from 10 on the digits of its tenth, then the last digit.
fn put_decimal(number: u32, text: &mut Text)
    requires { array_vec_len text.old + length (decimal number) ≤ ROOM }
    ensures items { text.new.items ≡ text.old.items ++ decimal number }
    ensures len { array_vec_len text.new ≡ array_vec_len text.old + length (decimal number) }
{
    if number < 10 {
        put_digit(number, text);
    } else {
        put_decimal(number / 10, text);
        put_digit(number % 10, text);
    }
}

fn put_digit(digit: u32, text: &mut Text)
    requires room { array_vec_len text.old + 1 ≤ ROOM }
    requires small { digit < 10 }
    ensures items { text.new.items ≡ text.old.items ++ glyph digit ∷ [] }
    ensures len { array_vec_len text.new ≡ array_vec_len text.old + 1 }
{
    text.push(b'0' + digit as u8);
}
