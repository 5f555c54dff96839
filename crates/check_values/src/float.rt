// Floats by their bits.
ghost use Rattle.std.specs.Prelude.{◌≡◌, from_bits};
ghost use Rattle.std.specs.Float.{nan, binary32};
ghost use Rattle.check_values.specs.Vectors.{half, has_bits};

// The float with these bits. The language takes no NaN from bits, so each NaN's pattern gives the one NaN.
pub fn from_bits(bits: u32) -> f32
    ensures { result ≡ from_bits binary32 bits }
{
    let unsigned = bits % 0x8000_0000;
    if unsigned <= 0x7f80_0000 {
        f32::from_bits(bits)
    } else {
        not_a_number()
    }
}

// A function and no constant: the proof of `from_bits` cites its clause, which has a proof of its own.
pub fn not_a_number() -> f32
    ensures { result ≡ nan }
{
    f32::NAN
}

pub fn half() -> f32
    ensures { result ≡ half }
{
    0.5
}

// Whether x has these bits: a NaN has none, and a zero's sign counts.
pub fn has_bits(x: f32, bits: u32) -> bool
    ensures { result ≡ has_bits x bits }
{
    x == x && f32::to_bits(x) == bits
}
