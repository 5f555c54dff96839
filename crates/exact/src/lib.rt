// Exact whole-number arithmetic: the rounding of document 01, 'Four systems', and the definitions and laws that every
// stage above shares.
#![tactic(auto)]

ghost use Rattle.std.specs.Prelude.{◌≡◌, ◌+◌, ◌%◌, ◌^◌, ◌<◌, pos, nat_abs, ◌<ℤ◌};
ghost use Rattle.std.specs.Int.Signed.{shr_z};
ghost use Rattle.exact.specs.Whole.{INT};
ghost use Rattle.exact.specs.Signed.{rounded};

// INT of top/bottom where bottom is even: half of it is whole, and nothing is below 0.
pub fn int_of(top: u32, bottom: u32) -> u32
    requires { (0 < bottom) × (bottom % 2 ≡ 0) × (top + bottom < 2 ^ 32) }
    ensures { result ≡ INT top bottom }
{
    (top + bottom / 2) / bottom
}

// INT of top/bottom, which may be below 0.
pub fn rounded(top: i64, bottom: i64) -> i64
    requires { (nat_abs top < 2 ^ 60) × (pos 0 <ℤ bottom) × (nat_abs bottom < 2 ^ 60) }
    ensures { result ≡ rounded record { top = top; bottom = nat_abs bottom } }
{
    floor(2 * top + bottom, 2 * bottom)
}

// A ratio rounded down, also below 0: one division and no branch, where `div_euclid` has a branch on the sign.
pub fn floor(top: i64, bottom: i64) -> i64
    requires { (nat_abs top < 2 ^ 62) × (pos 0 <ℤ bottom) × (nat_abs bottom < 2 ^ 62) }
    ensures { result ≡ shr_z top (nat_abs bottom) }
{
    top / bottom - i64::from(top % bottom < 0)
}
