// Where the fields of a row block stand (document 01, 'Row block'); each number stands here once, as it stands there, which one
// function of a section's number would not show.
ghost use Rattle.std.specs.Prelude.{◌≡◌, ◌+◌, ◌*◌, ◌<◌};
ghost use Rattle.block.specs.Block.{size};

// The system is the first byte.
pub const SYSTEM: usize = 0;

pub const ROW_NUMBER: usize = 1;

// The count of the Y' section; those of the Cb and Cr sections follow the words of the section before.
pub const LUMA_COUNT: usize = 3;

pub fn cb_count(samples: usize) -> usize
    requires { samples < 65536 }
    ensures { result ≡ 5 + 2 * samples }
{
    5 + 2 * samples
}

pub fn cr_count(samples: usize) -> usize
    requires { samples < 65536 }
    ensures { result ≡ 7 + 4 * samples }
{
    7 + 4 * samples
}

// The bytes of the whole block.
pub fn size(samples: usize) -> usize
    requires { samples < 65536 }
    ensures { result ≡ size samples }
{
    9 + 6 * samples
}

// The words of sample i.
pub fn luma_word(i: usize) -> usize
    requires { i < 65536 }
    ensures { result ≡ 5 + 2 * i }
{
    5 + 2 * i
}

pub fn cb_word(samples: usize, i: usize) -> usize
    requires { (samples < 65536) × (i < 65536) }
    ensures { result ≡ 7 + 2 * samples + 2 * i }
{
    7 + 2 * samples + 2 * i
}

pub fn cr_word(samples: usize, i: usize) -> usize
    requires { (samples < 65536) × (i < 65536) }
    ensures { result ≡ 9 + 4 * samples + 2 * i }
{
    9 + 4 * samples + 2 * i
}
