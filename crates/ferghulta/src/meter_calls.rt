// The calls on a meter, which crosses as it is, whatever its bytes are. A refused read gives back the meter that it was given.
// A metered read calls the exported reading, so that block::read_block keeps one caller here and is compiled into it.
ghost use Rattle.std.specs.Prelude.{◌≡◌, length};
ghost use Rattle.block.specs.Read.{header_of, slice_after};
ghost use Rattle.meter.specs.Meter.{figures};
ghost use Rattle.ferghulta.specs.Answers.{metered_answer};

use crate::calls::{BlockAnswer, ferghulta_read_block};
use meter::{Figures, Meter};

#[repr(C)]
#[derive(Clone, Copy)]
pub struct MeteredAnswer {
    pub meter: Meter,
    pub block: BlockAnswer,
}

#[unsafe(no_mangle)]
#[tactic(auto, using(block::proofs::Answerable::reading_answerable, crate::proofs::Entering::accepted_enters))]
pub extern "C" fn ferghulta_read_metered(
    meter: Meter,
    bytes: &[u8],
    codes: &mut [u16],
) -> MeteredAnswer
    ensures value { result ≡ metered_answer meter (header_of bytes.now (length codes.old)) }
    ensures codes_after { codes.new ≡ slice_after bytes.now codes.old }
{
    let block = ferghulta_read_block(bytes, codes);
    let after = if block.refusal == 0 {
        meter.with_row(block.clips)
    } else {
        meter
    };
    MeteredAnswer {
        meter: after,
        block,
    }
}

#[unsafe(no_mangle)]
pub extern "C" fn ferghulta_meter_figures(meter: Meter) -> Figures
    ensures { result ≡ figures meter }
{
    meter.figures()
}
