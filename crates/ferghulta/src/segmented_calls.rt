// The calls that move rows between progressive and segmented-frame order. They answer the refusal's number, or 0.
ghost use Rattle.std.specs.Prelude.{◌≡◌, length};
ghost use Rattle.segmented.specs.declared.Order.TheVariants.{Segmented, Progressive};
ghost use Rattle.segmented.specs.Segmented.{move_outcome, buffer_after};
ghost use Rattle.ferghulta.specs.Answers.{refusal_answer};

use crate::refusals::refusal_of;

#[unsafe(no_mangle)]
pub extern "C" fn ferghulta_to_segmented(progressive: &[u8], segmented: &mut [u8]) -> u32
    ensures value { result ≡ refusal_answer (move_outcome (length progressive.now) (length segmented.old)) }
    ensures segmented_after { segmented.new ≡ buffer_after Segmented progressive.now segmented.old }
{
    refusal_of(segmented::to_segmented(progressive, segmented))
}

#[unsafe(no_mangle)]
pub extern "C" fn ferghulta_to_progressive(segmented: &[u8], progressive: &mut [u8]) -> u32
    ensures value { result ≡ refusal_answer (move_outcome (length segmented.now) (length progressive.old)) }
    ensures progressive_after { progressive.new ≡ buffer_after Progressive segmented.now progressive.old }
{
    refusal_of(segmented::to_progressive(segmented, progressive))
}
