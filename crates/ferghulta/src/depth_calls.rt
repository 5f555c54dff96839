// The call that changes the depth of a block. It answers the refusal's number, or 0.
ghost use Rattle.std.specs.Prelude.{◌≡◌, length};
ghost use Rattle.depth.specs.Depth.{changing, buffer_after, heard};
ghost use Rattle.ferghulta.specs.Answers.{refusal_answer};

use crate::refusals::refusal_of;

#[unsafe(no_mangle)]
pub extern "C" fn ferghulta_change_depth(target: u32, bytes: &[u8], out: &mut [u8]) -> u32
    ensures value { result ≡ refusal_answer (heard (changing target bytes.now (length out.old))) }
    ensures out_after { out.new ≡ buffer_after target bytes.now out.old }
{
    refusal_of(depth::change_depth(target, bytes, out))
}
