// The calls on constant luminance. An answer's refusal is 0 where the call was accepted; where it was refused, its other numbers are 0.
ghost use Rattle.std.specs.Prelude.{◌≡◌};
ghost use Rattle.systems.specs.Refusals.{outcome};
ghost use Rattle.constant_luminance.specs.ConstantLuminance.{words_of_lights, codes_of_words};
ghost use Rattle.ferghulta.specs.Answers.{constant_words_answer, constant_codes_answer};

use crate::calls::NO_WORDS;
use crate::refusals::in_parts;
use constant_luminance::{Clipped, Lights, RedBlue};
use matrix::{Clips, Words};
use systems::Refusal;

#[repr(C)]
#[derive(Clone, Copy)]
pub struct ConstantWordsAnswer {
    pub refusal: u32,
    pub words: Words,
}

#[repr(C)]
#[derive(Clone, Copy)]
pub struct ConstantCodesAnswer {
    pub refusal: u32,
    pub clips: Clips,
    pub codes: RedBlue,
}

impl From<Result<Words, Refusal>> for ConstantWordsAnswer {
    ghost from_gives = { λ found answer. answer ≡ constant_words_answer (outcome found) };

    fn from(found: Result<Words, Refusal>) -> ConstantWordsAnswer {
        let (refusal, words) = in_parts(found, NO_WORDS);
        ConstantWordsAnswer { refusal, words }
    }
}

impl From<Result<Clipped, Refusal>> for ConstantCodesAnswer {
    ghost from_gives = { λ found answer. answer ≡ constant_codes_answer (outcome found) };

    fn from(found: Result<Clipped, Refusal>) -> ConstantCodesAnswer {
        let nothing = Clipped {
            codes: RedBlue { r: 0, b: 0 },
            clips: Clips::NONE,
        };
        let (refusal, Clipped { codes, clips }) = in_parts(found, nothing);
        ConstantCodesAnswer {
            refusal,
            clips,
            codes,
        }
    }
}

#[unsafe(no_mangle)]
pub extern "C" fn ferghulta_constant_words_of_lights(
    system: u32,
    lights: Lights,
) -> ConstantWordsAnswer
    ensures { result ≡ constant_words_answer (words_of_lights system lights) }
{
    constant_luminance::words_of_lights(system, lights).into()
}

#[unsafe(no_mangle)]
pub extern "C" fn ferghulta_constant_codes_of_words(
    system: u32,
    words: Words,
) -> ConstantCodesAnswer
    ensures { result ≡ constant_codes_answer (codes_of_words system words) }
{
    constant_luminance::codes_of_words(system, words).into()
}
