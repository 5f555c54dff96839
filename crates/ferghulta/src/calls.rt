// The calls on single values and on blocks. An answer's refusal is 0 where the call was accepted; where it was refused, its other numbers are 0.
ghost use Rattle.std.specs.Prelude.{◌≡◌, length};
ghost use Rattle.systems.specs.Refusals.{outcome};
ghost use Rattle.light.specs.Light.{code_of_light, span_of_code};
ghost use Rattle.signals.specs.Signals.{signal_codes, code_signals};
ghost use Rattle.matrix.specs.declared.Encoding.TheVariants.{Plain, Trim};
ghost use Rattle.matrix.specs.Triples.{words_of_codes, codes_of_words};
ghost use Rattle.levels.specs.Levels.{level_of_code, level_of_difference};
ghost use Rattle.block.specs.Read.{header_of, slice_after};
ghost use Rattle.ferghulta.specs.Answers.{code_answer, span_answer, codes_answer, signals_answer, words_answer, decoded_answer, level_answer, block_answer};

use crate::refusals::in_parts;
use block::Header;
use levels::Level;
use light::Span;
use matrix::{Clipped, Clips, Encoding, Limited, Words};
use signals::Signals;
use systems::{Codes, Refusal};

#[repr(C)]
#[derive(Clone, Copy)]
pub struct CodeAnswer {
    pub refusal: u32,
    pub code: u16,
}

#[repr(C)]
#[derive(Clone, Copy)]
pub struct SpanAnswer {
    pub refusal: u32,
    pub span: Span,
}

#[repr(C)]
#[derive(Clone, Copy)]
pub struct CodesAnswer {
    pub refusal: u32,
    pub codes: Codes,
}

#[repr(C)]
#[derive(Clone, Copy)]
pub struct SignalsAnswer {
    pub refusal: u32,
    pub signals: Signals,
}

#[repr(C)]
#[derive(Clone, Copy)]
pub struct WordsAnswer {
    pub refusal: u32,
    pub moved: u32,
    pub words: Words,
}

#[repr(C)]
#[derive(Clone, Copy)]
pub struct DecodedAnswer {
    pub refusal: u32,
    pub clips: Clips,
    pub codes: Codes,
}

#[repr(C)]
#[derive(Clone, Copy)]
pub struct LevelAnswer {
    pub refusal: u32,
    pub level: Level,
}

#[repr(C)]
#[derive(Clone, Copy)]
pub struct BlockAnswer {
    pub refusal: u32,
    pub system: u32,
    pub clips: Clips,
    pub row: u16,
    pub samples: u16,
}

// What stands where a call was refused.
const NO_SPAN: Span = Span {
    least: 0,
    greatest: 0,
};

const NO_CODES: Codes = Codes { r: 0, g: 0, b: 0 };

const NO_SIGNALS: Signals = Signals {
    r: 0.0,
    g: 0.0,
    b: 0.0,
};

pub const NO_WORDS: Words = Words { y: 0, cb: 0, cr: 0 };

const NO_LEVEL: Level = Level {
    millivolts: 0,
    remainder: 0,
};

impl From<Result<u16, Refusal>> for CodeAnswer {
    ghost from_gives = { λ found answer. answer ≡ code_answer (outcome found) };

    fn from(found: Result<u16, Refusal>) -> CodeAnswer {
        let (refusal, code) = in_parts(found, 0);
        CodeAnswer { refusal, code }
    }
}

impl From<Result<Span, Refusal>> for SpanAnswer {
    ghost from_gives = { λ found answer. answer ≡ span_answer (outcome found) };

    fn from(found: Result<Span, Refusal>) -> SpanAnswer {
        let (refusal, span) = in_parts(found, NO_SPAN);
        SpanAnswer { refusal, span }
    }
}

impl From<Result<Codes, Refusal>> for CodesAnswer {
    ghost from_gives = { λ found answer. answer ≡ codes_answer (outcome found) };

    fn from(found: Result<Codes, Refusal>) -> CodesAnswer {
        let (refusal, codes) = in_parts(found, NO_CODES);
        CodesAnswer { refusal, codes }
    }
}

impl From<Result<Signals, Refusal>> for SignalsAnswer {
    ghost from_gives = { λ found answer. answer ≡ signals_answer (outcome found) };

    fn from(found: Result<Signals, Refusal>) -> SignalsAnswer {
        let (refusal, signals) = in_parts(found, NO_SIGNALS);
        SignalsAnswer { refusal, signals }
    }
}

impl From<Result<Limited, Refusal>> for WordsAnswer {
    ghost from_gives = { λ found answer. answer ≡ words_answer (outcome found) };

    fn from(found: Result<Limited, Refusal>) -> WordsAnswer {
        let nothing = Limited {
            words: NO_WORDS,
            moved: 0,
        };
        let (refusal, Limited { words, moved }) = in_parts(found, nothing);
        WordsAnswer {
            refusal,
            moved,
            words,
        }
    }
}

impl From<Result<Clipped, Refusal>> for DecodedAnswer {
    ghost from_gives = { λ found answer. answer ≡ decoded_answer (outcome found) };

    fn from(found: Result<Clipped, Refusal>) -> DecodedAnswer {
        let nothing = Clipped {
            codes: NO_CODES,
            clips: Clips::NONE,
        };
        let (refusal, Clipped { codes, clips }) = in_parts(found, nothing);
        DecodedAnswer {
            refusal,
            clips,
            codes,
        }
    }
}

// Not in_parts: the compiler puts its parts together in memory, which takes a third of the time of a call.
impl From<Result<Level, Refusal>> for LevelAnswer {
    ghost from_gives = { λ found answer. answer ≡ level_answer (outcome found) };

    fn from(found: Result<Level, Refusal>) -> LevelAnswer {
        match found {
            Ok(level) => LevelAnswer { refusal: 0, level },
            Err(refusal) => LevelAnswer {
                refusal: refusal.number(),
                level: NO_LEVEL,
            },
        }
    }
}

// A header has a system, so no header stands for a refused block.
impl From<Result<Header, Refusal>> for BlockAnswer {
    ghost from_gives = { λ found answer. answer ≡ block_answer (outcome found) };

    fn from(found: Result<Header, Refusal>) -> BlockAnswer {
        match found {
            Ok(h) => BlockAnswer {
                refusal: 0,
                system: h.system.number(),
                clips: h.clips,
                row: h.row,
                samples: h.samples,
            },
            Err(r) => BlockAnswer {
                refusal: r.number(),
                system: 0,
                clips: Clips::NONE,
                row: 0,
                samples: 0,
            },
        }
    }
}

#[unsafe(no_mangle)]
pub extern "C" fn ferghulta_code_of_light(system: u32, light: u16) -> CodeAnswer
    ensures { result ≡ code_answer (code_of_light system light) }
{
    light::code_of_light(system, light).into()
}

#[unsafe(no_mangle)]
pub extern "C" fn ferghulta_span_of_code(system: u32, code: u16) -> SpanAnswer
    ensures { result ≡ span_answer (span_of_code system code) }
{
    light::span_of_code(system, code).into()
}

#[unsafe(no_mangle)]
pub extern "C" fn ferghulta_codes_of_signals(system: u32, signals: Signals) -> CodesAnswer
    ensures { result ≡ codes_answer (signal_codes system signals) }
{
    signals::codes_of_signals(system, signals).into()
}

#[unsafe(no_mangle)]
pub extern "C" fn ferghulta_signals_of_codes(system: u32, codes: Codes) -> SignalsAnswer
    ensures { result ≡ signals_answer (code_signals system codes) }
{
    signals::signals_of_codes(system, codes).into()
}

#[unsafe(no_mangle)]
pub extern "C" fn ferghulta_words_of_codes(system: u32, codes: Codes) -> WordsAnswer
    ensures { result ≡ words_answer (words_of_codes system Plain codes) }
{
    matrix::words_of_codes(system, Encoding::Plain, codes).into()
}

#[unsafe(no_mangle)]
pub extern "C" fn ferghulta_trimmed_words_of_codes(system: u32, codes: Codes) -> WordsAnswer
    ensures { result ≡ words_answer (words_of_codes system Trim codes) }
{
    matrix::words_of_codes(system, Encoding::Trim, codes).into()
}

#[unsafe(no_mangle)]
pub extern "C" fn ferghulta_codes_of_words(system: u32, words: Words) -> DecodedAnswer
    ensures { result ≡ decoded_answer (codes_of_words system words) }
{
    matrix::codes_of_words(system, words).into()
}

#[unsafe(no_mangle)]
pub extern "C" fn ferghulta_level_of_code(system: u32, code: u16) -> LevelAnswer
    ensures { result ≡ level_answer (level_of_code system code) }
{
    levels::level_of_code(system, code).into()
}

#[unsafe(no_mangle)]
pub extern "C" fn ferghulta_level_of_difference(system: u32, word: u16) -> LevelAnswer
    ensures { result ≡ level_answer (level_of_difference system word) }
{
    levels::level_of_difference(system, word).into()
}

#[unsafe(no_mangle)]
pub extern "C" fn ferghulta_read_block(bytes: &[u8], codes: &mut [u16]) -> BlockAnswer
    ensures value { result ≡ block_answer (header_of bytes.now (length codes.old)) }
    ensures codes_after { codes.new ≡ slice_after bytes.now codes.old }
{
    block::read_block(bytes, codes).into()
}
