// The comparison of a system's samples: our words of the codes that zimg was given beside its words, our codes of its words beside
// its codes; and none of ours is clipped, since codes that are one off nominal at most are video data.
ghost use Rattle.std.specs.Prelude.{◌≡◌};
ghost use Rattle.systems.specs.Refusals.{outcome};
ghost use Rattle.check_zimg.specs.Samples.{words_near, codes_near, unclipped, compared, ended, comparison_of};

use crate::nearness::Nearness;
use crate::sample;
use crate::sample::Sample;
use check_records::Tally;
use matrix::{Clipped, Clips, Encoding, Limited, Words};
use systems::{Codes, Refusal};

#[derive(Clone, Copy)]
pub struct Comparison {
    pub words: Nearness,
    pub codes: Nearness,
    pub clipped: Tally,
}

// Compares each sample of the records. A loop of its own: it has five tallies, and `compare` of check_records has one.
#[tactic(auto, unfolding(crate::specs::Samples::compared_to))]
pub fn compare(system: u32, records: &[u8]) -> Comparison
    ensures { result ≡ comparison_of system records.now }
{
    let mut found = Comparison::NONE;
    for i in 0..records.len() / sample::BYTES {
        found = found.with(system, sample::sample_at(system, records, i));
    }
    found.ended(records.len() % sample::BYTES)
}

impl Comparison {
    const NONE: Comparison = Comparison {
        words: Nearness::NONE,
        codes: Nearness::NONE,
        clipped: Tally::NONE,
    };

    // One sample more.
    #[tactic(auto, unfolding(crate::specs::Samples::compared))]
    fn with(self, system: u32, sample: Sample) -> Comparison
        ensures { result ≡ compared system self sample }
    {
        let words = matrix::words_of_codes(system, Encoding::Plain, sample.given);
        let codes = matrix::codes_of_words(system, sample.words);
        Comparison {
            words: with_words(self.words, words, sample.words),
            codes: with_codes(self.codes, codes, sample.codes),
            clipped: self.clipped.with(is_unclipped(codes)),
        }
    }

    // The end of the records, of which so many bytes are left: a sample that is cut off differs.
    #[tactic(auto, unfolding(crate::specs::Samples::ended))]
    fn ended(self, left: usize) -> Comparison
        ensures { result ≡ ended self left }
    {
        if left == 0 {
            return self;
        }
        Comparison {
            words: self.words.off(),
            codes: self.codes.off(),
            clipped: self.clipped.with(false),
        }
    }
}

// Words and codes have a function each: their components have names of their own, and as arrays of three they read no plainer.
fn with_words(found: Nearness, ours: Result<Limited, Refusal>, theirs: Words) -> Nearness
    ensures { result ≡ words_near (outcome ours) found theirs }
{
    match ours {
        Ok(ours) => found
            .with(ours.words.y, theirs.y)
            .with(ours.words.cb, theirs.cb)
            .with(ours.words.cr, theirs.cr),
        Err(_) => found.off(),
    }
}

fn with_codes(found: Nearness, ours: Result<Clipped, Refusal>, theirs: Codes) -> Nearness
    ensures { result ≡ codes_near (outcome ours) found theirs }
{
    match ours {
        Ok(ours) => found
            .with(ours.codes.r, theirs.r)
            .with(ours.codes.g, theirs.g)
            .with(ours.codes.b, theirs.b),
        Err(_) => found.off(),
    }
}

fn is_unclipped(ours: Result<Clipped, Refusal>) -> bool
    ensures { result ≡ unclipped (outcome ours) }
{
    match ours {
        Ok(ours) => ours.clips == Clips::NONE,
        Err(_) => false,
    }
}
