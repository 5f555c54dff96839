// The cases of the file 'cases': a block and a lent slice, and what reading the block has to give.
ghost use Rattle.std.specs.Prelude.{◌≡◌, ◌+◌, ◌<◌, ◌≤◌, length, MatchOption};
ghost use Rattle.check_blocks.specs.Cases.{case_at, size_of, size_at, answered, met, case_tallied, CasesCompared};

use crate::slice;
use check_answers::{Due, agrees};
use check_records::{Tally, u16_at};

// What stands before a case's block. The answer is a number of the data's, which our refusals' numbers are compared with; values
// stand beside it in a refused case too, which has a length and a count by which its size is known.
#[derive(Clone, Copy)]
struct Case {
    places: u16,
    answer: u32,
    length: u16,
    due: Due,
}

// Compares the cases in which the answer of this number, one of the data's, is due. A case that is cut off differs.
pub fn compare(cases: &[u8], number: u32) -> Tally
    ensures { CasesCompared cases.now number result }
{
    let mut tally = Tally::NONE;
    let mut at = 0;
    // No `for`: each case is as long as its own numbers say. Over a trait of cases, which check_depths could share, it would be
    // longer.
    while let Some(case) = Case::at(cases, at) {
        let size = case.size();
        tally = case.tallied(tally, &cases[at + 16..at + size], number);
        at += size;
    }
    tally.ended(cases.len() - at)
}

impl Case {
    // The case at a place, if it is there whole. check_depths has such a function, of other numbers.
    fn at(cases: &[u8], at: usize) -> Option<Case>
        requires { at ≤ length cases.now }
        ensures { MatchOption result (length cases.now < at + size_at cases.now at) (λ case. (case ≡ case_at cases.now at) × (at + size_at cases.now at ≤ length cases.now)) }
    {
        if cases.len() - at < 16 {
            return None;
        }
        let case = Case {
            places: u16_at(cases, at),
            answer: u32::from(u16_at(cases, at + 2)),
            length: u16_at(cases, at + 4),
            due: Due::at(cases, at + 6),
        };
        if at + case.size() > cases.len() {
            return None;
        }
        Some(case)
    }

    // The bytes of the case: the numbers, the block and the codes.
    fn size(self) -> usize
        ensures { (result ≡ size_of self) × (result ≤ 524288) }
    {
        16 + self.length as usize + 6 * (self.due.samples as usize)
    }

    // The case counts where the answer in question is due. check_depths has the same of its cases, whose is_met is another.
    fn tallied(self, tally: Tally, bytes: &[u8], number: u32) -> Tally
        requires { self.length ≤ length bytes.now }
        ensures { result ≡ case_tallied self bytes.now number tally }
    {
        if self.answer == number {
            tally.with(self.is_met(bytes))
        } else {
            tally
        }
    }

    // Reads the case's block, which stands at the front of bytes, before the codes that are due. The slice has room for any number
    // of places.
    fn is_met(self, bytes: &[u8]) -> bool
        requires { self.length ≤ length bytes.now }
        ensures { result ≡ met self bytes.now }
    {
        // An array and no Vec: a Vec would make each function above answer for memory.
        let mut lent = [0; 65536];
        let (block, codes) = bytes.split_at(self.length as usize);
        self.is_answered(block, codes, &mut lent[..self.places as usize])
    }

    // Whether the answer is the case's, the front of the slice has the codes and what lies beyond them stays.
    fn is_answered(self, block: &[u8], codes: &[u8], lent: &mut [u16]) -> bool
        ensures { result ≡ answered self block.now codes.now (length lent.old) }
    {
        slice::fill(lent);
        let answer = block::read_block(block, lent);
        agrees(answer, self.answer, self.due) & slice::begins_with(lent, codes)
    }
}
