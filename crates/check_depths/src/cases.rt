// The cases of a file: a block, a target and a lent buffer, and what changing the block's depth has to give.
ghost use Rattle.std.specs.Prelude.{◌≡◌, ◌+◌, ◌<◌, ◌≤◌, length, MatchOption};
ghost use Rattle.check_depths.specs.Cases.{case_at, size_of, size_at, answered, met, case_tallied, CasesCompared};

use crate::buffer;
use check_answers::number_of;
use check_records::{Tally, begin_alike, u16_at, u32_at};

// What stands before a case's block. The answer is a number of the data's, which our refusals' numbers are compared with; values
// stand beside it in a refused case too, which has two lengths by which its size is known.
#[derive(Clone, Copy)]
struct Case {
    target: u32,
    room: u16,
    answer: u32,
    length: u16,
    due: u16,
}

// Compares the cases in which the answer of this number, one of the data's, is due. A case that is cut off differs.
pub fn compare(cases: &[u8], number: u32) -> Tally
    ensures { CasesCompared cases.now number result }
{
    let mut tally = Tally::NONE;
    let mut at = 0;
    // No `for`: each case is as long as its own numbers say. Over a trait of cases, which check_blocks could share, it would be
    // longer.
    while let Some(case) = Case::at(cases, at) {
        let size = case.size();
        tally = case.tallied(tally, &cases[at + 12..at + size], number);
        at += size;
    }
    tally.ended(cases.len() - at)
}

impl Case {
    // The case at a place, if it is there whole. check_blocks has such a function, of other numbers.
    fn at(cases: &[u8], at: usize) -> Option<Case>
        requires { at ≤ length cases.now }
        ensures { MatchOption result (length cases.now < at + size_at cases.now at) (λ case. (case ≡ case_at cases.now at) × (at + size_at cases.now at ≤ length cases.now)) }
    {
        if cases.len() - at < 12 {
            return None;
        }
        let case = Case {
            target: u32_at(cases, at),
            room: u16_at(cases, at + 4),
            answer: u32::from(u16_at(cases, at + 6)),
            length: u16_at(cases, at + 8),
            due: u16_at(cases, at + 10),
        };
        if at + case.size() > cases.len() {
            return None;
        }
        Some(case)
    }

    // The bytes of the case: the numbers, the block and the new block.
    fn size(self) -> usize
        ensures { (result ≡ size_of self) × (result ≤ 262144) }
    {
        12 + self.length as usize + self.due as usize
    }

    // The case counts where the answer in question is due. check_blocks has the same of its cases, whose is_met is another.
    fn tallied(self, tally: Tally, bytes: &[u8], number: u32) -> Tally
        requires { self.length ≤ length bytes.now }
        ensures { result ≡ case_tallied self bytes.now number tally }
    {
        if self.answer == number {
            tally.with(self.is_met(bytes))
        } else {
            tally
        }
    }

    // Changes the case's block, which stands at the front of bytes, before the new block that is due. The buffers have room for any
    // case.
    fn is_met(self, bytes: &[u8]) -> bool
        requires { self.length ≤ length bytes.now }
        ensures { result ≡ met self bytes.now }
    {
        // Arrays and no Vec: a Vec would make each function above answer for memory.
        let mut lent = [0; 65536];
        let mut due = [0; 65536];
        let (block, new) = bytes.split_at(self.length as usize);
        let room = self.room as usize;
        self.is_answered(block, new, &mut lent[..room], &mut due[..room])
    }

    // Whether the answer is the case's, and the lent buffer is left as a buffer with the new block at its front: what lies beyond it
    // stays. A new block for which there is no room differs.
    fn is_answered(self, block: &[u8], new: &[u8], lent: &mut [u8], due: &mut [u8]) -> bool
        requires { length lent.old ≡ length due.old }
        ensures { result ≡ answered self block.now new.now (length lent.old) }
    {
        let room = lent.len();
        buffer::fill(lent);
        buffer::fill(due);
        if new.len() > room {
            return false;
        }
        due[..new.len()].copy_from_slice(new);
        let answer = depth::change_depth(self.target, block, lent);
        (number_of(&answer) == self.answer) & begin_alike(lent, due, room)
    }
}
