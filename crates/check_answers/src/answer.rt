// The numbers by which the data name an answer: 0 for an accepted call, else the refusal's.
ghost use Rattle.std.specs.Prelude.{◌≡◌, Some, cond, eqb, codes, ◌++◌};
ghost use Rattle.std.specs.Fmt.{decimal};
ghost use Rattle.systems.specs.Refusals.{outcome};
ghost use Rattle.check_answers.specs.Answers.{number_of};

use std::fmt;
use systems::Refusal;

// An answer by its number, as a line of a check names it: a number of the data's, which our refusals' numbers are compared with.
#[derive(Clone, Copy)]
pub struct Answer(pub u32);

impl fmt::Display for Answer {
    ghost output = { λ a. Some (cond (eqb a.0 0) (codes "accepted") (codes "refused " ++ decimal a.0)) };

    fn fmt<W: fmt::Write>(&self, f: &mut fmt::Formatter<W>) -> fmt::Result {
        match self.0 {
            0 => write!(f, "accepted"),
            number => write!(f, "refused {number}"),
        }
    }
}

pub fn number_of<T>(answer: &Result<T, Refusal>) -> u32
    ensures { result ≡ number_of (outcome answer.now) }
{
    match answer {
        Ok(_) => 0,
        Err(refusal) => refusal.number(),
    }
}
