// How a call leaves a reader.
ghost use Rattle.std.specs.Prelude.{◌≡◌};
ghost use Rattle.check_readers.specs.Calls.{left_of, left_by};

use reader::Phase;

// A reader's phase, with the next row where it is reading.
#[derive(Clone, Copy, PartialEq, Eq)]
pub enum Left {
    Unopened,
    Reading(u16),
    Complete,
}

impl Left {
    // By the numbers of the data, none where a reader is never left so.
    pub fn of(phase: u16, next: u16) -> Option<Left>
        ensures { result ≡ left_of phase next }
    {
        match (phase, next) {
            (0, 0) => Some(Left::Unopened),
            (1, next) => Some(Left::Reading(next)),
            (2, 0) => Some(Left::Complete),
            _ => None,
        }
    }
}

impl From<Phase> for Left {
    ghost from_gives = { λ phase left. left ≡ left_by phase };

    fn from(phase: Phase) -> Left {
        match phase {
            Phase::Unopened => Left::Unopened,
            Phase::Reading(progress) => Left::Reading(progress.next),
            Phase::Complete => Left::Complete,
        }
    }
}
