// Counts of the numbers that are the same, and of those that differ by one at most.
ghost use Rattle.std.specs.Prelude.{◌≡◌};
ghost use Rattle.check_zimg.specs.Samples.{nearer, off};

use check_records::Tally;

#[derive(Clone, Copy)]
pub struct Nearness {
    pub same: Tally,
    pub near: Tally,
}

impl Nearness {
    pub const NONE: Nearness = Nearness {
        same: Tally::NONE,
        near: Tally::NONE,
    };

    // One comparison more.
    #[tactic(auto, unfolding(crate::specs::Samples::nearer))]
    pub fn with(self, ours: u16, theirs: u16) -> Nearness
        ensures { result ≡ nearer self ours theirs }
    {
        let apart = ours.abs_diff(theirs);
        Nearness {
            same: self.same.with(apart == 0),
            near: self.near.with(apart <= 1),
        }
    }

    // A sample more whose three components we refuse, or which is cut off.
    #[tactic(auto, unfolding(crate::specs::Samples::off))]
    pub fn off(self) -> Nearness
        ensures { result ≡ off self }
    {
        Nearness {
            same: self.same.with(false).with(false).with(false),
            near: self.near.with(false).with(false).with(false),
        }
    }
}
