// The codes that 'spans' and 'restored' have a record for, in the order of the records.
ghost use Rattle.std.specs.Prelude.{◌≡◌, ◌*◌, ◌==◌};
ghost use Rattle.check_records.specs.Records.{scale_of};
ghost use Rattle.check_values.specs.Vectors.{next_place};

use check_records::{black, white};

// A nominal code of a system.
#[derive(Clone, Copy)]
pub struct Place {
    pub system: u32,
    pub code: u16,
}

impl Place {
    pub const FIRST: Place = Place {
        system: 1,
        code: 16,
    };

    // The next code: the next system's black after white.
    pub fn next(self) -> Place
        ensures { result ≡ next_place self }
    {
        let system = self.system;
        let code = self.code;
        if code < white(system) {
            return Place {
                system,
                code: code + 1,
            };
        }
        let next = system.wrapping_add(1);
        Place {
            system: next,
            code: black(next),
        }
    }

    pub fn is_black(self) -> bool
        ensures { result ≡ (self.code == 16 * scale_of self.system) }
    {
        self.code == black(self.system)
    }
}
