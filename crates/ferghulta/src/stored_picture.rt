// A picture as a caller in C stores it, in twelve bytes.
ghost use Rattle.std.specs.Prelude.{◌≡◌};
ghost use Rattle.ferghulta.specs.Stored.{stored, unopened, open_phase, phase_of, picture_of};

use picture::{Opened, Phase, Picture};
use systems::System;

// phase, a number as the C interface has it: 0 fresh, 1 open, 2 closed. The rest is 0 unless it is open, but for the bytes of a closed picture.
#[repr(C)]
#[derive(Clone, Copy)]
pub struct StoredPicture {
    pub phase: u8,
    pub system: u8,
    pub width: u16,
    pub height: u16,
    pub rows: u16,
    pub bytes: u32,
}

impl From<Picture> for StoredPicture {
    ghost from_gives = { λ picture kept. kept ≡ stored picture };

    fn from(picture: Picture) -> StoredPicture {
        let bytes = picture.bytes();
        match picture.phase() {
            Phase::Fresh => StoredPicture::unopened(0, bytes),
            Phase::Open(o) => StoredPicture {
                phase: 1,
                system: o.system.number() as u8,
                width: o.width,
                height: o.height,
                rows: o.rows,
                bytes,
            },
            Phase::Closed => StoredPicture::unopened(2, bytes),
        }
    }
}

// A picture that no call made is taken as fresh.
impl From<StoredPicture> for Picture {
    ghost from_gives = { λ kept picture. picture ≡ picture_of kept };

    fn from(kept: StoredPicture) -> Picture {
        Picture::resume(kept.phase(), kept.bytes)
    }
}

impl StoredPicture {
    fn unopened(phase: u8, bytes: u32) -> StoredPicture
        ensures { result ≡ unopened phase bytes }
    {
        StoredPicture {
            phase,
            system: 0,
            width: 0,
            height: 0,
            rows: 0,
            bytes,
        }
    }

    fn phase(self) -> Phase
        ensures { result ≡ phase_of self }
    {
        match self.phase {
            1 => self.open_phase(),
            2 => Phase::Closed,
            _ => Phase::Fresh,
        }
    }

    fn open_phase(self) -> Phase
        ensures { result ≡ open_phase self }
    {
        match System::try_from(u32::from(self.system)) {
            Ok(system) => Phase::Open(Opened {
                system,
                width: self.width,
                height: self.height,
                rows: self.rows,
            }),
            Err(_) => Phase::Fresh,
        }
    }
}
