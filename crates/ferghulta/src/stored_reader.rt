// A picture reader as a caller in C stores it, in eight bytes.
ghost use Rattle.std.specs.Prelude.{◌≡◌};
ghost use Rattle.ferghulta.specs.StoredReader.{stored_reader, stored_idle, stored_progress, reading_of, reader_phase, reader_of};

use reader::{Format, Phase, Progress, Reader};
use systems::System;

// phase, a number as the C interface has it: 0 not opened, 1 reading, 2 complete. The rest is 0 unless it is reading, and system and
// width are 0 before the first row.
#[repr(C)]
#[derive(Clone, Copy)]
pub struct StoredReader {
    pub phase: u8,
    pub system: u8,
    pub width: u16,
    pub height: u16,
    pub next: u16,
}

impl From<Reader> for StoredReader {
    ghost from_gives = { λ reader kept. kept ≡ stored_reader reader };

    fn from(reader: Reader) -> StoredReader {
        match reader.phase() {
            Phase::Unopened => StoredReader::idle(0),
            Phase::Reading(p) => StoredReader::reading(p),
            Phase::Complete => StoredReader::idle(2),
        }
    }
}

// A reader that no call made is taken as not opened.
impl From<StoredReader> for Reader {
    ghost from_gives = { λ kept reader. reader ≡ reader_of kept };

    fn from(kept: StoredReader) -> Reader {
        Reader::resume(kept.phase())
    }
}

impl StoredReader {
    fn idle(phase: u8) -> StoredReader
        ensures { result ≡ stored_idle phase }
    {
        StoredReader {
            phase,
            system: 0,
            width: 0,
            height: 0,
            next: 0,
        }
    }

    fn reading(p: Progress) -> StoredReader
        ensures { result ≡ stored_progress p }
    {
        let (system, width) = match p.format {
            Some(f) => (f.system.number() as u8, f.width),
            None => (0, 0),
        };
        StoredReader {
            phase: 1,
            system,
            width,
            height: p.height,
            next: p.next,
        }
    }

    fn phase(self) -> Phase
        ensures { result ≡ reader_phase self }
    {
        match self.phase {
            1 => self.reading_phase(),
            2 => Phase::Complete,
            _ => Phase::Unopened,
        }
    }

    fn reading_phase(self) -> Phase
        ensures { result ≡ reading_of self }
    {
        let format = if self.system == 0 && self.width == 0 {
            None
        } else {
            match System::try_from(u32::from(self.system)) {
                Ok(system) => Some(Format {
                    system,
                    width: self.width,
                }),
                Err(_) => return Phase::Unopened,
            }
        };
        Phase::Reading(Progress {
            height: self.height,
            next: self.next,
            format,
        })
    }
}
