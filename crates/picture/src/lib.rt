// A picture taken row by row (document 01, 'Picture'). proofs/Demand.antt has the theorems over every list of these calls
// (demand 3, and request 2026-06 of the bytes), and docs/THEOREM.md explains them.
#![tactic(auto)]

ghost use Rattle.std.specs.Prelude.{◌≡◌, ◌&&◌, leb, length};
ghost use Rattle.systems.specs.Refusals.{outcome};
ghost use Rattle.picture.specs.declared.Phase.TheVariants.{Fresh};
ghost use Rattle.picture.specs.Picture.{at, sized, total_bytes, resumed, proper, begin, opening, row_open, rowing, buffer_by, buffer_after, closing};

use block::size;
use row::write_row;
use systems::{MOST_ROWS, MOST_SAMPLES, Refusal, System};

// What an open picture was opened with, and how many of its rows were accepted.
#[derive(Clone, Copy)]
pub struct Opened {
    pub system: System,
    pub width: u16,
    pub height: u16,
    pub rows: u16,
}

#[derive(Clone, Copy)]
pub enum Phase {
    Fresh,
    Open(Opened),
    Closed,
}

// bytes: of the blocks accepted since the last accepted open. A closed picture keeps them.
#[derive(Clone, Copy)]
pub struct Picture {
    phase: Phase,
    bytes: u32,
}

// A width and a height in their ranges.
#[derive(Clone, Copy)]
struct Size {
    width: u16,
    height: u16,
}

// How many bytes a picture will take. Refused: 2, then 3.
#[tactic(auto, using(crate::proofs::Totals::total_most, crate::proofs::Totals::sized_bounded))]
pub fn total_bytes(width: u32, height: u32) -> Result<u32, Refusal>
    ensures { outcome result ≡ total_bytes width height }
{
    let Size { width, height } = sized(width, height)?;
    let bytes = usize::from(height) * size(usize::from(width));
    Ok(bytes as u32)
}

impl Picture {
    pub fn new() -> Picture
        ensures { result ≡ at Fresh 0 }
    {
        Picture {
            phase: Phase::Fresh,
            bytes: 0,
        }
    }

    // The picture at a phase that a caller kept; an open one that no call makes is taken as fresh.
    pub fn resume(phase: Phase, bytes: u32) -> Picture
        ensures { result ≡ at (resumed phase bytes) bytes }
    {
        match phase {
            Phase::Open(o) if !o.is_proper(bytes) => Picture {
                phase: Phase::Fresh,
                bytes,
            },
            _ => Picture { phase, bytes },
        }
    }

    pub fn phase(self) -> Phase
        ensures { result ≡ self.phase }
    {
        self.phase
    }

    pub fn bytes(self) -> u32
        ensures { result ≡ self.bytes }
    {
        self.bytes
    }

    // Refused: 21, then 1, 2, 3.
    pub fn open(self, system: u32, width: u32, height: u32) -> Result<Picture, Refusal>
        ensures { outcome result ≡ opening self system width height }
    {
        if let Phase::Open(_) = self.phase {
            return Err(Refusal::AlreadyOpen);
        }
        let phase = begin(system, width, height)?;
        Ok(Picture { phase, bytes: 0 })
    }

    // One block to the front of the buffer. Refused: 22, 23, then 4, 5.
    pub fn row(self, lights: &[u16], out: &mut [u8]) -> Result<Picture, Refusal>
        ensures { (outcome result ≡ rowing self lights.now (length out.old)) × (out.new ≡ buffer_after self lights.now out.old) }
    {
        let Phase::Open(o) = self.phase else {
            return Err(Refusal::NotOpen);
        };
        let phase = o.next_row(lights, out)?;
        // No list of calls gets beyond a u32.
        let bytes = self.bytes.saturating_add(size(usize::from(o.width)) as u32);
        Ok(Picture { phase, bytes })
    }

    // Refused: 22, then 24.
    pub fn close(self) -> Result<Picture, Refusal>
        ensures { outcome result ≡ closing self }
    {
        match self.phase {
            Phase::Open(o) if o.rows == o.height => Ok(Picture {
                phase: Phase::Closed,
                ..self
            }),
            Phase::Open(_) => Err(Refusal::RowsMissing),
            Phase::Fresh | Phase::Closed => Err(Refusal::NotOpen),
        }
    }
}

impl Opened {
    // Whether calls can make it.
    #[tactic(auto, unfolding(crate::specs::Picture::proper))]
    fn is_proper(self, bytes: u32) -> bool
        ensures { result ≡ proper self bytes }
    {
        is_size(u32::from(self.width), MOST_SAMPLES)
            && is_size(u32::from(self.height), MOST_ROWS)
            && self.rows <= self.height
            && usize::from(self.rows) * size(usize::from(self.width)) == bytes as usize
    }

    // The phase after a row. Refused: 23, then 4, 5.
    #[tactic(auto, unfolding(crate::specs::Picture::row_open))]
    fn next_row(self, lights: &[u16], out: &mut [u8]) -> Result<Phase, Refusal>
        ensures { (outcome result ≡ row_open self lights.now (length out.old)) × (out.new ≡ buffer_by (row_open self lights.now (length out.old)) self lights.now out.old) }
    {
        if self.height <= self.rows {
            return Err(Refusal::AllRows);
        }
        if lights.len() != 3 * usize::from(self.width) {
            return Err(Refusal::Lights);
        }
        if out.len() < size(usize::from(self.width)) {
            return Err(Refusal::Output);
        }
        write_row(self.system, self.rows, self.width, lights, out);
        Ok(Phase::Open(Opened {
            rows: self.rows + 1,
            ..self
        }))
    }
}

// The phase that an open leads to. Refused: 1, 2, 3.
#[tactic(auto, unfolding(crate::specs::Picture::begin))]
fn begin(system: u32, width: u32, height: u32) -> Result<Phase, Refusal>
    ensures { outcome result ≡ begin system width height }
{
    let system = System::try_from(system)?;
    let Size { width, height } = sized(width, height)?;
    Ok(Phase::Open(Opened {
        system,
        width,
        height,
        rows: 0,
    }))
}

#[tactic(auto, unfolding(crate::specs::Picture::sized))]
fn sized(width: u32, height: u32) -> Result<Size, Refusal>
    ensures { outcome result ≡ sized width height }
{
    if !is_size(width, MOST_SAMPLES) {
        return Err(Refusal::Width);
    }
    if !is_size(height, MOST_ROWS) {
        return Err(Refusal::Height);
    }
    Ok(Size {
        width: width as u16,
        height: height as u16,
    })
}

// From 1 to the most that there may be.
pub fn is_size(size: u32, most: u16) -> bool
    ensures { result ≡ (leb 1 size && leb size most) }
{
    (1..=u32::from(most)).contains(&size)
}
