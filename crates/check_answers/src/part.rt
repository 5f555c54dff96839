// The block that a record of a list is given.
ghost use Rattle.std.specs.Prelude.{◌≡◌, ◌+◌, ◌<◌, ◌≤◌, length, take, drop, MatchOption};

// A block, a part of the bytes of the file 'blocks', and how many places the slice has that is lent for its codes.
#[derive(Clone, Copy)]
pub struct Part {
    pub start: u32,
    pub length: u16,
    pub places: u16,
}

impl Part {
    // The block's bytes, if they are all there.
    pub fn of(self, blocks: &[u8]) -> Option<&[u8]>
        ensures { MatchOption result (length blocks.now < self.start + self.length) (λ block. (block.now ≡ take self.length (drop self.start blocks.now)) × (self.start + self.length ≤ length blocks.now)) }
    {
        let start = self.start as usize;
        blocks.get(start..start + self.length as usize)
    }
}
