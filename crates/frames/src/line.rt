// A line as it is read, byte by byte.
ghost use Rattle.std.specs.Prelude.{[], ◌≡◌, ◌<◌, ◌≤◌, take, MatchOption};
ghost use Rattle.frames.specs.LineCode.{LineHolds, Longer, Empties};

// The number of bytes, 19 where a line is longer than any frame, and the first 18 bytes. No heap: an array of fixed size holds them.
#[derive(Clone, Copy)]
pub struct Line {
    pub len: usize,
    pub bytes: [u8; 18],
}

impl Line {
    // A line with no bytes yet.
    pub fn new() -> Line
        ensures { LineHolds result [] }
    {
        Line {
            len: 0,
            bytes: [0; 18],
        }
    }

    // One more byte at the end of the line.
    pub fn push(&mut self, byte: u8)
        ensures { Longer self.old byte self.new }
    {
        if self.len < 18 {
            self.bytes[self.len] = byte;
            self.len += 1;
        } else {
            self.len = 19;
        }
    }

    // Whether the line has no bytes.
    pub fn is_empty(&self) -> bool
        ensures { Empties self.now result }
    {
        self.len == 0
    }

    // The bytes of the line, none where it is longer than any frame.
    pub fn bytes(&self) -> Option<&[u8]>
        ensures { MatchOption result (18 < self.now.len) (λ s. (self.now.len ≤ 18) × (s.now ≡ take self.now.len self.now.bytes)) }
    {
        self.bytes.get(..self.len)
    }
}
