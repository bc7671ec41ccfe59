// A line to write.
ghost use Rattle.std.specs.Prelude.{◌≡◌, ◌≤◌, take};

// A line with its line feed: its length and its bytes. No heap: an array of fixed size holds them.
#[derive(Clone, Copy)]
pub struct Text {
    pub len: usize,
    pub bytes: [u8; 11],
    ghost fits: { len ≤ 11 },
}

impl Text {
    // The bytes of the line, with its line feed.
    pub fn as_bytes(&self) -> &[u8]
        ensures { result.now ≡ take self.now.len self.now.bytes }
    {
        &self.bytes[..self.len]
    }
}
