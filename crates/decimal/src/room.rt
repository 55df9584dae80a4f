// A decimal text by value.
ghost use Rattle.std.specs.Prelude.{◌≡◌, take};

// A text of at most 13 bytes: `len` of them, then zeros. (C is given both as they stand.)
#[derive(Clone, Copy, Debug, PartialEq, Eq)]
pub struct Decimal {
    pub bytes: [u8; 13],
    pub len: usize,
}

impl Decimal {
    // The text alone.
    pub fn text(&self) -> &[u8]
        ensures { result.now ≡ take self.now.len self.now.bytes }
    {
        lent::part(&self.bytes, 0, self.len)
    }
}
