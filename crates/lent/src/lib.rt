// Lent slices, total: every read, part and store has an answer, and a pen marks for good what did not fit.
#![tactic(auto)]

ghost use Rattle.std.specs.Prelude.{◌≡◌, ℕ, ◌<◌, ◌++◌, get_or, take, drop, set, eqb, ◌+◌, length};
ghost use Rattle.lent.specs.Part.{PartOf};
ghost use Rattle.lent.specs.Write.{pen, byte, lit};
ghost use Rattle.lent.specs.Pens.{place_of, Written};

// The item at i, or the one for past the end.
pub fn at<T: Copy>(s: &[T], i: usize, past: T) -> T
    ensures { result ≡ get_or s.now i past }
{
    s.get(i).copied().unwrap_or(past)
}

// A store that does nothing past the end.
pub fn store<T: Copy>(s: &mut [T], i: usize, x: T)
    ensures { s.new ≡ set s.old i x }
{
    if i < s.len() {
        s[i] = x;
    }
}

// The n bytes from a on, or as many as there are.
pub fn part(s: &[u8], a: usize, n: usize) -> &[u8]
    ensures { PartOf s.entry a (take n (drop a s.now)) result }
{
    let from = a.min(s.len());
    let to = from + n.min(s.len() - from);
    &s[from..to]
}

// What the check knows of a lent slice, but not of one behind a `&Font`: that it holds bytes. A call tells it.
pub fn holds_bytes(bytes: &[u8])
    ensures { (k : ℕ) → get_or bytes.now k 0 < 256 }
{}

// The bytes of `from` at the front of `to`, as many as both have room for.
pub fn copy(to: &mut [u8], from: &[u8])
    ensures { to.new ≡ take (length to.old) from.now ++ drop (length from.now) to.old }
{
    let n = to.len().min(from.len());
    to[..n].copy_from_slice(&from[..n]);
}

// A lent buffer and the place of the next byte: past the length for good where one did not fit.
#[derive(Drop)]
pub struct Pen<'a> {
    out: &'a mut [u8],
    to: usize,
}

impl<'a> Pen<'a> {
    // A pen at any place of a buffer: what was promised of every place is promised still.
    pub fn at(out: &'a mut [u8], to: usize) -> Pen<'a>
        ensures same { result.out.ghost_name ≡ out.entry.ghost_name }
        ensures start { place_of result ≡ pen out.old to }
    {
        Pen { out, to }
    }

    // A pen at the start of a buffer.
    pub fn new(out: &'a mut [u8]) -> Pen<'a>
        ensures same { result.out.ghost_name ≡ out.entry.ghost_name }
        ensures start { place_of result ≡ pen out.old 0 }
    {
        Pen::at(out, 0)
    }

    // Where the text ends, or past the buffer's length if it did not fit.
    pub fn end(&self) -> usize
        ensures { result ≡ self.now.to }
    {
        self.to
    }

    // What is written, as far as it fits.
    pub fn text(&self) -> &[u8]
        ensures { result.now ≡ take self.now.to self.now.out.now }
    {
        part(self.out, 0, self.to)
    }

    // Something did not fit: what is put from now on changes nothing.
    pub fn has_overflowed(&self) -> bool
        ensures { result ≡ eqb self.now.to (length self.now.out.now + 1) }
    {
        self.to == self.out.len() + 1
    }

    // One byte more: past the end for good where it does not fit.
    pub fn put(&mut self, b: u8)
        ensures { Written self.old (byte b) self.new }
    {
        if self.to < self.out.len() {
            self.out[self.to] = b;
            self.to += 1;
        } else {
            self.to = self.out.len() + 1;
        }
    }

    pub fn put_bytes(&mut self, bytes: &[u8])
        ensures { Written self.old (lit bytes.now) self.new }
    {
        for &b in bytes {
            self.put(b);
        }
    }
}
