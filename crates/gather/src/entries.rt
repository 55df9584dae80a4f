// The lent room and the place of the next entry: past the length for good where one did not fit. It is `lent::Pen` for entries, and no
// instance of a pen for every type: a place one past the end of a slice of a type parameter gets no proof that it fits a usize.

ghost use Rattle.std.specs.Prelude.{◌≡◌};
ghost use Rattle.lent.specs.Write.{pen, byte};
ghost use Rattle.gather.specs.Entries.{place_of, Entered};

#[derive(Drop)]
pub struct Entries<'a> {
    room: &'a mut [u32],
    to: usize,
}

impl<'a> Entries<'a> {
    // At the start of a room.
    pub fn new(room: &'a mut [u32]) -> Entries<'a>
        ensures same { result.room.ghost_name ≡ room.entry.ghost_name }
        ensures start { place_of result ≡ pen room.old 0 }
    {
        Entries { room, to: 0 }
    }

    // How many entries there are, or past the room's length if they did not fit.
    pub fn end(&self) -> usize
        ensures { result ≡ self.now.to }
    {
        self.to
    }

    // One entry more.
    pub fn put(&mut self, e: u32)
        ensures { Entered self.old (byte e) self.new }
    {
        if self.to < self.room.len() {
            self.room[self.to] = e;
            self.to += 1;
        } else {
            self.to = self.room.len() + 1;
        }
    }
}
