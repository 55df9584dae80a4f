// Where programs start, and the labels of a step.
ghost use Rattle.std.specs.Prelude.{◌≡◌};
ghost use Rattle.items.specs.Items.{loop, Printed};
ghost use Rattle.ligatures.specs.Labels.{Carries, label_item, boundary_label, label_items};
ghost use Rattle.ligatures.specs.Programs.{starts_in};

use items::Word;
use lent::Pen;
use tfm::Font;

// The start of each code's program, that of the left boundary last.
pub fn starts_of(font: &Font) -> [u32; 257]
    ensures { result ≡ starts_in font.now }
{
    let mut starts = [0u32; 257];
    for (code, start) in starts.iter_mut().enumerate() {
        *start = program::program_start(font, code as u32);
    }
    starts
}

// Flags of which those at the starts are set, and no others. A code that the table of starts doesn't have counts as one at step 0, so the codes are counted.
pub fn carried(starts: &[u32]) -> [bool; 32768]
    ensures { Carries starts.now result }
{
    let mut carries = [false; 32768];
    for c in 0..257usize {
        lent::store(&mut carries, lent::at(starts, c, 0) as usize, true);
    }
    carries
}

fn put_label(pen: &mut Pen, letters: bool, starts: &[u32], i: u32, c: u8)
    ensures { Printed pen.old 1 (label_item letters starts.now i c) pen.new }
{
    if lent::at(starts, c as usize, 0) == i {
        items::put_leaf(pen, 1, b"LABEL", &[Word::Code(letters, c)]);
    }
}

fn put_code_labels(pen: &mut Pen, letters: bool, starts: &[u32], i: u32)
    ensures { Printed pen.old 1 (loop 256 (label_item letters starts.now i)) pen.new }
{
    for c in 0..=255u8 {
        put_label(pen, letters, starts, i, c);
    }
}

fn put_boundary_label(pen: &mut Pen, starts: &[u32], i: u32)
    ensures { Printed pen.old 1 (boundary_label starts.now i) pen.new }
{
    if lent::at(starts, 256, 0) == i {
        items::put_leaf(pen, 1, b"LABEL", &[Word::Raw(b"BOUNDARYCHAR")]);
    }
}

// The starts of the programs, and a flag for each step that carries a label.
#[derive(Clone, Copy)]
pub struct Labels<'a> {
    pub starts: &'a [u32],
    pub carries: &'a [bool],
    pub ghost agree: { Carries starts.now carries.now },
}

impl<'a> Labels<'a> {
    // The labels of step i: the codes are searched only where the step carries one.
    pub fn put(&self, pen: &mut Pen, letters: bool, i: u32)
        ensures { Printed pen.old 1 (label_items letters self.now.starts.now i) pen.new }
    {
        if lent::at(self.carries, i as usize, true) {
            put_boundary_label(pen, self.starts, i);
            put_code_labels(pen, letters, self.starts, i);
        }
    }
}
